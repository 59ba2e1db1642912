// The form check on the sheets of data/: a line for each, its name and its verdict.
#![tactic(auto)]

use sheet::check_form;
use std::fs;

fn verdict(rt: &HostRuntime, name: &str) -> anyhow::Result<()> {
    let bytes = fs::read(rt, name)?;
    match check_form(bytes.as_slice()) {
        Ok(lines) => println!(rt; "{name}: good, {lines} lines")?,
        Err(refusal) => println!(rt; "{name}: {refusal}")?,
    }
    Ok(())
}

fn main(rt: HostRuntime) -> anyhow::Result<()> {
    let names = fs::read_to_string(&rt, "names")?;
    for name in names.lines() {
        verdict(&rt, name)?;
    }
    Ok(())
}

#[cfg(test)]
mod tests {
    use board::End;
    use refusal::{Part, Row};
    use sheet::{Line, LineRefusal, Unread, check_form, read_sheet};
    use std::process::Abort;
    use std::test::Fail;

    fn refused(
        rt: &impl Abort,
        sheet: &[u8],
        line: usize,
        row: Row,
        place: usize,
    ) -> Result<(), Fail> {
        match check_form(sheet) {
            Ok(_) => Err(Fail::new("good")),
            Err(f) => {
                assert_eq!(rt;
                    f,
                    LineRefusal {
                        line,
                        refusal: Part::Sheet.refuse_at(row, place),
                    }
                );
                Ok(())
            },
        }
    }

    #[test]
    fn first_bad_line_counts(rt: HostRuntime) -> Result<(), Fail> {
        refused(&rt, b"", 1, Row::Letter, 1)?;
        refused(&rt, b"g 1 2?", 1, Row::Byte, 6)?;
        refused(&rt, b"g 1 1\nk 9\nf 01\n", 3, Row::Word, 3)?;
        refused(&rt, b"g 65 1\nx\n!\n", 2, Row::Letter, 1)
    }

    #[test]
    fn lines_say_their_words(rt: HostRuntime) -> Result<(), Fail> {
        let said = read_sheet(rt.alloc(), b"n 2\nl 0 * 3\nc 1 0 9999999999999\nk 0\nw\n")?;
        assert!(rt; said.len() == 5);
        assert_eq!(rt; said[0], Line::Sites { count: 2 });
        assert_eq!(rt;
            said[1],
            Line::Link {
                site: 0,
                end: End::Drain,
                links: 3,
            }
        );
        assert_eq!(rt;
            said[2],
            Line::Cut {
                site: 1,
                end: End::Site(0),
                links: 9_999_999_999_999,
            }
        );
        assert_eq!(rt; said[3], Line::Ceiling { firings: 0 });
        assert_eq!(rt; said[4], Line::Wave);
        Ok(())
    }
}
