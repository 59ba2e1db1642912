// A reader over lent bytes of a sheet: its cursor, and the line and column that it has come to.
ghost use Rattle.std.specs.Prelude.{◌+◌, ◌≤◌, length};

mod steps;

use super::Kind;

#[derive(Drop)]
pub(crate) struct Reader<'a> {
    pub(crate) bytes: &'a [u8],
    pub(crate) at: usize,
    pub(crate) line: usize,
    pub(crate) column: usize,
    ghost few: { length bytes.now ≤ 65536 },
    ghost within: { at ≤ length bytes.now + 1 },
    ghost down: { line ≤ at + 65537 },
    ghost first: { 1 ≤ column },
    ghost along: { column ≤ at + 3 },
}

// The lines that a sheet's reader has before it, behind the last letter; none once one was refused. (A flag: an
// Option of the rest would be taken out and put back at each line.)
#[derive(Drop)]
pub(crate) struct Lines<'a> {
    pub(crate) reader: Reader<'a>,
    pub(crate) last: Option<Kind>,
    pub(crate) refused: bool,
    ghost low: { reader.line ≤ reader.at + 1 },
}

// A line as it stands in the sheet: its bytes, its number, and whether byte 10 ends it. A flag, as the bytes are read either way.
#[derive(Clone, Copy)]
pub(crate) struct RawLine<'a> {
    pub(crate) bytes: &'a [u8],
    pub(crate) number: usize,
    pub(crate) ended: bool,
}

// Where a word begins.
#[derive(Clone, Copy)]
pub(crate) struct Place {
    pub(crate) line: usize,
    pub(crate) column: usize,
}

// A word is a part of the sheet; its first byte says what it is to be.
#[derive(Clone, Copy)]
pub(crate) enum Word<'a> {
    Number(&'a [u8], Place),
    Drain(&'a [u8], Place),
    Letter(&'a [u8], Place),
}
