// The program: a sheet on standard input, its report on standard output.
#![tactic(auto)]

use anyhow::anyhow;
use sheet::{Unread, read_sheet};
use std::io::Read;

// One byte more than a sheet may have tells a sheet that is too long.
const MOST: u64 = 65537;

fn main(rt: HostRuntime) -> anyhow::Result<()> {
    let heap = rt.alloc();
    let mut bytes = Vec::new(heap);
    rt.stdin().take(MOST).read_to_end(&mut bytes)?;
    match read_sheet(heap, bytes.as_slice()) {
        Ok(_lines) => {}
        Err(Unread::Form(refusal)) => println!(rt; "{refusal}")?,
        Err(Unread::Memory) => return Err(anyhow!("out of memory")),
    }
    Ok(())
}
