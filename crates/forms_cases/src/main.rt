// The forms of document 01, written, read back and refused, one case a line. The cases are lines of the input; the expected output is
// calculated from the document's tables and not by this program.
#![tactic(auto)]

mod counts;
mod damage;
mod fields;
mod nonces;
mod out;
mod refusal;
mod roundtrip;
mod sample;
mod sweep;
mod table;

use input::read_full;
use std::io;

// The most bytes of the input that are read.
const INPUT: usize = 65536;

fn main(rt: HostRuntime) -> io::Result<()> {
    let mut text = [0u8; INPUT];
    let len = read_full(&mut rt.stdin(), &mut text)?;
    let mut entries = [0u8; sample::ENTRIES_ROOM];
    sample::fill(&mut entries);
    table::run(&rt, &text[..len], &entries)?;
    // Where the input fills its room there may be more of it.
    if INPUT <= len {
        rt.write_all(b"no room for all cases\n")?;
    }
    Ok(())
}
