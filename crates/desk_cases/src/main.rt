// The desk's answers, one case a line: document 01's cases A to L, the vectors for the desk, cases in which several checks refuse at once,
// and the longest proofs. All but the longest are lines of the input; the expected output is calculated from the document and not by this program.
#![tactic(auto)]

mod answer;
mod case;
mod log;
mod long;
mod table;

use input::read_full;
use std::io;

// The most bytes of the input that are read.
const INPUT: usize = 65536;

fn main(rt: HostRuntime) -> io::Result<()> {
    let mut text = [0u8; INPUT];
    let len = read_full(&mut rt.stdin(), &mut text)?;
    table::run(&rt, &text[..len])?;
    long::run(&rt)
}
