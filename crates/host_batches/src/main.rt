// The host's answers to batches of requests, and the image after each: document 02, Note 7, with its published lists. Every proof written is given to
// the desk. The cases are lines of the input; the expected output is calculated from the documents and not by this program.
#![tactic(auto)]

mod answer;
mod batch;
mod call;
mod crc;
mod judge;
mod table;

use cases::table::Table;
use forms::image::Image;
use input::read_full;
use std::io;

// The most bytes of the input that are read.
const INPUT: usize = 65536;

fn main(rt: HostRuntime) -> io::Result<()> {
    let mut text = [0u8; INPUT];
    let len = read_full(&mut rt.stdin(), &mut text)?;
    let mut table = Table::new(Image::LEN);
    for piece in text[..len].split_inclusive(|byte| *byte == b'\n') {
        let line = piece.strip_suffix(b"\n").unwrap_or(piece);
        table::row(&rt, &mut table, line)?;
    }
    Ok(())
}
