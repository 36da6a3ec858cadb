// The host's answers, and what image and output hold after each: successes, every refusal at every call that it concerns, calls that break
// several rules at once, damaged images, and the limits. The cases are lines of the input; the expected output is calculated from the
// document and not by this program.
#![tactic(auto)]

mod answer;
mod call;
mod many;
mod table;

use cases::table::Table;
use forms::image::Image;
use input::read_full;
use std::io;

// The most bytes of the input that are read.
const INPUT: usize = 65536;

// Room for an image and a byte behind it.
pub(crate) const IMAGE_ROOM: usize = Image::LEN + 1;

fn main(rt: HostRuntime) -> io::Result<()> {
    let mut text = [0u8; INPUT];
    let len = read_full(&mut rt.stdin(), &mut text)?;
    let mut table = Table::<IMAGE_ROOM>::new(Image::LEN);
    for piece in text[..len].split_inclusive(|byte| *byte == b'\n') {
        let line = piece.strip_suffix(b"\n").unwrap_or(piece);
        table::row(&rt, &mut table, line)?;
    }
    Ok(())
}
