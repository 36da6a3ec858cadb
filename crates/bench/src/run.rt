// The bench's input and output: the input is read in parts, and what the lines of each part print is written before the next is read. No contract
// can say what is read and written; what is printed for a part is `Session::feed`'s.
use crate::bench::Bench;
use crate::result::MAX_RESULT;
use console::run::run_session;
use std::io;
use std::io::{Read, Write};

// The bytes that are read at a time, and the text that they may need.
const PART: usize = 64;

const TEXT: usize = PART * MAX_RESULT;

// Reads the input to its end, from an image that is all zero. A read or a write that fails ends it with the error, with no further line taken.
pub fn run<R: Read, W: Write>(input: &mut R, output: &mut W) -> io::Result<()> {
    run_session(
        Bench::new(),
        &mut [0u8; PART],
        &mut [0u8; TEXT],
        input,
        output,
    )
}
