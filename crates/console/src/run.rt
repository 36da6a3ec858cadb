// The program's input and output: the input is read in parts, and the answers of each part are written before the next is read. No contract can
// say what is read and written; what is printed for a part is `Session::feed`'s.
use crate::commands::{Commands, MAX_ANSWER};
use crate::session::{Session, TakeLine};
use forms::image::Image;
use std::io;
use std::io::{Read, Write};
use text::part::front;

// The bytes that are read at a time, and the text that they may need.
const PART: usize = 4096;

const TEXT: usize = PART * MAX_ANSWER;

// Reads an input to its end, in parts of at most the room given, from an image that is all zero, and writes what its lines answer. No more is read at a
// time than the text has room to answer; where it has none for a single byte, nothing is read. A read or a write that fails ends it with the error, with
// no further line answered.
pub fn run_session<T: TakeLine + Drop, R: Read, W: Write>(
    taker: T,
    part: &mut [u8],
    text: &mut [u8],
    input: &mut R,
    output: &mut W,
) -> io::Result<()> {
    let mut image = [0u8; Image::LEN];
    let mut session = Session::new(taker);
    let room = part.len().min(text.len() / T::MAX_TEXT);
    for _ in 0..u64::MAX {
        let got = input.read(&mut part[..room])?;
        if got == 0 {
            break;
        }
        // What was read is answered, and none of it passed over.
        prove!(got <= text.len() / T::MAX_TEXT);
        let len = session.feed(&part[..got], &mut image, text);
        output.write_all(front(text, len))?;
    }
    let len = session.finish(&mut image, text);
    output.write_all(front(text, len))
}

// Reads the program's input to its end.
pub fn run<R: Read, W: Write>(input: &mut R, output: &mut W) -> io::Result<()> {
    run_session(Commands, &mut [0u8; PART], &mut [0u8; TEXT], input, output)
}
