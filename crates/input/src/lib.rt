// An input whole, read into room that the caller has, and the inputs that a program's arguments name.
#![tactic(auto)]

ghost use Rattle.std.specs.Prelude.{◌≤◌, ◌<◌, length, take, IfOk};
ghost use Rattle.std.specs.Io.KnownBytes.{Consumes, IsAtEnd};

use std::io;
use std::io::Read;

pub mod named;

// Reads until the room is full or the input ends, and answers how many bytes of the room were read.
//
// Ruled out, among others: a reader that stops at the first part of the input; one that puts each part over the one before it.
pub fn read_full<R: Read>(input: &mut R, room: &mut [u8]) -> io::Result<usize>
    ensures bound { IfOk result (λ n. n ≤ length room.old) }
    ensures bytes { IfOk result (λ n. Consumes (R.remaining input.old) (R.remaining input.new) (take n room.new)) }
    ensures end { IfOk result (λ n. n < length room.old → IsAtEnd (R.remaining input.new)) }
{
    // The library's `read_to_end` needs a heap, and its `read_exact` refuses an input that is shorter than the room.
    let mut at = 0;
    for _ in 0..room.len() {
        let got = input.read(&mut room[at..])?;
        if got == 0 {
            break;
        }
        at += got;
    }
    Ok(at)
}
