// Digests written in hexadecimal, one a line.
ghost use Rattle.std.specs.Prelude.{◌<◌};

use digest::sha1::sha1;
use std::{fmt, io};

// The twenty bytes of a digest.
#[derive(Clone, Copy)]
struct Digest([u8; 20]);

impl fmt::Display for Digest {
    fn fmt<W: fmt::Write>(&self, f: &mut fmt::Formatter<W>) -> fmt::Result {
        for byte in self.0 {
            write!(f, "{byte:02x}")?;
        }
        Ok(())
    }
}

pub(crate) fn show(rt: &impl Print, message: &[u8]) -> io::Result<()> {
    println!(rt; "{}", Digest(sha1(message)))
}

// The digests of the first bytes of a message, from none to all by steps.
pub(crate) fn show_lengths(rt: &impl Print, message: &[u8], step: usize) -> io::Result<()>
    requires { 0 < step }
{
    for len in (0..=message.len()).step_by(step) {
        show(rt, &message[..len])?;
    }
    Ok(())
}
