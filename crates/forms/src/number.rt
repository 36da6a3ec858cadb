// Big-endian numbers of 16 and 32 bits at a place of a slice. A byte that is not there counts as 0; a number that does not fit
// whole is not stored.
ghost use Rattle.std.specs.Prelude.{◌≡◌, ◌+◌, ◌≤◌, length};
ghost use Rattle.forms.specs.Bytes.{overwrite};
ghost use Rattle.forms.specs.Number.{be16, be32, digits};

use crate::bytes::{byte_at, fits, put};

// One function for each width, since each is one call of its type's own method of the library.

pub fn get_u16(s: &[u8], at: usize) -> u32
    ensures { result ≡ be16 s.now at }
{
    if s.len() <= at {
        return 0;
    }
    u32::from(u16::from_be_bytes([s[at], byte_at(s, at + 1)]))
}

// The number at a place where it is there whole. Its bytes are read with no test between them, so that the compiler makes one load of them.
pub(crate) fn u32_at(s: &[u8], at: usize) -> u32
    requires { at + 4 ≤ length s.now }
    ensures { result ≡ be32 s.now at }
{
    u32::from_be_bytes([s[at], s[at + 1], s[at + 2], s[at + 3]])
}

pub fn get_u32(s: &[u8], at: usize) -> u32
    ensures { result ≡ be32 s.now at }
{
    if fits(s, at, 4) {
        return u32_at(s, at);
    }
    if s.len() <= at {
        return 0;
    }
    u32::from_be_bytes([
        s[at],
        byte_at(s, at + 1),
        byte_at(s, at + 2),
        byte_at(s, at + 3),
    ])
}

// Stores the lower 16 bits of x.
pub fn put_u16(s: &mut [u8], at: usize, x: u32)
    ensures { s.new ≡ overwrite s.old at (digits 2 x) }
{
    put(s, at, &((x % 65536) as u16).to_be_bytes());
}

pub fn put_u32(s: &mut [u8], at: usize, x: u32)
    ensures { s.new ≡ overwrite s.old at (digits 4 x) }
{
    put(s, at, &x.to_be_bytes());
}
