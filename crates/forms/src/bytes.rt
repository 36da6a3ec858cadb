// Single bytes and runs of bytes at a place of a slice.
ghost use Rattle.std.specs.Prelude.{◌≡◌, ◌+◌, get_or, leb, length};
ghost use Rattle.forms.specs.Bytes.{overwrite};

// The byte at a place, 0 past the end.
pub fn byte_at(s: &[u8], at: usize) -> u8
    ensures { result ≡ get_or s.now at 0 }
{
    if at < s.len() { s[at] } else { 0 }
}

// Whether there are so many bytes from a place on.
//
// Ruled out, among others: yes for a place past the end where no byte is asked for; a sum that wraps.
pub fn fits(s: &[u8], at: usize, len: usize) -> bool
    ensures { result ≡ leb (at + len) (length s.now) }
{
    at <= s.len() && len <= s.len() - at
}

// Stores all of v from a place on, or nothing where v does not fit there.
pub fn put(s: &mut [u8], at: usize, v: &[u8])
    ensures { s.new ≡ overwrite s.old at v.now }
{
    if fits(s, at, v.len()) {
        s[at..at + v.len()].copy_from_slice(v);
    }
}
