// The anti-replay nonce: twenty bytes, compared as five words (document 02, Note 3).
ghost use Rattle.std.specs.Prelude.{◌≡◌, ◌+◌, ◌≤◌, eqb, length};
ghost use Rattle.forms.specs.Bytes.{window, same};
ghost use Rattle.forms.specs.Limits.{nonce_len};
ghost use Rattle.forms.specs.Number.{be32};

use crate::bytes::{byte_at, fits};
use crate::number::u32_at;

pub const LEN: usize = 20;

pub type Nonce = [u8; LEN];

// The nonce at a place of a slice.
pub fn nonce_at(s: &[u8], at: usize) -> Nonce
    ensures { result ≡ window s.now at nonce_len }
{
    let mut nonce = [0u8; LEN];
    if s.len() <= at {
        return nonce;
    }
    for i in 0..LEN {
        nonce[i] = byte_at(s, at + i);
    }
    nonce
}

// Whether two nonces have the same word at an offset.
fn same_word(a: &[u8], b: &[u8], offset: usize) -> bool
    requires { (offset + 4 ≤ length a.now) × (offset + 4 ≤ length b.now) }
    ensures { result ≡ eqb (be32 a.now offset) (be32 b.now offset) }
{
    u32_at(a, offset) == u32_at(b, offset)
}

// Whether two nonces agree: five words of each are read and compared, with no test between them, as document 02's Note 3 asks.
fn words_agree(a: &[u8], b: &[u8]) -> bool
    requires { (length a.now ≡ nonce_len) × (length b.now ≡ nonce_len) }
    ensures { result ≡ same a.now b.now }
{
    same_word(a, b, 0)
        & same_word(a, b, 4)
        & same_word(a, b, 8)
        & same_word(a, b, 12)
        & same_word(a, b, 16)
}

// Whether the nonce at a place of a slice is the one given, byte for byte. Nothing is copied where both are there whole.
//
// Ruled out, among others: a comparison of the first four words, or of the low bytes of each; yes for a nonce that is too short to compare.
pub fn agree(s: &[u8], at: usize, nonce: &[u8]) -> bool
    ensures { result ≡ same (window s.now at nonce_len) (window nonce.now 0 nonce_len) }
{
    if fits(s, at, LEN) && LEN <= nonce.len() {
        return words_agree(&s[at..at + LEN], &nonce[..LEN]);
    }
    // Zeros stand for bytes that are not there. The slices are lent on as parts: as they are, they would have to stand in memory above too.
    words_agree(&nonce_at(&s[..], at), &nonce_at(&nonce[..], 0))
}
