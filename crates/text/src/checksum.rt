// One number for many bytes: from 1, each byte in turn makes it number × 257 + byte, modulo the largest prime below 2^32.
ghost use Rattle.std.specs.Prelude.{◌≡◌};
ghost use Rattle.text.specs.Text.{checksum, mixed};

const MODULUS: u64 = 4294967291;

// A checksum and one byte more.
fn mixed(sum: u32, byte: &u8) -> u32
    ensures { result ≡ mixed sum byte.now }
{
    ((u64::from(sum) * 257 + u64::from(*byte)) % MODULUS) as u32
}

// Ruled out, among others: a checksum that passes over the first byte; one that starts at 0, to which leading zeros are nothing.
#[tactic(auto, using(crate::specs::Laws::TextLaws::fold_same), unfolding(crate::specs::Text::checksum))]
pub fn checksum(s: &[u8]) -> u32
    ensures { result ≡ checksum s.now }
{
    s.iter().fold(1, mixed)
}
