// Parts of a slice of bytes, the place of a byte in it, and the lesser of two lengths.
ghost use Rattle.std.specs.Prelude.{◌≡◌, ◌≢◌, ℕ, ◌<◌, ◌≤◌, min, max, length, slice_index, take};
ghost use Rattle.text.specs.Text.{between, first_place};

// The lesser of two lengths.
pub fn least(a: usize, b: usize) -> usize
    ensures { result ≡ min a b }
{
    a.min(b)
}

// The first bytes, or all where there are no more.
pub fn front(s: &[u8], len: usize) -> &[u8]
    ensures { result.now ≡ take len s.now }
{
    &s[..len.min(s.len())]
}

// The bytes from a place on and up to another, or all where these are no places of the slice.
#[tactic(auto, unfolding(crate::specs::Text::between))]
pub fn between(s: &[u8], from: usize, to: usize) -> &[u8]
    ensures { result.now ≡ between s.now from to }
{
    s.get(from..to).unwrap_or(s)
}

// How many bytes stand before the first such byte; all where there is none.
fn len_before(s: &[u8], byte: u8) -> usize
    ensures within { result ≤ length s.now }
    ensures before { (k : ℕ) → k < result → slice_index s.now k ≢ byte }
    ensures found { result < length s.now → slice_index s.now result ≡ byte }
{
    s.iter().position(|b| *b == byte).unwrap_or(s.len())
}

// The first place of a byte from a place on; the length where there is none, and the place itself where it is past the end. No `Option`: what is asked
// for is where a part ends.
pub fn find(s: &[u8], from: usize, byte: u8) -> usize
    ensures value { result ≡ first_place s.now from byte }
    ensures lower_bound { (from ≤ result) × (result ≤ max from (length s.now)) }
{
    from + len_before(&s[from.min(s.len())..], byte)
}
