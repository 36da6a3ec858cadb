// A block of a message: its schedule and the 80 rounds over it.
ghost use Rattle.std.specs.Prelude.{◌≡◌, ◌+◌, ◌<◌, ◌≤◌};
ghost use Rattle.forms.specs.Number.{words};
ghost use Rattle.digest.specs.Laws.BlockLaws.{Done};
ghost use Rattle.digest.specs.Sha1.{compressed, next_word, round};

use crate::word::{constant, logical};
use forms::number::get_u32;

pub(crate) const BLOCK: usize = 64;

// A hash value; in the rounds, the working variables.
#[derive(Clone, Copy)]
pub struct Hash {
    pub a: u32,
    pub b: u32,
    pub c: u32,
    pub d: u32,
    pub e: u32,
}

// Round t, with its word of the schedule.
#[tactic(auto, unfolding(crate::specs::Sha1::rotl, crate::specs::Sha1::round))]
fn round(v: Hash, t: usize, word: u32) -> Hash
    ensures { result ≡ round t word v }
{
    let Hash { a, b, c, d, e } = v;
    let sum = a
        .rotate_left(5)
        .wrapping_add(logical(t, b, c, d))
        .wrapping_add(e)
        .wrapping_add(constant(t))
        .wrapping_add(word);
    Hash {
        a: sum,
        b: a,
        c: b.rotate_left(30),
        d: c,
        e: d,
    }
}

// The word of the schedule behind those before it.
#[tactic(auto, unfolding(crate::specs::Sha1::next_word, crate::specs::Sha1::rotl))]
fn next_word(w: &[u32; 80], t: usize) -> u32
    requires { (16 ≤ t) × (t < 80) }
    ensures { result ≡ next_word w.now t }
{
    (w[t - 3] ^ w[t - 8] ^ w[t - 14] ^ w[t - 16]).rotate_left(1)
}

// Round t, with the block's own word or the next one.
fn next_round(v: Hash, w: &mut [u32; 80], block: &[u8; BLOCK], t: usize) -> Hash
    requires { t < 80 }
    ensures { (h : Hash) → Done (words 16 block.now 0) h t v w.old
        → Done (words 16 block.now 0) h (t + 1) result w.new }
{
    let word = if t < 16 {
        get_u32(block, 4 * t)
    } else {
        next_word(w, t)
    };
    w[t] = word;
    round(v, t, word)
}

// Twenty rounds, four a turn and for each twenty a code of its own: of a loop that turns once a round the compiler makes code that takes a third longer.
fn twenty_rounds<const FROM: usize>(u: Hash, w: &mut [u32; 80], block: &[u8; BLOCK]) -> Hash
    requires { FROM + 20 ≤ 80 }
    ensures { (h : Hash) → Done (words 16 block.now 0) h FROM u w.old
        → Done (words 16 block.now 0) h (FROM + 20) result w.new }
{
    let mut v = u;
    for i in 0..5 {
        let t = FROM + 4 * i;
        v = next_round(v, w, block, t);
        v = next_round(v, w, block, t + 1);
        v = next_round(v, w, block, t + 2);
        v = next_round(v, w, block, t + 3);
    }
    v
}

// The hash value behind a block.
pub(crate) fn compressed(h: Hash, block: &[u8; BLOCK]) -> Hash
    ensures { result ≡ compressed h (words 16 block.now 0) }
{
    let mut w = [0u32; 80];
    let v20 = twenty_rounds::<0>(h, &mut w, block);
    let v40 = twenty_rounds::<20>(v20, &mut w, block);
    let v60 = twenty_rounds::<40>(v40, &mut w, block);
    let v = twenty_rounds::<60>(v60, &mut w, block);
    Hash {
        a: v.a.wrapping_add(h.a),
        b: v.b.wrapping_add(h.b),
        c: v.c.wrapping_add(h.c),
        d: v.d.wrapping_add(h.d),
        e: v.e.wrapping_add(h.e),
    }
}
