// A valid proof with one entry, damaged at each byte or cut at each length, and the numbers with which reading refuses it.
use crate::damage::{put_number, put_valid};
use crate::out::Out;
use crate::sample;
use crate::table::FIGURES;
use text::part::front;

// `bytes kind length`: the valid proof of the kind, in which each byte in turn is one more.
pub(crate) fn bytes(out: &mut Out, figures: &[u32; FIGURES], entries: &[u8]) {
    let [kind, len, ..] = *figures;
    let mut proof = [sample::UNTOUCHED; sample::OUTPUT_LEN];
    put_valid(kind, entries, &mut proof);
    let len = sample::OUTPUT_LEN.min(len as usize);
    for place in 0..len {
        let byte = proof[place];
        proof[place] = byte.wrapping_add(1);
        put_number(out, &proof[..len]);
        proof[place] = byte;
    }
    out.words(b"\n");
}

// `lengths kind end`: the first bytes of the valid proof of the kind and of what stands behind it, as many as 0, 1, 2 and so on, fewer than some.
pub(crate) fn lengths(out: &mut Out, figures: &[u32; FIGURES], entries: &[u8]) {
    let [kind, end, ..] = *figures;
    let mut proof = [sample::UNTOUCHED; sample::OUTPUT_LEN];
    put_valid(kind, entries, &mut proof);
    for len in 0..end {
        put_number(out, front(&proof, len as usize));
    }
    out.words(b"\n");
}
