// The clock certificate's nonce in the valid proof, compared with the one that it was written with: as it is, and with each byte changed in turn.
use crate::damage::put_valid;
use crate::out::Out;
use crate::sample;
use crate::table::FIGURES;
use forms::nonce::{LEN, agree};
use text::part::front;

// `nonces place proof wanted amount`: the place, how many bytes are lent of the proof and of the wanted nonce, and what a changed byte is more.
pub(crate) fn case(out: &mut Out, figures: &[u32; FIGURES], entries: &[u8]) {
    let [place, proof_len, wanted_len, amount, ..] = *figures;
    let mut bytes = [sample::UNTOUCHED; sample::OUTPUT_LEN];
    put_valid(1, entries, &mut bytes);
    let proof = front(&bytes, proof_len as usize);
    // The wanted nonce, and a byte behind it.
    let mut wanted = [sample::UNTOUCHED; LEN + 1];
    wanted[..LEN].copy_from_slice(&sample::nonce(sample::CERTIFICATE_SEED));
    let agrees = |wanted: &[u8]| agree(proof, place as usize, front(wanted, wanted_len as usize));
    out.verdict(agrees(&wanted));
    for i in 0..LEN {
        let byte = wanted[i];
        wanted[i] = byte.wrapping_add((amount % 256) as u8);
        out.verdict(agrees(&wanted));
        wanted[i] = byte;
    }
    out.words(b"\n");
}
