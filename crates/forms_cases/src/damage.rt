// Copies of a valid proof with one entry under another header, and the number with which reading refuses them.
use crate::out::Out;
use crate::sample;
use crate::table::FIGURES;
use forms::log::LogEnd;
use forms::number::{put_u16, put_u32};
use text::part::front;
use validity::proof::{parse, parse_number};
use validity::writing::write;

// Stores the valid proof.
pub(crate) fn put_valid(kind: u32, entries: &[u8], bytes: &mut [u8]) {
    let _ = write(
        kind,
        sample::confirmation(),
        sample::certificate(),
        1,
        front(entries, LogEnd::UNIT_LEN),
        bytes,
    );
}

// Puts the number for the bytes.
pub(crate) fn put_number(out: &mut Out, bytes: &[u8]) {
    out.figure(parse_number(parse(bytes)));
}

// `read form kind length confirmation certificate log entries lent valid at number`: the valid proof of the last kind under a header of the first
// seven figures, of which so many bytes are lent, and four bytes that are changed behind the header.
pub(crate) fn case(out: &mut Out, figures: &[u32; FIGURES], entries: &[u8]) {
    let [
        form,
        kind,
        len,
        confirmation,
        certificate,
        log,
        count,
        lent,
        valid,
        at,
        number,
    ] = *figures;
    let mut bytes = [sample::UNTOUCHED; sample::OUTPUT_LEN];
    put_valid(valid, entries, &mut bytes);
    put_u32(&mut bytes, at as usize, number);
    put_u16(&mut bytes, 0, form);
    put_u16(&mut bytes, 2, kind);
    for (i, word) in [len, confirmation, certificate, log, count]
        .iter()
        .enumerate()
    {
        put_u32(&mut bytes, 4 + 4 * i, *word);
    }
    put_number(out, front(&bytes, lent as usize));
    out.words(b"\n");
}
