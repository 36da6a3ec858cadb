// Fields that writing refuses, and the output that it keeps; and outputs that the proof just fits.
use crate::out::Out;
use crate::sample;
use crate::table::{FIGURES, part};
use forms::bytes::put;
use forms::number::put_u32;
use text::checksum::checksum;
use validity::writing::{write, write_number};

// `given kind entries place bytes room at number`: the place and the number of the entries' bytes, an output of so many, and four bytes of the
// entries that are changed, none where they are the first. Puts number and value, and the output before and after.
pub(crate) fn case(out: &mut Out, figures: &[u32; FIGURES], entries: &[u8]) {
    let [kind, count, place, len, room, at, number, ..] = *figures;
    let mut copy = [0u8; sample::ENTRIES_ROOM];
    put(&mut copy, 0, entries);
    if at != 0 {
        put_u32(&mut copy, place as usize + at as usize, number);
    }
    let mut bytes = [sample::UNTOUCHED; sample::OUTPUT_LEN];
    let proof = &mut bytes[..sample::OUTPUT_LEN.min(room as usize)];
    let before = checksum(proof);
    let written = write(
        kind,
        sample::confirmation(),
        sample::certificate(),
        count,
        part(&copy, place, len),
        proof,
    );
    let figures = [
        write_number(written),
        written.unwrap_or(0),
        before,
        checksum(proof),
    ];
    out.filled(b"####\n", &figures);
}
