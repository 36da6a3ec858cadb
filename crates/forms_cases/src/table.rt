// The table of cases. A case is a line with a word that says what is tried, and figures in the order that the function for it names, up to an equals
// sign, behind which stands what is expected. What is printed before its answer stands in the last line above that begins with `>`: words, with
// `#` for each figure in order; figures that are left over are not printed. Every other line is passed over: an empty one, and one behind `#`, which
// says what the lines below it try.
use crate::out::Out;
use crate::{counts, damage, nonces, refusal, roundtrip, sweep};
use std::io;
use text::figures::read_figures;
use text::part::{between, find};

// The most figures of a line. One that is not given is 0.
pub const FIGURES: usize = 11;

// Room for what a case prints.
const TEXT: usize = 4096;

// So many of the bytes from a place on; none where they are not there.
pub(crate) fn part(s: &[u8], place: u32, len: u32) -> &[u8] {
    let from = place as usize;
    s.get(from..from + len as usize).unwrap_or(&[])
}

// Stores the figures of a case, and answers how many there are. A space stands behind the last.
fn read(line: &[u8], figures: &mut [u32]) -> usize {
    let space = find(line, 0, b' ');
    read_figures(between(line, space, find(line, space, b'=')), figures).saturating_sub(1)
}

// A word is known by its first letter. One that is none of these shows in the output: it has words and no answer.
fn put_case(out: &mut Out, word: u8, figures: &[u32; FIGURES], given: &[u32], entries: &[u8]) {
    match word {
        b'w' => roundtrip::case(out, figures, entries),
        b'g' => refusal::case(out, figures, entries),
        b'r' => damage::case(out, figures, entries),
        b'b' => sweep::bytes(out, figures, entries),
        b'l' => sweep::lengths(out, figures, entries),
        b'v' => counts::walked(out, given),
        b'a' => counts::among(out, given),
        b'n' => nonces::case(out, figures, entries),
        _ => {}
    }
}

// Prints the words with the figures of a line in them, and runs the line's case.
fn row(rt: &impl Print, words: &[u8], line: &[u8], entries: &[u8]) -> io::Result<()> {
    let Some(&word @ b'a'..) = line.first() else {
        return Ok(());
    };
    let mut figures = [0u32; FIGURES];
    let count = read(line, &mut figures).min(FIGURES);
    let given = &figures[..count];
    let mut text = [0u8; TEXT];
    let mut out = Out::new(&mut text);
    out.filled(between(words, 2, words.len()), given);
    put_case(&mut out, word, &figures, given, entries);
    rt.write_all(out.written())
}

pub(crate) fn run(rt: &impl Print, text: &[u8], entries: &[u8]) -> io::Result<()> {
    let mut words = between(text, 0, find(text, 0, b'\n'));
    for line in text.split(|byte| *byte == b'\n') {
        if line.starts_with(b">") {
            words = line;
        }
        row(rt, words, line, entries)?;
    }
    Ok(())
}
