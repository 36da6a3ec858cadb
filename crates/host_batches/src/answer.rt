// A line's call is made and its answer printed: the call, the figures of the answer and the CRC-32 of the image; where a proof was written its CRC-32
// and the desk's five figures for it.
use crate::call::{Answer, Line, Word};
use crate::crc::{crc32, put_hex};
use crate::judge;
use cases::call::Call;
use cases::line::end_line;
use std::io;
use text::line::{put_filled, put_words};
use text::part::{between, find, front, least};
use validity::proof::Proof;

// Room for a printed line, which stays without what it has no room for.
pub const LINE_ROOM: usize = 512;

// Number and value; for read the openings, and for a batch each request's own number.
fn put_figures(line: &mut [u8], at: usize, shown: Answer) -> usize {
    match shown {
        Answer::Plain(f) => put_filled(line, at, b"=##", &[f.number, f.value]),
        Answer::Read(f) => put_filled(line, at, b"=###", &[f.number, f.value, f.openings]),
        Answer::Batch(f) => {
            let end = put_filled(line, at, b"=##", &[f.number, f.value]);
            put_filled(line, end, b"########", &f.numbers)
        }
    }
}

fn put_crc(line: &mut [u8], at: usize, words: &[u8], s: &[u8]) -> usize {
    let end = put_words(line, at, words);
    put_hex(line, end, crc32(s))
}

// The proof that a call wrote, with nothing in it where there is none.
fn written(word: Word, shown: Answer, out: &[u8]) -> &[u8] {
    match word {
        Word::Call(Call::Prove | Call::Last) => front(out, shown.value() as usize),
        _ => &[],
    }
}

fn put_proof(line: &mut [u8], at: usize, asked: Line, len: u32, proof: &[u8]) -> usize {
    if proof.is_empty() {
        return at;
    }
    let end = put_crc(line, at, b" proof ", proof);
    let shown = judge::answer(asked, len, proof);
    let figures = [
        shown.number,
        shown.value,
        shown.closing,
        shown.place,
        shown.openings,
    ];
    put_filled(line, end, b" desk#####", &figures)
}

fn print_answer(
    rt: &impl Print,
    text: &[u8],
    asked: Line,
    shown: Answer,
    image: &[u8],
    out: &[u8],
) -> io::Result<()> {
    let mut line = [0u8; LINE_ROOM];
    let proof = written(asked.word, shown, out);
    let mut end = put_words(&mut line, 0, between(text, 0, find(text, 0, b'=')));
    end = put_figures(&mut line, end, shown);
    end = put_crc(&mut line, end, b" image ", image);
    end = put_proof(&mut line, end, asked, shown.value(), proof);
    end = end_line(&mut line, end);
    rt.write_all(front(&line, end))
}

// The call gets the first bytes of the image. `host_cases` has the like; it prints checksums from before the call too.
fn print_call(
    rt: &impl Print,
    text: &[u8],
    lent: usize,
    image: &mut [u8],
    out: &mut [u8],
) -> io::Result<()> {
    let asked = Line::of(text);
    let end = least(lent, image.len());
    let shown = asked.made(&mut image[..end], out);
    print_answer(rt, text, asked, shown, image, out)
}

pub(crate) fn print(rt: &impl Print, text: &[u8], lent: usize, image: &mut [u8]) -> io::Result<()> {
    let mut out = [0u8; Proof::MAX_LEN];
    print_call(rt, text, lent, image, &mut out)
}
