// A line's call is made and its answer printed: the call, number and value, for read the openings, whether the image changed and its checksum;
// the same of the output where the call has one.
use crate::IMAGE_ROOM;
use crate::call::{Answer, Line, Word};
use cases::line::end_line;
use std::io;
use text::checksum::checksum;
use text::line::{put_filled, put_words};
use text::part::{between, find, front, least};
use validity::proof::Proof;

// What every byte of the output is before a call.
const UNTOUCHED: u8 = 0xA5;

// Room for a printed line, which stays without what it has no room for.
pub const LINE_ROOM: usize = 256;

// The checksums of the image, and of the output of a call that has one.
#[derive(Clone, Copy)]
struct Sums {
    image: u32,
    out: Option<u32>,
}

impl Sums {
    fn of(word: Word, image: &[u8], out: &[u8]) -> Self {
        Sums {
            image: checksum(image),
            out: word.has_output().then(|| checksum(out)),
        }
    }
}

// Puts into a line whether a buffer changed, and its checksum now.
fn put_sum(line: &mut [u8], at: usize, before: u32, now: u32) -> usize {
    if before == now {
        put_filled(line, at, b" kept#", &[now])
    } else {
        put_filled(line, at, b" changed#", &[now])
    }
}

// The same of the image, and of the output where the call has one.
fn put_sums(line: &mut [u8], at: usize, before: Sums, now: Sums) -> usize {
    let end = put_sum(line, at, before.image, now.image);
    match (before.out, now.out) {
        (Some(before), Some(now)) => put_sum(line, end, before, now),
        _ => end,
    }
}

// Puts number and value into a line, and for read the openings.
fn put_figures(line: &mut [u8], at: usize, shown: Answer) -> usize {
    match shown {
        Answer::Plain(f) => put_filled(line, at, b"=##", &[f.number, f.value]),
        Answer::Read(f) => put_filled(line, at, b"=###", &[f.number, f.value, f.openings]),
    }
}

fn print_answer(
    rt: &impl Print,
    text: &[u8],
    shown: Answer,
    before: Sums,
    now: Sums,
) -> io::Result<()> {
    let mut line = [0u8; LINE_ROOM];
    let mut end = put_words(&mut line, 0, between(text, 0, find(text, 0, b'=')));
    end = put_figures(&mut line, end, shown);
    end = put_sums(&mut line, end, before, now);
    end = end_line(&mut line, end);
    rt.write_all(front(&line, end))
}

// The call gets the first bytes of the image's buffer.
fn print_call(
    rt: &impl Print,
    text: &[u8],
    lent: usize,
    image: &mut [u8],
    out: &mut [u8],
) -> io::Result<()> {
    let line = Line::of(text);
    let before = Sums::of(line.word, image, out);
    let end = least(lent, image.len());
    let shown = line.made(&mut image[..end], out);
    let now = Sums::of(line.word, image, out);
    print_answer(rt, text, shown, before, now)
}

pub(crate) fn print(rt: &impl Print, text: &[u8], lent: usize, image: &mut [u8]) -> io::Result<()> {
    let mut out = [UNTOUCHED; Proof::MAX_LEN];
    print_call(rt, text, lent, image, &mut out)
}

// Every call but start and close, each of which the image of the table's damaged cases would take if it were sound.
const EACH: [&[u8]; 7] = [
    b"open 6 104 104 1 ",
    b"tick 8 20 ",
    b"inc 8 20 7 104 1 ",
    b"read 7 ",
    b"prove 8 20 7 57404 ",
    b"last 7 104 57404 ",
    b"confirm 7 104 104 1 ",
];

// Those calls, and close before them, which is made on a copy, since the others ask for the counter that it takes out.
pub(crate) fn print_each(
    rt: &impl Print,
    lent: usize,
    image: &mut [u8; IMAGE_ROOM],
) -> io::Result<()> {
    let mut copy = *image;
    print(rt, b"close 7 104 104 1 ", lent, &mut copy)?;
    for text in EACH {
        print(rt, text, lent, image)?;
    }
    Ok(())
}
