// The cases as lines of text: the label and a colon; the figures of the case, in the order of `Case`, the last one left out where it is not given,
// and behind them the place and the number of each change; the verdicts as digits in brackets; and for each entry of the log its reading and
// count, and for each request its nonce byte, counter and value before.
use crate::answer::answer;
use crate::case::{Case, NOT_GIVEN, ROOM};
use std::io;
use text::figures::read_figures;
use text::part::{between, find};

// Room for the figures of a log.
const LOG_ROOM: usize = 128;

fn row(rt: &impl Print, line: &[u8]) -> io::Result<()> {
    let colon = find(line, 0, b':');
    let open = find(line, colon, b'[');
    let close = find(line, open, b']');
    let mut figures = [NOT_GIVEN; ROOM];
    let given = read_figures(between(line, colon + 1, open), &mut figures);
    let mut log = [0u32; LOG_ROOM];
    let count = read_figures(between(line, close + 1, line.len()), &mut log);
    answer(
        rt,
        between(line, 0, colon),
        Case::new(&figures, given),
        &log[..count.min(LOG_ROOM)],
        between(line, open + 1, close),
    )
}

pub(crate) fn run(rt: &impl Print, text: &[u8]) -> io::Result<()> {
    for line in text.split_inclusive(|byte| *byte == b'\n') {
        row(rt, line.strip_suffix(b"\n").unwrap_or(line))?;
    }
    Ok(())
}
