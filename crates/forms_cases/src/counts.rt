// Walks over the counts of entries, and what a counter finds among requests, joined.
use crate::out::Out;
use crate::sample;
use forms::entry::{Head, entry_len};
use forms::log::{WalkError, Walked, walk};
use forms::number::put_u32;
use forms::request::Request;
use forms::requests::{find, names, names_twice};
use forms::terms::CounterId;
use text::part::front;

// The figures before those of the entries, and of the requests.
const HEAD: usize = 3;

const LOG_ROOM: usize = 1024;

const REQUESTS_ROOM: usize = 224;

// The first figures, 0 for each that is not given, and those behind them.
fn parts(figures: &[u32]) -> ([u32; HEAD], &[u32]) {
    let mut head = [0u32; HEAD];
    for (figure, given) in head.iter_mut().zip(figures) {
        *figure = *given;
    }
    (head, figures.get(HEAD..).unwrap_or(&[]))
}

// Stores the counts of entries that follow each other from a place on.
fn put_counts(log: &mut [u8], from: usize, counts: &[u32]) {
    let mut at = from;
    for count in counts {
        if log.len() <= at {
            return;
        }
        put_u32(log, at + Head::COUNT, *count);
        at += entry_len(count % 256);
    }
}

fn put_walked(out: &mut Out, walked: Walked) {
    match walked {
        Ok(end) => {
            // An offset past the bytes may have more than the 16 bits that are printed.
            let offset = (end.offset % 65536) as u32;
            out.filled(b" 0##\n", &[offset, end.units]);
        }
        Err(WalkError::TooMany) => out.words(b" 4\n"),
        Err(WalkError::Cut) => out.words(b" 5\n"),
    }
}

// `visit lent from entries count ..`: so many bytes, from a place on, and so many entries.
pub(crate) fn walked(out: &mut Out, figures: &[u32]) {
    let ([lent, from, count], counts) = parts(figures);
    let mut log = [0u8; LOG_ROOM];
    put_counts(&mut log, from as usize, counts);
    let lent = front(&log, lent as usize);
    put_walked(out, walk(lent, from as usize, count));
}

// Stores a request of each of the counters.
fn put_requests(requests: &mut [u8], ids: &[u32]) {
    for (index, id) in (0u8..).zip(ids) {
        let request = Request::new(sample::nonce(index), CounterId(*id), u32::from(index));
        request.write(requests, Request::LEN * usize::from(index));
    }
}

// `among lent requests counter counter ..`: so many bytes, so many requests, and the counter that is looked for.
pub(crate) fn among(out: &mut Out, figures: &[u32]) {
    let ([lent, count, id], ids) = parts(figures);
    let mut requests = [0u8; REQUESTS_ROOM];
    put_requests(&mut requests, ids);
    let lent = front(&requests, lent as usize);
    let id = CounterId(id);
    out.figure(find(lent, 0, count, id));
    out.verdict(names(lent, 0, count, id));
    out.verdict(names_twice(lent, 0, count));
    out.words(b"\n");
}
