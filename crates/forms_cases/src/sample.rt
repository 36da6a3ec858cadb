// The fields that the cases write. Neighbouring bytes differ, so that a byte out of its place shows.
use forms::certificate::Certificate;
use forms::confirmation::Confirmation;
use forms::entry::{Head, entry_len};
use forms::log::LogEnd;
use forms::nonce::{LEN, Nonce};
use forms::request::Request;
use forms::terms::{CounterId, GlobalClock};
use validity::proof::Proof;

// Entries of one request, and ticks: one more than a proof may have.
const SINGLES: u32 = Proof::MAX_UNITS + 1;

// Entries of as many requests as there may be: one more than a proof may have.
const SHARED: u32 = Proof::MAX_UNITS / Head::MAX_COUNT + 1;

// Room for all entries.
pub const ENTRIES_ROOM: usize = 81732;

// Room for the longest proof and an entry of one request more.
pub const OUTPUT_LEN: usize = Proof::MAX_LEN + LogEnd::UNIT_LEN;

// What an output holds before.
pub const UNTOUCHED: u8 = 0xA5;

const READING: u32 = 0x090A0B0C;

pub const CERTIFICATE_SEED: u8 = 0xF8;

pub(crate) fn confirmation() -> Confirmation {
    Confirmation::new(CounterId(0x01020304), 0x05060708, GlobalClock(READING))
}

pub(crate) fn certificate() -> Certificate {
    Certificate::new(GlobalClock(0x0D0E0F10), nonce(CERTIFICATE_SEED))
}

// Twenty bytes that count up from the seed, with 0 behind 255.
pub(crate) fn nonce(seed: u8) -> Nonce {
    let mut nonce = [seed; LEN];
    for (byte, place) in nonce.iter_mut().zip(0..) {
        *byte = seed.wrapping_add(place);
    }
    nonce
}

// The same nonce but for its last byte.
pub(crate) fn other(seed: u8) -> Nonce {
    let mut other = nonce(seed);
    other[LEN - 1] = seed;
    other
}

// The seeds of an entry's nonce and of its requests' nonces, by the entry's place among those of its sort, from 0, and the request's index.

pub(crate) fn entry_seed(place: u32) -> u8 {
    (place.wrapping_add(128) % 256) as u8
}

pub(crate) fn request_seed(place: u32, index: u32) -> u8 {
    (place.wrapping_add(index.wrapping_mul(16)) % 256) as u8
}

fn put_head(entry: &mut [u8], place: u32, reading: u32, count: u32) {
    Head::new(GlobalClock(reading), count, nonce(entry_seed(place))).write(entry, 0);
}

// Stores the request at an index behind the head of an entry.
fn put_request(entry: &mut [u8], place: u32, index: u32, id: u32, before: u32) {
    let request = Request::new(nonce(request_seed(place, index)), CounterId(id), before);
    request.write(entry, entry_len(index));
}

// Stores the entry of a place with so many requests.
fn put_entry(entry: &mut [u8], place: u32, count: u32) {
    put_head(entry, place, place.wrapping_add(READING + 1), count);
    let before = place.wrapping_add(0x21222324);
    for index in 0..count {
        put_request(entry, place, index, index.wrapping_add(0x11121314), before);
    }
}

// How the requests of entries are counted.
#[derive(Clone, Copy)]
enum Sort {
    // Every third increment, from the second on, is a tick; the others have one request.
    Singles,
    // Eight each.
    Shared,
    // None in the first, one in the second, and so on.
    Rising,
}

impl Sort {
    fn count(self, place: u32) -> u32 {
        match self {
            Sort::Singles if place % 3 == 1 => 0,
            Sort::Singles => 1,
            Sort::Shared => Head::MAX_COUNT,
            Sort::Rising => place % 9,
        }
    }
}

// Stores so many entries of a sort from an offset on, and answers the offset behind them.
fn put_sort(entries: &mut [u8], from: usize, sort: Sort, entry_count: u32) -> usize {
    let mut at = from;
    for place in 0..entry_count {
        let Some(entry) = entries.get_mut(at..) else {
            return at;
        };
        let count = sort.count(place);
        put_entry(entry, place, count);
        at += entry_len(count);
    }
    at
}

// Stores two whose readings do not follow a confirmation's: 0, with two requests of no counter, and then the largest.
fn put_misread(entries: &mut [u8], at: usize) {
    let Some(first) = entries.get_mut(at..) else {
        return;
    };
    put_head(first, 0, 0, 2);
    put_request(first, 0, 0, 0, 5);
    put_request(first, 0, 1, 0, 5);
    let Some(second) = first.get_mut(entry_len(2)..) else {
        return;
    };
    put_head(second, 1, u32::MAX, 1);
    put_request(second, 1, 0, u32::MAX, u32::MAX);
}

// Stores all entries.
pub(crate) fn fill(entries: &mut [u8]) {
    let singles = put_sort(entries, 0, Sort::Singles, SINGLES);
    let shared = put_sort(entries, singles, Sort::Shared, SHARED);
    let rising = put_sort(entries, shared, Sort::Rising, 9);
    put_misread(entries, rising);
}
