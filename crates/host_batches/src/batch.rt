// Batches from a line's figures, of each request the nonce byte, the counter, the value before and the owner's verdict; and many of them.
use forms::entry::Head;
use forms::nonce::LEN;
use forms::request::Request;
use forms::terms::CounterId;
use host::answer::BatchFigures;
use host::increment::increment;
use text::part::front;

// The figures of a request.
pub const FIGURES: usize = 4;

// Room for one request more than a batch may have.
pub const ROOM: usize = 9;

const REQUESTS_ROOM: usize = Request::LEN * ROOM;

// The most requests of a batch that the host takes.
const SHARED: usize = Head::MAX_COUNT as usize;

fn put_request(request: &mut [u8], byte: u32, id: u32, before: u32) {
    let nonce = [(byte % 256) as u8; LEN];
    Request::new(nonce, CounterId(id), before).write(request, 0);
}

// Stores the requests that figures stand for, joined, and their verdicts.
fn put_batch(figures: &[u32], requests: &mut [u8], verdicts: &mut [u8]) {
    let places = requests
        .chunks_exact_mut(Request::LEN)
        .zip(verdicts.iter_mut());
    for (given, (request, verdict)) in figures.chunks_exact(FIGURES).zip(places) {
        put_request(request, given[0], given[1], given[2]);
        *verdict = (given[3] % 256) as u8;
    }
}

// increment with so many bytes of the requests that figures stand for, and so many of their verdicts.
pub(crate) fn batched(image: &mut [u8], figures: &[u32], len: usize, count: usize) -> BatchFigures {
    let mut requests = [0u8; REQUESTS_ROOM];
    let mut verdicts = [0u8; ROOM];
    put_batch(figures, &mut requests, &mut verdicts);
    increment(image, front(&requests, len), front(&verdicts, count)).into()
}

// One request of a counter.
fn raised(image: &mut [u8], place: u32, id: u32, before: u32) -> BatchFigures {
    let figures = [place, id, before, 1];
    batched(image, &figures, Request::LEN, 1)
}

// One request of each of the counters 1 to 8.
fn shared(image: &mut [u8], place: u32, before: u32) -> BatchFigures {
    let mut requests = [0u8; SHARED * Request::LEN];
    for (request, id) in requests.chunks_exact_mut(Request::LEN).zip(1u32..) {
        put_request(request, place, id, before);
    }
    increment(image, &requests, &[1u8; SHARED]).into()
}

// What is answered where nothing is put.
fn none() -> BatchFigures {
    BatchFigures {
        number: 0,
        value: 0,
        numbers: [0u32; SHARED],
    }
}

// So many batches, of the counter or, where it is 0, of the counters 1 to 8. The k-th, from 1, has nonce byte k modulo 256 and value before + k. The
// answer is the last one's.
pub(crate) fn repeated(image: &mut [u8], count: u32, id: u32, before: u32) -> BatchFigures {
    let mut answer = none();
    for place in 1..=count {
        let value = before.wrapping_add(place);
        answer = if id == 0 {
            shared(image, place, value)
        } else {
            raised(image, place, id, value)
        };
    }
    answer
}
