// Many calls of one kind; the answer is the last one's. `fill count`: ticks, the nonce bytes counting from 0. `hold count id reading`: opens
// counters from an id on, all at one reading. `around count`: increments of the counters 1 to 64 in turn, the nonce bytes
// counting from 0.
use crate::call::{Line, Word};
use forms::confirmation::Confirmation;
use forms::image::Image;
use forms::nonce::LEN;
use forms::request::Request;
use forms::terms::{CounterId, GlobalClock};
use host::answer::{Batch, Figures};
use host::increment::increment;
use host::open::open;
use host::read::read;
use host::tick::tick;

// What is answered, and printed, where no call is made.
fn none() -> Figures {
    Figures {
        number: 0,
        value: 0,
    }
}

fn ticked(image: &mut [u8], place: u32) -> Figures {
    let nonce = [(place % 256) as u8; LEN];
    tick(image, &nonce).into()
}

fn opened(image: &mut [u8], id: u32, reading: u32) -> Figures {
    let confirmation = Confirmation::new(CounterId(id), reading, GlobalClock(reading));
    open(image, confirmation, 1).into()
}

// The current value is the value before.
fn incremented(image: &mut [u8], place: u32) -> Figures {
    let id = CounterId(1 + place % Image::MAX_COUNTERS);
    let before = read(image, id).map_or(0, |running| running.value);
    let mut request = [0u8; Request::LEN];
    Request::new([(place % 256) as u8; LEN], id, before).write(&mut request, 0);
    increment(image, &request, &[1u8])
        .and_then(Batch::of_one)
        .into()
}

fn one(image: &mut [u8], line: Line, place: u32) -> Figures {
    let [_, id, reading, ..] = line.figures;
    match line.word {
        Word::Fill => ticked(image, place),
        Word::Hold => opened(image, id % 65536 + place % 65536, reading),
        _ => incremented(image, place),
    }
}

pub(crate) fn made(image: &mut [u8], line: Line) -> Figures {
    let [count, ..] = line.figures;
    let mut answer = none();
    for place in 0..count {
        answer = one(image, line, place);
    }
    answer
}
