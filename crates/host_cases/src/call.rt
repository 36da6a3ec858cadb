// What a line asks for by its word and figures, and the answer of its call.
use crate::many;
use cases::call::Call;
use cases::line::read_line;
use cases::table::Change;
use forms::nonce::LEN;
use forms::number::put_u32;
use forms::request::Request;
use forms::terms::CounterId;
use host::answer::{Batch, Figures, ReadFigures};
use host::increment::increment;
use host::read::read;
use text::part::{front, least};

const FIGURES: usize = 5;

// Room for a request with a nonce that is one byte too long, and that nonce's length.
const REQUEST_ROOM: usize = Request::LEN + 1;

const NONCE_ROOM: usize = LEN + 1;

// A call, all of them but start, a change of the image or of what is lent of it, or something else.
#[derive(Clone, Copy)]
pub enum Word {
    Call(Call),
    Inc,
    Read,
    Fill,
    Hold,
    Around,
    Each,
    Change(Change),
    Byte,
    Other,
}

impl Word {
    fn of(line: &[u8]) -> Self {
        if let Some(call) = Call::of(line) {
            return Word::Call(call);
        }
        if let Some(change) = Change::of(line) {
            return Word::Change(change);
        }
        match line {
            [b'i', ..] => Word::Inc,
            [b'r', ..] => Word::Read,
            [b'f', ..] => Word::Fill,
            [b'h', ..] => Word::Hold,
            [b'a', ..] => Word::Around,
            [b'e', ..] => Word::Each,
            [b'b', ..] => Word::Byte,
            _ => Word::Other,
        }
    }

    // Whether the call writes into an output.
    pub(crate) fn has_output(self) -> bool {
        matches!(self, Word::Call(Call::Prove | Call::Last))
    }
}

// A line's word, and its figures in order, 0 where there is none.
#[derive(Clone, Copy)]
pub struct Line {
    pub word: Word,
    pub figures: [u32; FIGURES],
}

// What a call answers: number and value, and read with the openings.
#[derive(Clone, Copy)]
pub enum Answer {
    Plain(Figures),
    Read(ReadFigures),
}

impl Line {
    pub(crate) fn of(text: &[u8]) -> Self {
        let mut figures = [0u32; FIGURES];
        read_line(text, &mut figures);
        Line {
            word: Word::of(text),
            figures,
        }
    }

    // A batch of one, whose bytes are no request where the nonce has another length.
    fn incremented(self, image: &mut [u8]) -> Figures {
        let [byte, len, id, before, verdict] = self.figures;
        let len = least(len as usize, NONCE_ROOM);
        let mut request = [(byte % 256) as u8; REQUEST_ROOM];
        put_u32(&mut request, len, id);
        put_u32(&mut request, len + 4, before);
        let verdicts = [(verdict % 256) as u8];
        increment(image, front(&request, len + 8), &verdicts)
            .and_then(Batch::of_one)
            .into()
    }

    // The answer of a line's call: of those that the tables share, of `inc byte length id before verdict`, of `read id`, and of those of many.rt.
    pub(crate) fn made(self, image: &mut [u8], out: &mut [u8]) -> Answer {
        let [first, second, third, fourth, _] = self.figures;
        match self.word {
            Word::Call(call) => {
                let figures = [first, second, third, fourth];
                Answer::Plain(call.made(figures, image, out))
            }
            Word::Inc => Answer::Plain(self.incremented(image)),
            Word::Read => Answer::Read(read(image, CounterId(first)).into()),
            _ => Answer::Plain(many::made(image, self)),
        }
    }
}
