// What a line asks for by its word and figures, and the answer of its call.
use crate::batch;
use crate::batch::{batched, repeated};
use cases::call::Call;
use cases::line::read_line;
use cases::table::Change;
use forms::request::Request;
use forms::terms::CounterId;
use host::answer::{BatchFigures, Figures, ReadFigures};
use host::read::read;

// Room for the figures of a line: two, and those of a batch.
pub const FIGURES: usize = 2 + batch::FIGURES * batch::ROOM;

// A call, a change of the image or of what is lent of it, or something else.
#[derive(Clone, Copy)]
pub enum Word {
    Call(Call),
    Read,
    Batch,
    Joined,
    Again,
    Change(Change),
    Zero,
    Other,
}

impl Word {
    fn of(line: &[u8]) -> Self {
        if let Some(call) = Call::of(line) {
            return Word::Call(call);
        }
        if let Some(change) = Change::of(line) {
            return Word::Change(change);
        }
        match line {
            [b'r', ..] => Word::Read,
            [b'b', ..] => Word::Batch,
            [b'j', ..] => Word::Joined,
            [b'a', ..] => Word::Again,
            [b'x', ..] => Word::Call(Call::Close),
            [b'z', ..] => Word::Zero,
            _ => Word::Other,
        }
    }
}

// A line's word, its figures in order, 0 where there is none, and how many requests they stand for, if they are a batch's.
#[derive(Clone, Copy)]
pub struct Line {
    pub word: Word,
    pub figures: [u32; FIGURES],
    pub requests: u8,
}

// What a call answers: number and value, read with the openings, and a batch with each request's own number.
#[derive(Clone, Copy)]
pub enum Answer {
    Plain(Figures),
    Read(ReadFigures),
    Batch(BatchFigures),
}

impl Answer {
    pub(crate) fn value(self) -> u32 {
        match self {
            Answer::Plain(figures) => figures.value,
            Answer::Read(figures) => figures.value,
            Answer::Batch(figures) => figures.value,
        }
    }
}

impl Line {
    pub(crate) fn of(text: &[u8]) -> Self {
        let mut figures = [0u32; FIGURES];
        let count = read_line(text, &mut figures);
        Line {
            word: Word::of(text),
            figures,
            requests: (count / batch::FIGURES % 256) as u8,
        }
    }

    // `batch` and for each request `byte id before verdict`.
    fn whole(self, image: &mut [u8]) -> BatchFigures {
        let figures = self.figures;
        let count = usize::from(self.requests);
        batched(image, &figures, Request::LEN * count, count)
    }

    // `joined bytes verdicts` and the requests: so many bytes of these, and so many verdicts.
    fn part(self, image: &mut [u8]) -> BatchFigures {
        let [bytes, verdicts, ..] = self.figures;
        let figures = self.figures;
        batched(image, &figures[2..], bytes as usize, verdicts as usize)
    }

    // The answer of a line's call: of those that the tables share, of `read id`, of a batch of those above, or of `again count id before`: many of one
    // request or, with id 0, of eight. A line of another word is put as a batch, of which number and value are shown.
    pub(crate) fn made(self, image: &mut [u8], out: &mut [u8]) -> Answer {
        let [first, second, third, fourth, ..] = self.figures;
        match self.word {
            Word::Call(call) => {
                let figures = [first, second, third, fourth];
                Answer::Plain(call.made(figures, image, out))
            }
            Word::Read => Answer::Read(read(image, CounterId(first)).into()),
            Word::Batch => Answer::Batch(self.whole(image)),
            Word::Joined => Answer::Batch(self.part(image)),
            Word::Again => Answer::Batch(repeated(image, first, second, third)),
            Word::Change(_) | Word::Zero | Word::Other => {
                let BatchFigures { number, value, .. } = self.whole(image);
                Answer::Plain(Figures { number, value })
            }
        }
    }
}
