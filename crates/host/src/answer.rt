// The figures by which a call's outcome goes to C.
ghost use Rattle.std.specs.Prelude.{◌≡◌, None, get_or};
ghost use Rattle.host.specs.Outcome.{batch_figures_of, figures_of, outcome_at, outcome_of_one, own_number, read_figures_of};

use forms::entry::Head;
use forms::refusal::Refusal;
use forms::running::Running;
use forms::terms::GlobalClock;

// What a host call answers: document 01's number, and the value, 0 on refusal.
#[repr(C)]
#[derive(Clone, Copy)]
pub struct Figures {
    pub number: u32,
    pub value: u32,
}

// What read answers: that, and how often the counter was raised since its held confirmation, 0 on refusal.
#[repr(C)]
#[derive(Clone, Copy)]
pub struct ReadFigures {
    pub number: u32,
    pub value: u32,
    pub openings: u32,
}

// What increment answers: that, and the number of each request of the batch in its place, zeros behind the last.
#[repr(C)]
#[derive(Clone, Copy)]
pub struct BatchFigures {
    pub number: u32,
    pub value: u32,
    pub numbers: [u32; Head::MAX_COUNT as usize],
}

// What a batch came to that was not refused as a whole: the clock's new reading, if some request passed, and in each request's place why it was
// refused, if it was. Behind the last there is nothing.
#[derive(Clone, Copy)]
pub struct Batch {
    pub clock: Option<GlobalClock>,
    pub refused: [Option<Refusal>; Head::MAX_COUNT as usize],
}

impl Batch {
    // Of the request at a place: why it was refused, or the clock's new reading.
    //
    // Ruled out, among others: the first request's outcome at every place; a reading where the request was refused.
    pub fn outcome(self, place: usize) -> Result<u32, Refusal>
        ensures { result ≡ outcome_at (get_or self.refused place None) self.clock }
    {
        match self.refused.get(place) {
            Some(Some(refusal)) => Err(*refusal),
            _ => Ok(self.clock.map_or(0, |clock| clock.0)),
        }
    }

    // Of a batch of one request: why it was refused, or the clock's new reading.
    //
    // Ruled out, among others: the next request's refusal; a reading where the request was refused.
    pub fn of_one(self) -> Result<u32, Refusal>
        ensures { result ≡ outcome_of_one self }
    {
        self.outcome(0)
    }
}

// Ruled out, among others: a value beside a refusal's number; the value in place of the number.
impl From<Result<u32, Refusal>> for Figures {
    ghost from_gives = { λ outcome shown. shown ≡ figures_of outcome };

    fn from(outcome: Result<u32, Refusal>) -> Figures {
        match outcome {
            Ok(value) => Figures { number: 0, value },
            Err(refusal) => Figures {
                number: refusal.number(),
                value: 0,
            },
        }
    }
}

impl From<Result<Running, Refusal>> for ReadFigures {
    ghost from_gives = { λ outcome shown. shown ≡ read_figures_of outcome };

    fn from(outcome: Result<Running, Refusal>) -> ReadFigures {
        match outcome {
            Ok(running) => ReadFigures {
                number: 0,
                value: running.value,
                openings: running.openings,
            },
            Err(refusal) => ReadFigures {
                number: refusal.number(),
                value: 0,
                openings: 0,
            },
        }
    }
}

// A request's own number: its refusal's, or 0 where it passed.
fn own_number(refused: Option<Refusal>) -> u32
    ensures { result ≡ own_number refused }
{
    refused.map_or(0, Refusal::number)
}

impl From<Result<Batch, Refusal>> for BatchFigures {
    ghost from_gives = { λ outcome shown. shown ≡ batch_figures_of outcome };

    fn from(outcome: Result<Batch, Refusal>) -> BatchFigures {
        match outcome {
            Ok(batch) => BatchFigures {
                number: 0,
                value: batch.clock.map_or(0, |clock| clock.0),
                numbers: batch.refused.map(own_number),
            },
            Err(refusal) => BatchFigures {
                number: refusal.number(),
                value: 0,
                numbers: [0; Head::MAX_COUNT as usize],
            },
        }
    }
}
