// What the desk answers, and the five figures for it.
ghost use Rattle.std.specs.Prelude.{◌≡◌};
ghost use Rattle.validity.specs.Proof.{refusal_of};
ghost use Rattle.desk_table.specs.Answer.{figures, refuses, told};

use forms::refusal::Refusal;
use forms::running::Running;
use forms::terms::GlobalClock;
use validity::proof::ParseError;

// What an accepted proof shows: the counter's value at the reading that it closes on, and how often it was raised since the proof's own confirmation.
#[derive(Clone, Copy)]
pub struct Accepted {
    pub running: Running,
    pub closing: GlobalClock,
}

// The check that turns a proof away, and the place of the entry that it refuses, 0 where it is none: document 01's figure for it, so that an answer is
// fixed by what it is told as.
#[derive(Clone, Copy)]
pub struct Refused {
    pub refusal: Refusal,
    pub place: u32,
}

pub type Answer = Result<Accepted, Refused>;

// Document 01's number, value, closing reading and place, and document 02's openings.
#[repr(C)]
#[derive(Clone, Copy)]
pub struct Figures {
    pub number: u32,
    pub value: u32,
    pub closing: u32,
    pub place: u32,
    pub openings: u32,
}

// A refusal that is no entry's.
impl From<Refusal> for Refused {
    ghost from_gives = { λ refusal refused. refused ≡ record { refusal = refusal; place = 0 } };

    fn from(refusal: Refusal) -> Refused {
        Refused { refusal, place: 0 }
    }
}

impl From<ParseError> for Refused {
    ghost from_gives = { λ error refused. refused ≡ record { refusal = refusal_of error; place = 0 } };

    fn from(error: ParseError) -> Refused {
        Refused::from(Refusal::from(error))
    }
}

impl Figures {
    // The figures of a refusal by any check's number, at any place: value, closing reading and openings are 0, so that nothing in them passes for a
    // value.
    //
    // Ruled out, among others: a refusal that shows openings; one that shows its place as a value.
    pub fn refused(number: u32, place: u32) -> Figures
        ensures { result ≡ figures (refuses number place) }
    {
        Figures {
            number,
            value: 0,
            closing: 0,
            place,
            openings: 0,
        }
    }
}

// The five figures of an answer: of an accepted proof number and place are 0; a refused one has those of its refusal, with place 0 where no entry is
// refused.
//
// Ruled out, among others: the same value whatever the entries; a refusal that shows openings.
impl From<Answer> for Figures {
    ghost from_gives = { λ answer shown. shown ≡ figures (told answer) };

    fn from(answer: Answer) -> Figures {
        match answer {
            Ok(accepted) => Figures {
                number: 0,
                value: accepted.running.value,
                closing: accepted.closing.0,
                place: 0,
                openings: accepted.running.openings,
            },
            Err(refused) => Figures::refused(refused.refusal.number(), refused.place),
        }
    }
}
