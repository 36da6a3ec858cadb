// What the run counts, and the sum that every answer of host and desk and every value of the history goes into.
use crate::plan::PRIME;
use forms::nonce::{LEN, Nonce};
use forms::number::put_u32;
use std::fmt;

// More than there are numbers that a call may answer.
const NUMBERS: usize = 32;

// A count, which stops at the largest number.
#[derive(Clone, Copy, Default)]
pub struct Count(pub u32);

impl Count {
    pub(crate) fn add(&mut self, figure: u32) {
        self.0 = self.0.saturating_add(figure);
    }

    pub(crate) fn add_if(&mut self, holds: bool) {
        self.add(u32::from(holds));
    }

    // Keeps the greatest of the numbers met.
    pub(crate) fn at_least(&mut self, number: u32) {
        self.0 = self.0.max(number);
    }
}

impl fmt::Display for Count {
    fn fmt<W: fmt::Write>(&self, f: &mut fmt::Formatter<W>) -> fmt::Result {
        self.0.fmt(f)
    }
}

// An account of some of the host's figures: how many there are, their sum, the least and the greatest of them, and how many are not the card's.
#[derive(Clone, Copy, Default)]
pub struct Account {
    pub figures: Count,
    pub sum: Count,
    pub least: Option<u32>,
    pub greatest: Count,
    pub differ: Count,
}

impl Account {
    // One figure more, beside what the card says.
    pub(crate) fn enter(&mut self, figure: u32, own: u32) {
        self.least = Some(self.least.map_or(figure, |least| least.min(figure)));
        self.greatest.at_least(figure);
        self.figures.add(1);
        self.sum.add(figure);
        self.differ.add_if(figure != own);
    }
}

#[derive(Clone, Copy, Default)]
pub struct Tally {
    // The calls, and the requests of batches, by the number that they were answered.
    pub numbers: [Count; NUMBERS],
    pub calls: Count,
    pub openings: Count,
    pub second_boxes: Count,
    pub closings: Count,
    pub closings_cut: Count,
    pub ticks: Count,
    pub raises: Count,
    pub increments: Count,
    pub most_shared: Count,
    pub old_values: Count,
    pub week_old_values: Count,
    pub on_time: Count,
    pub late: Count,
    pub latest: Count,
    pub most_entries: Count,
    pub most_units: Count,
    pub proved: Count,
    pub proved_last: Count,
    pub proved_earlier: Count,
    pub accepted: Count,
    pub desk_refuses: Count,
    pub value_differs: Count,
    pub openings_differ: Count,
    pub host_differs: Count,
    pub closing_differs: Count,
    pub read_differs: Count,
    pub clock_differs: Count,
    // Of what close answers, and of what the records have at the end of the month.
    pub invoices: Account,
    pub records: Account,
    pub sum: u32,
}

// A sum and one figure more.
pub(crate) fn mixed(sum: u32, figure: u32) -> u32 {
    ((sum as u64 * 65537 + figure as u64) % PRIME) as u32
}

impl Tally {
    pub(crate) fn new() -> Self {
        Tally {
            sum: 1,
            ..Tally::default()
        }
    }

    pub(crate) fn mix(&mut self, figure: u32) {
        self.sum = mixed(self.sum, figure);
    }

    // Takes up a call of the host, after which the image holds so many entries and units.
    pub(crate) fn called(&mut self, entries: u32, units: u32) {
        self.calls.add(1);
        self.most_entries.at_least(entries);
        self.most_units.at_least(units);
    }

    // Takes up the number that a call, or a request of a batch, was answered.
    pub(crate) fn numbered(&mut self, number: u32) {
        self.numbers[number as usize % NUMBERS].add(1);
        self.mix(number);
    }

    // A nonce that no call had before: the calls so far stand in it, and the place in a batch.
    pub(crate) fn nonce(&self, index: u32) -> Nonce {
        let mut nonce = [0x5Au8; LEN];
        put_u32(&mut nonce, LEN - 8, index);
        put_u32(&mut nonce, LEN - 4, self.calls.0);
        nonce
    }
}
