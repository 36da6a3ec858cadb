// What the depot knows of each counter, on a card for each place.
use crate::plan::{COUNTERS, id_of, scrapped};
use forms::terms::{CounterId, GlobalClock};

const PLACES: usize = COUNTERS as usize;

// The value that a tablet took along, and the day on which it did.
#[derive(Clone, Copy, Default)]
pub struct Tablet {
    pub value: u32,
    pub day: u32,
}

// What an owner signed: the value and closing reading of a proof that the desk accepted, and the day.
#[derive(Clone, Copy)]
pub struct Slip {
    pub value: u32,
    pub reading: GlobalClock,
    pub day: u32,
}

#[derive(Clone, Copy)]
pub struct Card {
    // Whether the place's first box was scrapped and another one came in its place.
    pub second: bool,
    // The reading at which the counter was opened, and the value that it was closed with.
    pub opened: Option<GlobalClock>,
    pub closed: Option<u32>,
    pub tablet: Tablet,
    // The slip that waits.
    pub slip: Option<Slip>,
    // How many proofs were written for the counter since its opening, by what the host answered to the calls for it.
    pub proofs: u32,
}

impl Card {
    fn new(second: bool, tablet: Tablet) -> Self {
        Card {
            second,
            opened: None,
            closed: None,
            tablet,
            slip: None,
            proofs: 0,
        }
    }

    // Proofs are counted from the opening on.
    pub(crate) fn open(&mut self, reading: GlobalClock, day: u32) {
        let value = reading.0;
        self.opened = Some(reading);
        self.tablet = Tablet { value, day };
        self.proofs = 0;
    }

    pub(crate) fn add_proof(&mut self) {
        self.proofs = self.proofs.saturating_add(1);
    }

    pub(crate) fn is_held(&self) -> bool {
        self.opened.is_some() && self.closed.is_none()
    }

    // The card begins anew for a second box. A slip that was signed for the first one says nothing of it, and goes.
    pub(crate) fn begin_second(&mut self) {
        *self = Card::new(true, self.tablet);
    }
}

#[derive(Clone, Copy)]
pub struct Cards([Card; PLACES]);

impl Cards {
    // Of counters that are not opened.
    pub(crate) fn new() -> Self {
        Cards([Card::new(false, Tablet::default()); PLACES])
    }

    pub(crate) fn at(&self, place: u32) -> &Card {
        &self.0[place as usize % PLACES]
    }

    pub(crate) fn at_mut(&mut self, place: u32) -> &mut Card {
        &mut self.0[place as usize % PLACES]
    }

    // The id of the box that is at the place.
    pub(crate) fn id(&self, place: u32) -> CounterId {
        id_of(place, self.at(place).second)
    }

    // Whether the box that is at the place is scrapped.
    pub(crate) fn is_scrapped(&self, place: u32, day: u32) -> bool {
        scrapped(place, day) && !self.at(place).second
    }
}
