// Scrapped boxes: their owners close the counters, by the value that a proof shows, that the tablet holds or that a slip states, and a
// second box takes the place under an id of its own. What is tried with a closed counter is refused.
use crate::cards::Slip;
use crate::depot::Depot;
use crate::plan::{overdue, owner_away};
use forms::confirmation::Confirmation;
use forms::terms::GlobalClock;
use host::close::close;
use log_image::header::entry_count;

impl Depot {
    // The host's answer to a closing by a value at a reading, which is the box's invoice, and whether entries fell away.
    fn closed(&mut self, place: u32, value: u32, reading: GlobalClock, verdict: u32) {
        let entries = entry_count(&self.image);
        let confirmation = Confirmation::new(self.cards.id(place), value, reading);
        let outcome = close(&mut self.image, confirmation, verdict);
        self.answered(outcome);
        if let Ok(figure) = outcome {
            let cut = entry_count(&self.image) < entries;
            self.tally.closings.add(1);
            self.tally.closings_cut.add_if(cut);
            self.invoiced(place, figure);
            self.cards.at_mut(place).closed = Some(value);
        }
    }

    // A closing by a value at the clock.
    fn closed_now(&mut self, place: u32, value: u32, verdict: u32) {
        let now = self.module.clock();
        self.closed(place, value, now, verdict);
    }

    // A closing by what a slip states, where there is one.
    fn closed_by(&mut self, place: u32, slip: Option<Slip>) {
        if let Some(slip) = slip {
            self.closed(place, slip.value, slip.reading, 1);
        }
    }

    // A closing by what the desk shows of a proof up to the clock.
    fn closed_by_proof(&mut self, place: u32) {
        let slip = self.proved(place);
        self.closed_by(place, slip);
    }

    // A second box at the place of a closed one, opened at the clock or just before it.
    fn replaced(&mut self, place: u32) {
        self.cards.at_mut(place).begin_second();
        let now = self.module.clock().0;
        self.opened(place, GlobalClock(now.wrapping_sub(place % 3)));
    }

    // The morning's round at a scrapped box.
    pub(crate) fn seen_off(&mut self, place: u32) {
        if owner_away(place, self.day) {
            return;
        }
        if self.cards.at(place).closed.is_some() {
            self.replaced(place);
        } else if overdue(place, self.day) {
            self.closed_by_proof(place);
        }
    }

    // A closed counter is to be opened again, one reading before its last raise: the entry of that raise is a later one that names it, and once
    // that entry is dropped the reading lies before the log. So the host never opens it, and every id is issued once, as the history's claim
    // supposes. A counter that was never raised has no such reading.
    fn reopened(&mut self, place: u32, value: u32) {
        let opened = self.cards.at(place).opened;
        if opened.is_some_and(|opened| opened.0 < value) {
            self.opened(place, GlobalClock(value - 1));
        }
    }

    // A counter closed with a value is to be opened again, or closed once more.
    fn tried_again(&mut self, place: u32, value: u32, way: u32) {
        if way % 2 == 0 {
            self.reopened(place, value);
        } else {
            self.closed_now(place, value, 1);
        }
    }

    // A counter is to be closed by the slip that waits, which stays where it is, since its reading is no longer the clock once there was a raise; by
    // what its tablet holds, which may be an old value; or by a proof.
    fn tried(&mut self, place: u32, way: u32) {
        let card = *self.cards.at(place);
        match way {
            0 => self.closed_by(place, card.slip),
            1 | 2 => self.closed_now(place, card.tablet.value, 1),
            _ => self.closed_by_proof(place),
        }
    }

    // What is tried with a scrapped box between the morning's rounds, in the way drawn, a number that `tried` and `tried_again` read each in its own
    // way. While its owner is away nobody signs.
    pub(crate) fn retired(&mut self, place: u32, way: u32) {
        if !self.cards.is_scrapped(place, self.day) {
            return;
        }
        if owner_away(place, self.day) {
            let value = self.current(place);
            self.closed_now(place, value, 0);
            return;
        }
        match self.cards.at(place).closed {
            Some(value) => self.tried_again(place, value, way),
            None => self.tried(place, way),
        }
    }
}
