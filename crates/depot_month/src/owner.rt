// Owners: they open counters, and sign what the desk showed of accepted proofs, on slips that reach the host at once or days later. Of a
// scrapped box they confirm nothing more.
use crate::cards::Slip;
use crate::depot::Depot;
use crate::plan::owner_away;
use forms::confirmation::Confirmation;
use forms::terms::GlobalClock;
use host::confirm::confirm;
use host::open::open;

impl Depot {
    // Whether an owner confirms nothing today: while away, and of a scrapped box whose counter is not closed yet.
    fn is_silent(&self, place: u32) -> bool {
        let scrapped = self.cards.is_scrapped(place, self.day);
        scrapped && self.cards.at(place).closed.is_none() || owner_away(place, self.day)
    }

    // Hands a slip to the host, and counts how late it comes.
    fn confirmed(&mut self, place: u32, slip: Slip) {
        let confirmation = Confirmation::new(self.cards.id(place), slip.value, slip.reading);
        let outcome = confirm(&mut self.image, confirmation, 1);
        self.answered(outcome);
        if outcome.is_err() {
            return;
        }
        if slip.day < self.day {
            self.tally.late.add(1);
            self.tally.latest.at_least(self.day - slip.day);
        } else {
            self.tally.on_time.add(1);
        }
    }

    // Hands in the slip that waits, where there is one and its owner confirms. No slip is handed in twice, whatever the host answers. One that
    // still waits when its counter is closed is handed in for that counter all the same: it is what its owner signed, and the host refuses it.
    pub(crate) fn hand_in(&mut self, place: u32) {
        if self.is_silent(place) {
            return;
        }
        if let Some(slip) = self.cards.at_mut(place).slip.take() {
            self.confirmed(place, slip);
        }
    }

    // The morning's round: the slip of a day before is handed in, and a new one signed.
    pub(crate) fn visited(&mut self, place: u32) {
        if self.cards.at(place).opened.is_none() || self.is_silent(place) {
            return;
        }
        self.hand_in(place);
        let slip = self.proved(place);
        self.cards.at_mut(place).slip = slip;
    }

    // At a handover an owner who confirms signs, and hands in at once, past a slip that still waits, or keeps this slip in its place.
    pub(crate) fn handed_over(&mut self, place: u32, at_once: bool) {
        let Some(slip) = self.proved(place) else {
            return;
        };
        if self.is_silent(place) {
            return;
        }
        if at_once {
            self.confirmed(place, slip);
        } else {
            self.cards.at_mut(place).slip = Some(slip);
        }
    }

    // A proof of a raise; an owner who confirms signs it where no slip waits.
    pub(crate) fn raise_shown(&mut self, place: u32, earlier: bool) {
        let slip = self.proved_last(place, earlier);
        if self.cards.at(place).slip.is_none() && !self.is_silent(place) {
            self.cards.at_mut(place).slip = slip;
        }
    }

    // An opening at a reading, of which the counter's tablet takes the value along.
    pub(crate) fn opened(&mut self, place: u32, reading: GlobalClock) {
        let confirmation = Confirmation::new(self.cards.id(place), reading.0, reading);
        let outcome = open(&mut self.image, confirmation, 1);
        self.answered(outcome);
        if outcome.is_ok() {
            let second = self.cards.at(place).second;
            self.tally.openings.add(1);
            self.tally.second_boxes.add_if(second);
            let day = self.day;
            self.cards.at_mut(place).open(reading, day);
        }
    }
}
