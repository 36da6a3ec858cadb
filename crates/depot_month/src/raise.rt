// Raises: by docking bays and the vault, which ask for the current value first, and by tablets, which come with the value that they hold.
// Tablets that come in the same minute share an increment: document 02, Note 7.
use crate::batch::Batch;
use crate::cards::Tablet;
use crate::depot::Depot;
use crate::plan::{COUNTERS, tablet_away};
use forms::refusal::Refusal;
use forms::terms::GlobalClock;
use host::answer::Batch as Judged;
use host::read::read;
use host::tick::tick;

// The tablet that comes as the k-th in a minute of the one at a place.
fn place_of(first: u32, k: u32) -> u32 {
    (first % COUNTERS + 18 * (k % COUNTERS)) % COUNTERS
}

// Whether it is at the depot; the first one is.
fn comes(first: u32, k: u32, day: u32) -> bool {
    k == 0 || !tablet_away(place_of(first, k), day)
}

impl Depot {
    pub(crate) fn ticked(&mut self) {
        let nonce = self.tally.nonce(0);
        let outcome = tick(&mut self.image, &nonce);
        self.answered(outcome);
        if let Ok(reading) = outcome {
            self.stored(GlobalClock(reading));
        }
    }

    // A request for a counter with the value before that its requester holds, and the owner's verdict on it: the clock's new reading, or why it is
    // refused.
    fn requested(&mut self, place: u32, before: u32, verdict: u8) -> Result<u32, Refusal> {
        let mut one = Batch::new();
        self.join(&mut one, place, before);
        let judged = self.submitted(&one, verdict)?;
        judged.of_one()
    }

    // The current value that the host gives, compared with the history's; 0 where it gives none.
    pub(crate) fn current(&mut self, place: u32) -> u32 {
        let shown = read(&self.image, self.cards.id(place)).map(|running| running.value);
        self.answered(shown);
        if let Ok(current) = shown {
            let value = self.history_value(place, self.module.clock());
            self.tally.mix(value);
            self.tally.read_differs.add_if(value != current);
        }
        shown.unwrap_or(0)
    }

    pub(crate) fn dock_raises(&mut self, place: u32, verdict: u8) -> Result<u32, Refusal> {
        let before = self.current(place);
        self.requested(place, before, verdict)
    }

    // What a tablet takes along where its raise was done.
    fn taken(&mut self, place: u32, outcome: Result<u32, Refusal>) {
        if let Ok(value) = outcome {
            let day = self.day;
            self.cards.at_mut(place).tablet = Tablet { value, day };
        }
    }

    // The requests of the tablets that come in a minute, as many as so many of which some may be away.
    fn gathered(&self, first: u32, tablets: u32) -> Batch {
        let mut batch = Batch::new();
        for k in 0..tablets {
            if comes(first, k, self.day) {
                let place = place_of(first, k);
                self.join(&mut batch, place, self.cards.at(place).tablet.value);
            }
        }
        batch
    }

    // A tablet whose value is old is refused; it asks for the current one and tries again.
    fn settled(&mut self, place: u32, outcome: Result<u32, Refusal>) {
        if outcome != Err(Refusal::Stale) {
            self.taken(place, outcome);
            return;
        }
        let age = self.day.saturating_sub(self.cards.at(place).tablet.day);
        self.tally.old_values.add(1);
        self.tally.week_old_values.add_if(7 <= age);
        let again = self.dock_raises(place, 1);
        self.taken(place, again);
    }

    // Where the dock comes in the minute too, it asks for the first one's counter, if there is room.
    fn joined(&mut self, batch: &mut Batch, first: u32) {
        if !batch.is_full() {
            let before = self.current(first);
            self.join(batch, first, before);
        }
    }

    // What becomes of each tablet of a minute that comes, in its turn.
    fn settled_each(&mut self, first: u32, tablets: u32, judged: Judged) {
        let day = self.day;
        let reading = judged.clock.map_or(0, |clock| clock.0);
        let coming = (0..tablets).filter(|k| comes(first, *k, day));
        for (k, refused) in coming.zip(judged.refused) {
            self.settled(place_of(first, k), refused.map_or(Ok(reading), Err));
        }
    }

    // A minute in which so many tablets may come, the one at a place first, and with them the dock. A request that is refused because the batch
    // raised its counter already is put once more.
    pub(crate) fn minute(&mut self, first: u32, tablets: u32, dock: bool) {
        let mut batch = self.gathered(first, tablets);
        let own = batch.len();
        if dock {
            self.joined(&mut batch, first);
        }
        let Ok(judged) = self.submitted(&batch, 1) else {
            return;
        };
        self.settled_each(first, tablets, judged);
        if judged.refused.get(own).copied() == Some(Some(Refusal::RaisedAlready)) {
            let _ = self.dock_raises(first, 1);
        }
    }
}
