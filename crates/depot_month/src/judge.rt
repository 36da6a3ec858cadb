// The desk's answer to a proof that the host wrote, and what it shows beside the history and the host's own answers.
use crate::cards::Slip;
use crate::depot::Depot;
use console::judge::judge;
use desk_table::answer::Figures;
use forms::confirmation::Confirmation;
use forms::nonce::Nonce;
use forms::terms::GlobalClock;
use validity::proof::{Kind, Proof};

// What a proof is judged for: its kind, its counter and nonce, the reading that it has to close on and the value that the host stands for.
#[derive(Clone, Copy)]
pub struct Wanted {
    pub kind: Kind,
    pub place: u32,
    pub nonce: Nonce,
    pub closing: GlobalClock,
    pub value: u32,
}

impl Depot {
    // The openings that the desk shows of an accepted proof are compared with the history, from the proof's own confirmation on.
    fn openings_compared(&mut self, proof: &[u8], place: u32, shown: Figures) {
        let confirmed = Confirmation::read(proof, Proof::CONFIRMATION).reading;
        let closing = GlobalClock(shown.closing);
        let id = self.cards.id(place);
        let openings = self.module.openings_between(id, confirmed, closing);
        self.tally.mix(openings);
        self.tally
            .openings_differ
            .add_if(shown.openings != openings);
    }

    // The value that the history gives the counter at a place at a closing reading; 0 where it is not opened.
    pub(crate) fn history_value(&self, place: u32, closing: GlobalClock) -> u32 {
        let id = self.cards.id(place);
        match self.cards.at(place).opened {
            Some(opened) => self.module.value_at(id, opened, closing),
            None => 0,
        }
    }

    // What the desk shows of an accepted proof is compared with the history and with the host.
    fn compared(&mut self, wanted: Wanted, shown: Figures) {
        let history_value = self.history_value(wanted.place, GlobalClock(shown.closing));
        self.tally.mix(history_value);
        self.tally.accepted.add(1);
        self.tally
            .closing_differs
            .add_if(shown.closing != wanted.closing.0);
        self.tally
            .value_differs
            .add_if(shown.value != history_value);
        self.tally.host_differs.add_if(shown.value != wanted.value);
    }

    // The desk's answer to the proof of a length at the start of an output, given yes for every signature, as a slip of the day; no slip where the
    // desk refuses.
    pub(crate) fn judged(&mut self, out: &[u8], len: u32, wanted: Wanted) -> Option<Slip> {
        let id = self.cards.id(wanted.place);
        let shown = Figures::from(judge(wanted.kind, len, out, id, &wanted.nonce));
        let figures = [
            shown.number,
            shown.value,
            shown.closing,
            shown.place,
            shown.openings,
        ];
        for figure in figures {
            self.tally.mix(figure);
        }
        if shown.number != 0 {
            self.tally.desk_refuses.add(1);
            return None;
        }
        self.compared(wanted, shown);
        self.openings_compared(out, wanted.place, shown);
        Some(Slip {
            value: shown.value,
            reading: GlobalClock(shown.closing),
            day: self.day,
        })
    }
}
