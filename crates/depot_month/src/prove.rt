// Proofs that the host is asked for, up to the clock and up to a raise. Each that it writes is counted on its counter's card, and goes to the desk.
use crate::cards::Slip;
use crate::depot::Depot;
use crate::judge::Wanted;
use forms::event::ModuleEvent;
use forms::nonce::Nonce;
use forms::terms::GlobalClock;
use host::last::last;
use host::prove::prove;
use validity::proof::{Kind, Proof};

impl Depot {
    // The length of the proof that the host writes by prove, if it does.
    fn prove_asked(&mut self, place: u32, nonce: Nonce, out: &mut [u8]) -> Option<u32> {
        let id = self.cards.id(place);
        let outcome = prove(&mut self.image, &nonce, id, out);
        self.answered(outcome);
        if outcome.is_ok() {
            self.tally.proved.add(1);
            self.cards.at_mut(place).add_proof();
        }
        outcome.ok()
    }

    // The same by last.
    fn last_asked(
        &mut self,
        place: u32,
        t: GlobalClock,
        earlier: bool,
        out: &mut [u8],
    ) -> Option<u32> {
        let id = self.cards.id(place);
        let outcome = last(&mut self.image, id, t, out);
        self.answered(outcome);
        if outcome.is_ok() {
            self.tally.proved_last.add(1);
            self.tally.proved_earlier.add_if(earlier);
            self.cards.at_mut(place).add_proof();
        }
        outcome.ok()
    }

    // A proof up to the clock is judged once the module has read its clock with the nonce.
    fn read_judged(
        &mut self,
        out: &[u8],
        len: u32,
        place: u32,
        nonce: Nonce,
        value: u32,
    ) -> Option<Slip> {
        self.module.perform(ModuleEvent::clock_read(nonce));
        let wanted = Wanted {
            kind: Kind::Read,
            place,
            nonce,
            closing: self.module.clock(),
            value,
        };
        self.judged(out, len, wanted)
    }

    // A proof up to the clock, asked for with a new nonce. The value that the host stands for is the one that read gives on the same image.
    pub(crate) fn proved(&mut self, place: u32) -> Option<Slip> {
        let value = self.current(place);
        let nonce = self.tally.nonce(0);
        let mut out = [0u8; Proof::MAX_LEN];
        let len = self.prove_asked(place, nonce, &mut out)?;
        self.read_judged(&out, len, place, nonce, value)
    }

    // The reading of the counter's last raise, or the value before that its request stated: the raise before it, or the opening. Of a counter that
    // was not raised it is no raise of its own, and the host refuses it.
    fn raise_of(&self, place: u32, value: u32, earlier: bool) -> GlobalClock {
        let newest = GlobalClock(value);
        let id = self.cards.id(place);
        let raise = self.module.at(newest);
        if earlier && raise.is_own(id) {
            return GlobalClock(raise.before_of(id));
        }
        newest
    }

    // A proof that closes on the counter's last raise, or on the one before it, with the nonce of that raise's request; the host stands for its
    // reading.
    pub(crate) fn proved_last(&mut self, place: u32, earlier: bool) -> Option<Slip> {
        let value = self.current(place);
        let t = self.raise_of(place, value, earlier);
        let mut out = [0u8; Proof::MAX_LEN];
        let len = self.last_asked(place, t, earlier, &mut out)?;
        let wanted = Wanted {
            kind: Kind::Increment,
            place,
            nonce: self.module.at(t).nonce_of(self.cards.id(place)),
            closing: t,
            value: t.0,
        };
        self.judged(&out, len, wanted)
    }

    // Both proofs are asked for with an output that has room for a proof's header and no more. The host refuses them, and what it does not write is
    // on no invoice.
    pub(crate) fn asked_without_room(&mut self, place: u32) {
        let newest = GlobalClock(self.current(place));
        let nonce = self.tally.nonce(0);
        let mut out = [0u8; Proof::HEADER_LEN];
        self.prove_asked(place, nonce, &mut out);
        self.last_asked(place, newest, false, &mut out);
    }
}
