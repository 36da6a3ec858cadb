// What carriers pay: document 02, Note 6. The host's figure for a box, which its record has and close answers with, is compared with the card,
// which counts the calls that wrote a proof for it.
use crate::depot::Depot;
use crate::plan::COUNTERS;
use log_image::header::counter_count;
use log_image::records::{index_of, proofs};

impl Depot {
    // The figure that close answers with, for a box that it took out.
    pub(crate) fn invoiced(&mut self, place: u32, figure: u32) {
        let own = self.cards.at(place).proofs;
        self.tally.invoices.enter(figure, own);
    }

    // The figure in the record of a box that its card has as held. A record that is missing is not counted, so that their number tells.
    fn take_record(&mut self, place: u32) {
        if !self.cards.at(place).is_held() {
            return;
        }
        let index = index_of(&self.image, self.cards.id(place));
        if index < counter_count(&self.image) {
            let own = self.cards.at(place).proofs;
            let figure = proofs(&self.image, index);
            self.tally.records.enter(figure, own);
        }
    }

    // The same of every box: what is still to be paid when the month is over.
    pub(crate) fn take_records(&mut self) {
        for place in 0..COUNTERS {
            self.take_record(place);
        }
    }
}
