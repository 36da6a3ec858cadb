// The depot: the server's image, and beside it the books and how far the month is.
use crate::cards::Cards;
use crate::module::Module;
use crate::plan;
use crate::tally::Tally;
use forms::image::Image;
use forms::refusal::Refusal;
use forms::terms::GlobalClock;
use host::answer::Figures;
use host::start::start;
use log_image::header::{entry_count, held_log};

#[derive(Drop)]
pub struct Depot {
    pub image: [u8; Image::LEN],
    pub module: Module,
    pub cards: Cards,
    pub tally: Tally,
    // From 1, 0 before the first.
    pub day: u32,
    // The number drawn last.
    pub drawn: u64,
}

impl Depot {
    // With nothing in the image and the books.
    pub(crate) fn new() -> Self {
        Depot {
            image: [0u8; Image::LEN],
            module: Module::new(),
            cards: Cards::new(),
            tally: Tally::new(),
            day: 0,
            drawn: plan::SEED,
        }
    }

    // Takes up a call of the host, and how many entries and units the image holds after it.
    pub(crate) fn called(&mut self) {
        let entries = entry_count(&self.image);
        let units = held_log(&self.image).units;
        self.tally.called(entries, units);
    }

    // Takes up what a call answered that is no batch.
    pub(crate) fn answered(&mut self, outcome: Result<u32, Refusal>) {
        let figures = Figures::from(outcome);
        self.called();
        self.tally.numbered(figures.number);
        self.tally.mix(figures.value);
    }

    // The host begins at the clock of the module as the depot gets it.
    pub(crate) fn start(&mut self) {
        self.module.set_up();
        let outcome = start(&mut self.image, GlobalClock(plan::FIRST_READING));
        self.answered(outcome);
    }
}
