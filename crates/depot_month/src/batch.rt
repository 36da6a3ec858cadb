// Batches of requests: the host takes those that it can, the module does one increment for them, and what each was answered goes to the tally.
ghost use Rattle.std.specs.Prelude.{◌≤◌};

use crate::depot::Depot;
use forms::bytes::put;
use forms::event::{ModuleEvent, ROOM};
use forms::refusal::Refusal;
use forms::request::Request;
use forms::terms::GlobalClock;
use host::answer::{Batch as Judged, BatchFigures};
use host::increment::increment;

// The most requests of a batch.
pub const MOST: usize = ROOM / Request::LEN;

// So many requests, joined.
#[derive(Clone, Copy)]
pub struct Batch {
    count: usize,
    requests: [u8; ROOM],
    ghost within: { count ≤ 8 },
}

impl Batch {
    pub(crate) fn new() -> Self {
        Batch {
            count: 0,
            requests: [0u8; ROOM],
        }
    }

    pub(crate) fn len(&self) -> usize
        ensures { result ≤ 8 }
    {
        self.count
    }

    pub(crate) fn is_full(&self) -> bool {
        self.count == MOST
    }

    fn joined(&self) -> &[u8] {
        &self.requests[..Request::LEN * self.count]
    }

    // One request more; none where there is no room for it.
    fn push(&mut self, request: &[u8]) {
        if self.count < MOST {
            put(&mut self.requests, Request::LEN * self.count, request);
            self.count += 1;
        }
    }

    // The requests that passed.
    fn passed(&self, judged: Judged) -> Batch {
        let mut kept = Batch::new();
        for (request, refused) in self.joined().chunks_exact(Request::LEN).zip(judged.refused) {
            if refused.is_none() {
                kept.push(request);
            }
        }
        kept
    }
}

impl Depot {
    // One request more, for the counter at a place with the value before that its requester holds.
    pub(crate) fn join(&self, batch: &mut Batch, place: u32, before: u32) {
        let nonce = self.tally.nonce(batch.len() as u32);
        let request = Request::new(nonce, self.cards.id(place), before);
        let mut bytes = [0u8; Request::LEN];
        request.write(&mut bytes, 0);
        batch.push(&bytes);
    }

    // The module does what the host stored, and the host's new clock is compared with the module's. Every request but the first is an increment
    // saved.
    fn certified(&mut self, batch: Batch, host_clock: GlobalClock) {
        let count = batch.count as u32;
        self.module
            .perform(ModuleEvent::shared(count, batch.requests));
        let differs = self.module.clock() != host_clock;
        self.tally.clock_differs.add_if(differs);
        self.tally.raises.add(count);
        self.tally.most_shared.at_least(count);
        if count == 0 {
            self.tally.ticks.add(1);
        } else {
            self.tally.increments.add(1);
        }
    }

    // A tick that the host stored.
    pub(crate) fn stored(&mut self, host_clock: GlobalClock) {
        self.certified(Batch::new(), host_clock);
    }

    // A batch is put to the host, with one verdict for all its requests. What each was answered is counted.
    pub(crate) fn submitted(&mut self, batch: &Batch, verdict: u8) -> Result<Judged, Refusal> {
        let verdicts = [verdict; MOST];
        let outcome = increment(&mut self.image, batch.joined(), &verdicts[..batch.count]);
        let figures = BatchFigures::from(outcome);
        self.called();
        for number in figures.numbers.iter().take(batch.count) {
            self.tally.numbered(*number);
        }
        self.tally.mix(figures.number);
        self.tally.mix(figures.value);
        let judged = outcome?;
        if let Some(clock) = judged.clock {
            self.certified(batch.passed(judged), clock);
        }
        Ok(judged)
    }
}
