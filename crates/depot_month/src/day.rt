// A day at the depot: the morning's round past all counters, then calls as they are drawn.
use crate::depot::Depot;
use crate::plan::{COUNTERS, STEPS, drawn, tablet_away};
use forms::terms::GlobalClock;

// What a step does.
#[derive(Clone, Copy)]
pub enum Act {
    Tick,
    DockRaise,
    TabletRaise,
    DoubtfulRaise,
    Handover,
    // The last raise is shown, or the one before it.
    LastRaise,
    EarlierRaise,
    HandIn,
    Opening,
}

impl Act {
    // What each sixteenth of the numbers drawn stands for.
    fn of(x: u64) -> Self {
        match x / 64 % 16 {
            0 => Act::Tick,
            1..=4 => Act::DockRaise,
            5..=8 => Act::TabletRaise,
            9 => Act::DoubtfulRaise,
            10 | 11 => Act::Handover,
            12 => Act::LastRaise,
            13 => Act::EarlierRaise,
            14 => Act::HandIn,
            _ => Act::Opening,
        }
    }
}

// What is drawn for a step: a counter's place, what is done, and a number for what else there is to decide.
#[derive(Clone, Copy)]
pub struct Step {
    place: u32,
    act: Act,
    rest: u32,
}

impl Step {
    fn of(x: u64) -> Self {
        Step {
            place: (x % 64) as u32,
            act: Act::of(x),
            rest: (x / 1024 % 4294967296) as u32,
        }
    }
}

impl Depot {
    // In the morning a scrapped box is closed or replaced, and any other confirmed.
    fn called_on(&mut self, place: u32) {
        if self.cards.is_scrapped(place, self.day) {
            self.seen_off(place);
        } else {
            self.visited(place);
        }
    }

    fn round(&mut self) {
        for place in 0..COUNTERS {
            self.called_on(place);
        }
    }

    // On the first days the next counter is opened, at a reading of just now; with 64 opened it is a sixty-fifth. Later one time in sixteen a
    // counter that is opened already; the other times are for the boxes that are scrapped, which are at the odd places.
    fn opening(&mut self, step: Step) {
        let now = self.module.clock().0;
        let reading = GlobalClock(now.wrapping_sub(step.rest % 3));
        if self.day <= 5 {
            let next = self.tally.openings.0;
            self.opened(next, reading);
            return;
        }
        if step.rest % 16 == 0 && self.cards.at(step.place).closed.is_none() {
            self.opened(step.place, reading);
            return;
        }
        let place = 2 * (step.place % 32) + 1;
        self.retired(place, step.rest / 16 % 4);
    }

    // A raise by the counter's tablet, or by a dock where that is away; other tablets, up to seven, and one time in four the dock come in the same
    // minute.
    fn tablet_raises(&mut self, step: Step) {
        if tablet_away(step.place, self.day) {
            let _ = self.dock_raises(step.place, 1);
        } else {
            let tablets = 1 + step.rest % 8;
            let dock = step.rest / 8 % 4 == 0;
            self.minute(step.place, tablets, dock);
        }
    }

    // One request in four of these is not signed.
    fn doubtful_raise(&mut self, step: Step) {
        let verdict = u8::from(step.rest % 4 != 0);
        let _ = self.dock_raises(step.place, verdict);
    }

    // One time in eight the proof for a handover is asked for with too little room first.
    fn handover(&mut self, step: Step) {
        if step.rest / 2 % 8 == 0 {
            self.asked_without_room(step.place);
        }
        self.handed_over(step.place, step.rest % 2 == 0);
    }

    fn carry_out(&mut self, step: Step) {
        match step.act {
            Act::Tick => self.ticked(),
            Act::DockRaise => {
                let _ = self.dock_raises(step.place, 1);
            }
            Act::TabletRaise => self.tablet_raises(step),
            Act::DoubtfulRaise => self.doubtful_raise(step),
            Act::Handover => self.handover(step),
            Act::LastRaise => self.raise_shown(step.place, false),
            Act::EarlierRaise => self.raise_shown(step.place, true),
            Act::HandIn => self.hand_in(step.place),
            Act::Opening => self.opening(step),
        }
    }

    pub(crate) fn spend(&mut self, day: u32) {
        self.day = day;
        self.round();
        for _ in 0..STEPS {
            self.drawn = drawn(self.drawn);
            self.carry_out(Step::of(self.drawn));
        }
    }
}
