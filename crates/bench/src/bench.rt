// The orders that set a run up, in the order of their lines: the start, the tablets, the run.
ghost use Rattle.std.specs.Prelude.{◌≡◌, ◌+◌, ◌≤◌, ◌<◌, length, []};
ghost use Rattle.forms.specs.Bytes.{overwrite};
ghost use Rattle.tablets.specs.Rounds.{depot_of, tablets_of};
ghost use Rattle.tablets.specs.Tablet.{max_tablets};
ghost use Rattle.std.proofs.Common.{lit≤};
ghost use Rattle.console.specs.Lines.{Told, pending_of};
ghost use Rattle.bench.specs.Bench.{Stage, Standing, line_ordered, no_order, ordered, pending_order, placed, refused_tablet, run_ordered, standing_of};
ghost use Rattle.bench.specs.Bench.{start_ordered, tablet_ordered};
ghost use Rattle.bench.specs.Result.{max_result};

use crate::result::{MAX_RESULT, put_result};
use console::session::{Line, TakeLine};
use console::step::YES;
use forms::bytes::put;
use forms::confirmation::Confirmation;
use forms::terms::{CounterId, GlobalClock};
use grammar::order::{Order, read_order};
use host::open::open;
use host::start::start;
use tablets::rounds::{Fleet, run};
use tablets::tablet::{MAX_TABLETS, Tablet};

// How far the order of lines is.
#[derive(Clone, Copy)]
pub enum Stage {
    New,
    // At this clock.
    Started(GlobalClock),
    Ran,
}

// What is kept between lines, beside the image.
#[derive(Clone, Copy)]
pub struct Bench {
    pub stage: Stage,
    pub fleet: Fleet,
}

// A line that is none of those: 27. Answers the place behind its text.
fn pass_over(text: &mut [u8], at: usize) -> usize
    requires { at + max_result ≤ length text.old }
    ensures value { result ≡ at + length no_order }
    ensures text_after { text.new ≡ overwrite text.old at no_order }
{
    put(text, at, b"27 0\n");
    at + 5
}

// Whether a tablet is none: box or period 0, or one too many.
fn refused_tablet(fleet: Fleet, id: CounterId, period: u32) -> bool
    ensures { result ≡ refused_tablet (tablets_of fleet) id period }
{
    id == CounterId(0) || period == 0 || MAX_TABLETS <= fleet.size()
}

// One tablet more, whose box is opened at the clock.
fn place(mut fleet: Fleet, tablet: Tablet, clock: GlobalClock, image: &mut [u8]) -> Fleet
    requires { length (tablets_of fleet) < max_tablets }
    ensures { depot_of result image.new ≡ placed clock (depot_of fleet image.old) tablet }
{
    let at = fleet.count;
    fleet.tablets[at] = tablet;
    fleet.count = at + 1;
    let _ = open(image, Confirmation::new(tablet.id, clock.0, clock), YES);
    fleet
}

// The order that a line is, if nothing more comes.
fn order_of(line: Line) -> Order
    ensures { result ≡ pending_order (pending_of line) }
{
    line.bytes().map_or(Order::Other, read_order)
}

impl Bench {
    // Nothing was ordered yet.
    pub fn new() -> Self
        ensures { (result.stage ≡ Stage.New) × (tablets_of result.fleet ≡ []) }
    {
        Bench {
            stage: Stage::New,
            fleet: Fleet::none(),
        }
    }

    // The line `start`, with the clock that the host begins with.
    fn take_start(
        &mut self,
        clock: GlobalClock,
        image: &mut [u8],
        text: &mut [u8],
        at: usize,
    ) -> usize
        requires { at + max_result ≤ length text.old }
        ensures { Told (start_ordered self.old.stage (standing_of self.old image.old) clock) max_result text.old at
            (standing_of self.new image.new) result text.new }
    {
        match self.stage {
            Stage::New => {
                let _ = start(image, clock);
                self.stage = Stage::Started(clock);
                self.fleet = Fleet::none();
                at
            }
            Stage::Started(_) | Stage::Ran => pass_over(text, at),
        }
    }

    // The line `tablet`.
    fn take_tablet(
        &mut self,
        id: CounterId,
        period: u32,
        belief: u32,
        image: &mut [u8],
        text: &mut [u8],
        at: usize,
    ) -> usize
        requires { at + max_result ≤ length text.old }
        ensures { Told (tablet_ordered self.old.stage (standing_of self.old image.old) id period belief) max_result text.old at
            (standing_of self.new image.new) result text.new }
    {
        match self.stage {
            Stage::Started(clock) => {
                if refused_tablet(self.fleet, id, period) {
                    return pass_over(text, at);
                }
                self.fleet = place(self.fleet, Tablet::new(id, period, belief), clock, image);
                at
            }
            Stage::New | Stage::Ran => pass_over(text, at),
        }
    }

    // The line `run`.
    fn take_run(&mut self, rounds: u32, image: &mut [u8], text: &mut [u8], at: usize) -> usize
        requires { at + max_result ≤ length text.old }
        ensures { Told (run_ordered self.old.stage (standing_of self.old image.old) rounds) max_result text.old at
            (standing_of self.new image.new) result text.new }
    {
        match self.stage {
            Stage::Started(_) => {
                self.fleet = run(image, self.fleet, 0, rounds);
                self.stage = Stage::Ran;
                put_result(text, at, self.fleet)
            }
            Stage::New | Stage::Ran => pass_over(text, at),
        }
    }

    // What an order does and prints, from a place of the text on, which has room for it. Answers the place behind the text.
    #[tactic(auto, unfolding(crate::specs::Bench::ordered))]
    fn take_order(&mut self, order: Order, image: &mut [u8], text: &mut [u8], at: usize) -> usize
        requires { at + max_result ≤ length text.old }
        ensures { Told (ordered (standing_of self.old image.old) order) max_result text.old at
            (standing_of self.new image.new) result text.new }
    {
        match order {
            Order::Start(clock) => self.take_start(clock, image, text, at),
            Order::Tablet(id, period, belief) => self.take_tablet(
                id, period, belief, image, text, at,
            ),
            Order::Run(rounds) => self.take_run(rounds, image, text, at),
            Order::Other => pass_over(text, at),
        }
    }
}

// A line is an order. Beside the image the bench is kept.
impl TakeLine for Bench {
    ghost State = { Standing };

    ghost state_of = { standing_of };

    ghost answered = { line_ordered };

    ghost MAX_TEXT = { max_result };

    const MAX_TEXT: usize = MAX_RESULT;

    // Ruled out, among others: a bench that takes a second `run`, or a tablet behind it.
    fn take_line(&mut self, line: Line, image: &mut [u8], text: &mut [u8], at: usize) -> usize {
        if text.len().saturating_sub(at) < MAX_RESULT {
            return at;
        }
        self.take_order(order_of(line), image, text, at)
    }

    ghost some = { lit≤ tt };
}
