// The rounds of a run. A round in which nobody acts costs nothing: the next one with an act is found from the periods.
ghost use Rattle.std.specs.Prelude.{◌≡◌, suc, length, []};
ghost use Rattle.tablets.specs.Laws.Idle.{next_round, next_turn};
ghost use Rattle.tablets.specs.Rounds.{after_rounds, after_turns, depot_of, divides, tablets_of, turns_from};

use crate::act::act;
use crate::tablet::{MAX_TABLETS, Tablet};
use forms::terms::CounterId;

// The tablets by their numbers, which count from 0. The length stands beside the array, since `size` and `run` answer for a count above 32 too, which
// a vector of that room leaves out.
#[derive(Clone, Copy)]
pub struct Fleet {
    pub tablets: [Tablet; MAX_TABLETS],
    pub count: usize,
}

// Past every round of 32 bits: a tablet that never acts again is later than any, so that the nearest round is the least number.
const NEVER: u64 = u32::MAX as u64 + 1;

impl Fleet {
    pub fn none() -> Self
        ensures { tablets_of result ≡ [] }
    {
        Fleet {
            tablets: [Tablet::new(CounterId(0), 0, 0); MAX_TABLETS],
            count: 0,
        }
    }

    // How many tablets there are.
    pub fn size(self) -> usize
        ensures { result ≡ length (tablets_of self) }
    {
        self.count.min(MAX_TABLETS)
    }

    // The tablets themselves, by their numbers.
    pub fn as_slice(&self) -> &[Tablet]
        ensures { result.now ≡ tablets_of self.now }
    {
        &self.tablets[..self.size()]
    }
}

// Whether a period divides a round.
fn divides(period: u32, round: u32) -> bool
    ensures { result ≡ divides period round }
{
    period != 0 && round % period == 0
}

// The first round, behind those that are done, which a period divides.
#[tactic(auto, unfolding(crate::specs::Laws::Idle::next_turn))]
fn next_turn(period: u32, done: u32) -> u64
    ensures { result ≡ next_turn period done }
{
    if period == 0 {
        return NEVER;
    }
    ((done / period) as u64 + 1) * period as u64
}

// The first round, behind those that are done, in which a tablet acts.
fn next_round(fleet: Fleet, done: u32) -> u64
    ensures { result ≡ next_round (tablets_of fleet) done }
{
    fleet.as_slice().iter().fold(
        NEVER,
        |next, tablet| next.min(next_turn(tablet.period, done)),
    )
}

// One round: the tablets whose period divides it act by rising number.
fn take_round(image: &mut [u8], mut fleet: Fleet, round: u32) -> Fleet
    ensures { depot_of result image.new ≡ after_turns (depot_of fleet image.old) (turns_from round 0 (tablets_of fleet)) }
{
    for number in 0..fleet.size() {
        let tablet = fleet.tablets[number];
        if divides(tablet.period, round) {
            fleet.tablets[number] = act(image, round, number as u32, tablet);
        }
    }
    fleet
}

// The rounds behind those that are done, up to a last one: the tablets after them. The image is as the host leaves it.
//
// Ruled out, among others: a run that begins with round 0, which every period divides; one in which the tablets of a round act on the image that
// the round began with.
pub fn run(image: &mut [u8], mut fleet: Fleet, done: u32, rounds: u32) -> Fleet
    ensures { depot_of result image.new ≡ after_rounds done rounds (depot_of fleet image.old) }
{
    let mut next = next_round(fleet, done);
    // The rounds that nobody acts in are passed over, so that no `for` counts these.
    while next <= rounds as u64 {
        let round = next as u32;
        fleet = take_round(image, fleet, round);
        next = next_round(fleet, round);
    }
    fleet
}
