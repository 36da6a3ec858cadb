// The month's plan: how long it is, who is at the depot on which day, which boxes are scrapped when, and the numbers that the calls are
// drawn with. Days count from 1, counters by their place, in order of its first opening, from 0.
use forms::terms::CounterId;

pub(crate) const DAYS: u32 = 30;

pub(crate) const STEPS: u32 = 264;

pub(crate) const COUNTERS: u32 = 64;

// Above 2^31: a reading taken for a signed number would show.
pub(crate) const FIRST_READING: u32 = 4000000000;

pub(crate) const SEED: u64 = 20261115;

pub(crate) const PRIME: u64 = 2147483647;

// The number drawn behind another one: Lehmer's generator.
pub(crate) fn drawn(x: u64) -> u64 {
    x % PRIME * 48271 % PRIME
}

// Ids lie among the clock's readings, so that what tells them apart is not their size. The second box at a place has an id of its own: document
// 02, Note 4, "a number is issued once".
pub(crate) fn id_of(place: u32, second: bool) -> CounterId {
    let first = FIRST_READING + 1 + 57 * (place % 65536);
    if second {
        CounterId(first + 28)
    } else {
        CounterId(first)
    }
}

// Every other tablet is back at the depot only each ninth day.
pub(crate) fn tablet_away(place: u32, day: u32) -> bool {
    if place % 2 != 0 {
        return false;
    }
    (place / 2 + day % 9) % 9 != 0
}

// Every owner is away on one day in five, one of them on days 8 to 13 too, and all of them on days 19 to 22.
pub(crate) fn owner_away(place: u32, day: u32) -> bool {
    if (place % 5 + day % 5) % 5 == 0 {
        return true;
    }
    if place == 5 && (8..=13).contains(&day) {
        return true;
    }
    (19..=22).contains(&day)
}

// The first boxes at the odd places are scrapped, two each day from day 9 on.
pub(crate) fn scrapped(place: u32, day: u32) -> bool {
    place % 2 == 1 && 9 + place / 4 <= day
}

// Three days later the counter of a scrapped box is closed on the first morning on which its owner is there, if it was not closed before.
pub(crate) fn overdue(place: u32, day: u32) -> bool {
    3 <= day && scrapped(place, day - 3)
}
