// A counter's record changed: document 01, "The host", and Notes 2 and 6 of document 02.
ghost use Rattle.std.specs.Prelude.{◌≡◌};
ghost use Rattle.record_change.specs.Change.{changed_by};

use forms::confirmation::Confirmation;
use forms::record::Record;
use forms::terms::GlobalClock;

// What a call changes in its counter's record.
#[derive(Clone, Copy)]
pub enum Change {
    // Its owner's newer confirmation stands for the one held.
    Confirmed(Confirmation),
    // Its current value becomes a reading.
    Raised(GlobalClock),
    // A proof more was written for it; the count stops at the largest number.
    Proved,
}

// The record after a change. Whatever the change does not speak of stays.
//
// Ruled out, among others: a confirmed value written over the current one; a count of proofs that begins again behind a confirmation.
pub fn changed(before: Record, change: Change) -> Record
    ensures { result ≡ changed_by change before }
{
    match change {
        Change::Confirmed(confirmation) => Record {
            held: confirmation,
            ..before
        },
        Change::Raised(reading) => Record {
            current: reading.0,
            ..before
        },
        Change::Proved => Record {
            proofs: before.proofs.saturating_add(1),
            ..before
        },
    }
}
