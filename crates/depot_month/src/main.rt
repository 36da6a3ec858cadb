// A month at the depot: the host's calls in one long order, with the module's history run beside them. Sixty-four counters, tablets that
// come back with old values and share increments, confirmations that come late, a log that fills, and boxes that are scrapped and replaced.
// Every proof that the host writes goes to the desk, and what the desk shows is compared with the history. Proofs are counted for each box, and
// what close answers and what the records have at the end is compared with that count. Beside the image stand the books: the module's history,
// a card for each place, and a tally. The expected output is calculated from the documents and not by this program.
#![tactic(auto)]

mod batch;
mod cards;
mod day;
mod depot;
mod invoice;
mod judge;
mod module;
mod owner;
mod plan;
mod prove;
mod raise;
mod report;
mod retire;
mod tally;

use depot::Depot;
use std::io;

fn main(rt: HostRuntime) -> io::Result<()> {
    let mut depot = Depot::new();
    depot.start();
    for day in 1..=plan::DAYS {
        depot.spend(day);
        depot.report_day(&rt)?;
    }
    depot.take_records();
    depot.report_month(&rt)
}
