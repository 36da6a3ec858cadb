// What is printed: a line for each day, and the counts of the whole month.
use crate::depot::Depot;
use crate::tally::mixed;
use forms::refusal::Refusal;
use log_image::header::{counter_count, entry_count};
use std::io;

// Numbers as places of the tally.
const UNSOUND: usize = Refusal::Unsound as usize;

const UNKNOWN_LINE: usize = Refusal::UnknownLine as usize;

const NAMED_LATER: usize = Refusal::NamedLater as usize;

const RAISED_ALREADY: usize = Refusal::RaisedAlready as usize;

fn image_sum(image: &[u8]) -> u32 {
    image
        .iter()
        .fold(1, |sum, byte| mixed(sum, u32::from(*byte)))
}

impl Depot {
    // The clock is the history's: the host's is compared with it at every raise.
    pub(crate) fn report_day(&self, rt: &impl Print) -> io::Result<()> {
        println!(rt;
            "day {}: calls {}, clock {}, counters {}, entries {}, sum {}",
            self.day,
            self.tally.calls,
            self.module.clock().0,
            counter_count(&self.image),
            entry_count(&self.image),
            self.tally.sum
        )
    }

    fn print_openings(&self, rt: &impl Print) -> io::Result<()> {
        let tally = &self.tally;
        println!(rt; "calls of the host: {}", tally.calls)?;
        println!(rt; "openings: {}", tally.openings)?;
        println!(rt;
            "of these of a box in the place of a scrapped one: {}",
            tally.second_boxes
        )?;
        println!(rt; "closings: {}", tally.closings)?;
        println!(rt;
            "of these after which entries fell away: {}",
            tally.closings_cut
        )?;
        println!(rt; "ticks: {}", tally.ticks)
    }

    // Every raise but the first under an increment is one increment less for the module.
    fn print_raises(&self, rt: &impl Print) -> io::Result<()> {
        let raises = self.tally.raises.0;
        let increments = self.tally.increments.0;
        println!(rt; "raises: {raises}")?;
        println!(rt; "increments that carried them: {increments}")?;
        println!(rt;
            "increments saved by sharing: {}",
            raises.saturating_sub(increments)
        )?;
        println!(rt;
            "most raises under one increment: {}",
            self.tally.most_shared
        )
    }

    // By 14 to 26: 27 is the line program's own, and no answer of the host.
    fn print_refusals(&self, rt: &impl Print) -> io::Result<()> {
        let numbers = self.tally.numbers;
        for number in UNSOUND..UNKNOWN_LINE {
            println!(rt; "refused by {number}: {}", numbers[number])?;
        }
        println!(rt; "refused by 28: {}", numbers[NAMED_LATER])?;
        println!(rt; "refused by 29: {}", numbers[RAISED_ALREADY])
    }

    fn print_values(&self, rt: &impl Print) -> io::Result<()> {
        let tally = &self.tally;
        println!(rt; "old values that tablets came with: {}", tally.old_values)?;
        println!(rt;
            "of these held for a week or more: {}",
            tally.week_old_values
        )?;
        println!(rt;
            "confirmations on the day of their proof: {}",
            tally.on_time
        )?;
        println!(rt; "confirmations on a later day: {}", tally.late)?;
        println!(rt; "the latest, in days: {}", tally.latest)?;
        println!(rt; "most entries held: {}", tally.most_entries)?;
        println!(rt; "most requests and ticks in these: {}", tally.most_units)
    }

    fn print_proofs(&self, rt: &impl Print) -> io::Result<()> {
        let tally = &self.tally;
        println!(rt; "proofs up to the clock: {}", tally.proved)?;
        println!(rt; "proofs up to a raise: {}", tally.proved_last)?;
        println!(rt;
            "of these up to an earlier raise than the last: {}",
            tally.proved_earlier
        )?;
        println!(rt; "proofs that the desk accepts: {}", tally.accepted)?;
        println!(rt; "proofs that the desk refuses: {}", tally.desk_refuses)
    }

    fn print_differences(&self, rt: &impl Print) -> io::Result<()> {
        let tally = &self.tally;
        println!(rt;
            "values shown that are not the history's: {}",
            tally.value_differs
        )?;
        println!(rt;
            "openings shown that are not the history's: {}",
            tally.openings_differ
        )?;
        println!(rt;
            "values shown that are not the host's: {}",
            tally.host_differs
        )?;
        println!(rt;
            "closing readings that are not those asked for: {}",
            tally.closing_differs
        )?;
        println!(rt;
            "values read that are not the history's: {}",
            tally.read_differs
        )?;
        println!(rt;
            "clock readings that are not the history's: {}",
            tally.clock_differs
        )
    }

    fn print_invoices(&self, rt: &impl Print) -> io::Result<()> {
        let account = self.tally.invoices;
        println!(rt; "invoices at closings: {}", account.figures)?;
        println!(rt; "proofs on these: {}", account.sum)?;
        println!(rt; "the smallest invoice: {}", account.least.unwrap_or(0))?;
        println!(rt; "the largest invoice: {}", account.greatest)?;
        println!(rt; "invoices that are not the books': {}", account.differ)
    }

    fn print_records(&self, rt: &impl Print) -> io::Result<()> {
        let account = self.tally.records;
        println!(rt; "records at the end of the month: {}", account.figures)?;
        println!(rt; "proofs counted in these: {}", account.sum)?;
        println!(rt; "the smallest figure: {}", account.least.unwrap_or(0))?;
        println!(rt; "the largest figure: {}", account.greatest)?;
        println!(rt; "figures that are not the books': {}", account.differ)
    }

    // No proof is on two accounts or on none: the invoices and the records have all that were written.
    fn print_paid(&self, rt: &impl Print) -> io::Result<()> {
        let tally = &self.tally;
        let paid = tally.invoices.sum.0.saturating_add(tally.records.sum.0);
        let written = tally.proved.0.saturating_add(tally.proved_last.0);
        println!(rt; "proofs on invoices and in records: {paid}")?;
        println!(rt; "proofs written, by the calls: {written}")
    }

    pub(crate) fn report_month(&self, rt: &impl Print) -> io::Result<()> {
        self.print_openings(rt)?;
        self.print_raises(rt)?;
        self.print_refusals(rt)?;
        self.print_values(rt)?;
        self.print_proofs(rt)?;
        self.print_differences(rt)?;
        self.print_invoices(rt)?;
        self.print_records(rt)?;
        self.print_paid(rt)?;
        println!(rt; "sum of the image: {}", image_sum(&self.image))
    }
}
