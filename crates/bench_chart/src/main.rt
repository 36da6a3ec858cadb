// A picture of a run: the input is depot_bench's, and in place of the tablets' figures it prints how full the log is, in up to thirty rows of as many
// rounds: the last round of the row, the requests held behind it, and a bar of one mark for each 16 of them, of which 64 are a full log. Lines that
// the bench would pass over are passed over without a word. The input has at most 4,096 bytes.
#![tactic(auto)]

ghost use Rattle.std.specs.Prelude.{◌<◌};

use bench::bench::{Bench, Stage};
use bench::result::MAX_RESULT;
use console::session::{MAX_LINE, Session};
use forms::image::Image;
use grammar::order::{Order, read_order};
use input::read_full;
use log_image::header::entry_count;
use std::{fmt, io};
use tablets::rounds::{Fleet, run};

const INPUT: usize = 4096;

const ROWS: u32 = 30;

const MARK: u32 = 16;

// Room for what a line that sets the run up could print.
const TEXT: usize = (MAX_LINE + 1) * MAX_RESULT;

// A bar of so many marks.
#[derive(Clone, Copy)]
struct Bar(u32);

impl fmt::Display for Bar {
    fn fmt<W: fmt::Write>(&self, f: &mut fmt::Formatter<W>) -> fmt::Result {
        for _ in 0..self.0 {
            write!(f, "#")?;
        }
        Ok(())
    }
}

fn print_row(rt: &impl Print, round: u32, held: u32) -> io::Result<()> {
    println!(rt; "{round} {held} {}", Bar(held / MARK))
}

// How many rounds a row has; the last one may have fewer.
fn row_length(rounds: u32) -> u32
    ensures { 0 < result }
{
    rounds.div_ceil(ROWS).max(1)
}

fn draw(rt: &impl Print, image: &mut [u8], mut fleet: Fleet, rounds: u32) -> io::Result<()> {
    let length = row_length(rounds);
    for done in (0..rounds).step_by(length as usize) {
        let end = done.saturating_add(length).min(rounds);
        fleet = run(image, fleet, done, end);
        print_row(rt, end, entry_count(image))?;
    }
    Ok(())
}

// The bench behind a line.
fn take_line(rt: &impl Print, line: &[u8], bench: Bench, image: &mut [u8]) -> io::Result<Bench> {
    if MAX_LINE < line.len() {
        return Ok(bench);
    }
    match (read_order(line), bench.stage) {
        (Order::Start(_) | Order::Tablet(_, _, _), _) => Ok(set_up(line, bench, image)),
        (Order::Run(rounds), Stage::Started(_)) => {
            draw(rt, image, bench.fleet, rounds)?;
            Ok(Bench {
                stage: Stage::Ran,
                ..bench
            })
        }
        _ => Ok(bench),
    }
}

// The bench behind a line that sets the run up.
fn set_up(line: &[u8], bench: Bench, image: &mut [u8]) -> Bench {
    let mut text = [0u8; TEXT];
    let mut session = Session::new(bench);
    session.feed(line, image, &mut text);
    session.feed(b"\n", image, &mut text);
    session.taker
}

fn take_lines(rt: &impl Print, input: &[u8], image: &mut [u8]) -> io::Result<()> {
    let mut bench = Bench::new();
    for line in input.split_inclusive(|byte| *byte == b'\n') {
        bench = take_line(rt, line.strip_suffix(b"\n").unwrap_or(line), bench, image)?;
    }
    Ok(())
}

fn main(rt: HostRuntime) -> io::Result<()> {
    let mut input = [0u8; INPUT];
    let len = read_full(&mut rt.stdin(), &mut input)?;
    let mut image = [0u8; Image::LEN];
    take_lines(&rt, &input[..len], &mut image)
}
