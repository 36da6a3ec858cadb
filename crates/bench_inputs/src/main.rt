// The bench on further inputs, the files of `data` that the arguments name: for each it prints the name and a newline, and then what the bench
// writes, each time from an image that is all zero. The longest input is last, so that a run that is ended early has taken the others:
// - small: three tablets of two boxes;
// - idle: as many rounds as a figure of 32 bits can say, in few of which a tablet acts, up to the clock's end;
// - faults: lines that are none, in every place, and a clock near its end;
// - month: a month of thirty-two tablets.
#![tactic(auto)]

use input::named::{Program, run_named};
use std::io;
use std::io::{Read, Write};

struct Depot;

impl Program for Depot {
    fn run<R: Read, W: Write>(&self, input: &mut R, output: &mut W) -> io::Result<()> {
        bench::run::run(input, output)
    }
}

fn main(rt: HostRuntime) -> io::Result<()> {
    run_named(&rt, &Depot)
}
