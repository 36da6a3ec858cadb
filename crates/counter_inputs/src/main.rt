// The program on further inputs, the files of `data` that the arguments name: for each it prints the name and a newline, and then what the program
// writes, each time from an image that is all zero. Long inputs are last, so that a run that is ended early has taken the others:
// - grammar: lines that are none of the commands, and lines at their limits;
// - empty: no input: no output;
// - refusals: refusals of every call and their order; it begins without a start, so that an image left by grammar would show;
// - ceiling: the clock's end;
// - full: a log that fills and is freed by late confirmations;
// - month: thirty days of sixty-four boxes.
#![tactic(auto)]

use input::named::{Program, run_named};
use std::io;
use std::io::{Read, Write};

struct Counter;

impl Program for Counter {
    fn run<R: Read, W: Write>(&self, input: &mut R, output: &mut W) -> io::Result<()> {
        console::run::run(input, output)
    }
}

fn main(rt: HostRuntime) -> io::Result<()> {
    run_named(&rt, &Counter)
}
