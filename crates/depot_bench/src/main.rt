// The bench: document 02, Note 8. Reads lines from standard input: the start clock, tablets with their periods and beliefs, and the number of rounds;
// prints for each tablet how many raises it made and how often it was told 22 and 24.
#![tactic(auto)]

use std::io;

fn main(rt: HostRuntime) -> io::Result<()> {
    bench::run::run(&mut rt.stdin(), &mut io::writer(&rt))
}
