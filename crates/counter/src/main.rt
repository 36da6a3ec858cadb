// The program: document 01, "The program". Reads lines from standard input and prints number and value of each.
#![tactic(auto)]

use std::io;

fn main(rt: HostRuntime) -> io::Result<()> {
    console::run::run(&mut rt.stdin(), &mut io::writer(&rt))
}
