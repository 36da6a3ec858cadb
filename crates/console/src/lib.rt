// The console: lines in, numbers out. Document 01, "The program", as a library over slices: one command over an image, the text of an
// answer, and an input that comes in parts of any cut, whatever it is that takes its lines. `run` alone reads and writes. What a line asks for is the
// crate `grammar`'s.
#![tactic(auto)]

pub mod commands;
pub mod judge;
pub mod run;
pub mod session;
pub mod step;
