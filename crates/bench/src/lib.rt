// The bench: lines in, the figures of a run of tablets out. Document 02, Note 8, as a library over slices: the orders that set a run up, the text of
// its result, and an input that comes in parts of any cut. `run` alone reads and writes. What a line orders is the crate `grammar`'s; a tablet's act
// and the rounds of a run are the crate `tablets`'s.
#![tactic(auto)]

pub mod bench;
pub mod result;
pub mod run;
