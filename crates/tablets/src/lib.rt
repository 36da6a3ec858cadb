// The bench's tablets: up to 32 of them act in rounds over the real host and desk. Document 02, Note 8, as a library over slices: a tablet, its act,
// and the rounds of a run.
#![tactic(auto)]

pub mod act;
pub mod rounds;
pub mod tablet;
