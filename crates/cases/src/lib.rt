// What the programs that run tables of cases over the host share: the figures of a line, the calls that both have, the image with the copy that is
// kept of it, and the lines that are printed as they are.
#![tactic(auto)]

pub mod call;
pub mod line;
pub mod table;
