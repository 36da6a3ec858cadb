// The grammar of lines. Document 01, "The program": the command that a line is, and numbers as decimal figures; document 02, Note 8: the order that
// a line of the bench is.
#![tactic(auto)]

pub mod command;
pub mod numeral;
pub mod order;
