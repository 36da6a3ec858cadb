// The desk: verifies a validity proof, document 01's "The desk". It knows the contracts of forms, digest, validity and desk_table and nothing else.
#![tactic(auto)]

mod case;
mod closing;
mod increment;
mod log;
mod reader;
pub mod verify;
