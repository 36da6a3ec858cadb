// The validity proof's form: document 01, "Proof form" and "Writing from fields". Reading a proof's bytes and writing them from fields are
// inverse to each other.
#![tactic(auto)]

pub mod proof;
pub mod writing;
