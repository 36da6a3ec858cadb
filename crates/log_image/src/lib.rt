// The log image: its bytes, and when it is sound. Document 01, "The host": the image is judged at every call, so each part of the judgement
// is one pass over the bytes as they are lent.
#![tactic(auto)]

pub mod header;
mod hints;
mod log;
pub mod records;
pub mod soundness;
mod whole;
