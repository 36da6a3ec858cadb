// The host: keeps the log image. Document 01, "The host". What a call stores, the crate `log_store` stores.
#![tactic(auto)]

pub mod answer;
mod batch;
pub mod close;
pub mod confirm;
mod entries;
pub mod increment;
pub mod last;
pub mod open;
pub mod prove;
pub mod read;
mod rows;
mod sound;
pub mod start;
pub mod tick;
