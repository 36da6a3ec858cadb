// The forms that desk and host share: document 01's words as types, their limits, the byte forms of numbers, confirmations, an image's
// records, clock certificates and log entries, and a counter's running value. Every read and every write is total: bytes that are not there read
// as 0, and what does not fit is not stored.
#![tactic(auto)]

pub mod bytes;
pub mod certificate;
pub mod confirmation;
pub mod entry;
pub mod event;
pub mod image;
pub mod log;
pub mod nonce;
pub mod number;
pub mod record;
pub mod refusal;
pub mod request;
pub mod requests;
pub mod running;
pub mod terms;
