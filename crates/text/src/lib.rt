// What the programs over text share: parts of a slice of bytes, one number for many bytes, the figures of a text, and text put into a buffer.
#![tactic(auto)]

pub mod checksum;
pub mod figures;
pub mod line;
pub mod part;
