// Stores into a log image: every function that changes an image's bytes. The crate `log_image` below only reads them; the host above says which call
// stores what. No store asks for a sound image: it says of any bytes what it leaves of them, and its law says of which state that is the image.
#![tactic(auto)]

mod bytes;
pub mod change;
pub mod fresh;
pub mod log;
mod place;
pub mod records;
