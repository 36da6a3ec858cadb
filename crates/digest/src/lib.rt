// SHA-1 after FIPS 180-4, and whether an entry's nonce is the digest of its requests.
#![tactic(auto)]

mod block;
pub mod seal;
pub mod sha1;
mod word;
