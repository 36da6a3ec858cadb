// The clock certificate: document 01, "a reading and the nonce asked with". Its signature is judged elsewhere.
ghost use Rattle.std.specs.Prelude.{◌≡◌};
ghost use Rattle.forms.specs.Bytes.{overwrite, same, window};
ghost use Rattle.forms.specs.Limits.{certificate_len, nonce_len};
ghost use Rattle.forms.specs.Certificate.{certificate_at, certificate_bytes};

use crate::bytes::{fits, put};
use crate::nonce::{self, Nonce};
use crate::number::{get_u32, put_u32};
use crate::terms::GlobalClock;

#[derive(Clone, Copy)]
pub struct Certificate {
    pub reading: GlobalClock,
    pub nonce: Nonce,
}

impl Certificate {
    pub const LEN: usize = 24;

    const NONCE: usize = 4;

    pub fn new(reading: GlobalClock, nonce: Nonce) -> Self
        ensures value { result ≡ record { reading = reading; nonce = nonce } }
        ensures len { Certificate.LEN ≡ certificate_len }
    {
        Certificate { reading, nonce }
    }

    // The reading of the certificate at a place of a slice.
    pub fn reading_at(s: &[u8], at: usize) -> GlobalClock
        ensures { result ≡ (certificate_at s.now at).reading }
    {
        GlobalClock(get_u32(s, at))
    }

    // Whether the certificate at a place of a slice was asked with the nonce given.
    pub fn nonce_is(s: &[u8], at: usize, nonce: &[u8]) -> bool
        ensures { result ≡ same (certificate_at s.now at).nonce (window nonce.now 0 nonce_len) }
    {
        if s.len() <= at {
            return nonce::agree(s, at, nonce);
        }
        nonce::agree(s, at + Certificate::NONCE, nonce)
    }

    // Stores the certificate at a place of a slice, or nothing where it does not fit there.
    pub fn write(self, s: &mut [u8], at: usize)
        ensures { s.new ≡ overwrite s.old at (certificate_bytes self) }
    {
        if !fits(s, at, Certificate::LEN) {
            return;
        }
        put_u32(s, at, self.reading.0);
        let nonce = self.nonce;
        put(s, at + Certificate::NONCE, &nonce);
    }
}
