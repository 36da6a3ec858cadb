// The owner's confirmation: document 01, "box number, value, clock reading". Its signature is judged elsewhere.
ghost use Rattle.std.specs.Prelude.{◌≡◌};
ghost use Rattle.forms.specs.Bytes.{overwrite};
ghost use Rattle.forms.specs.Limits.{confirmation_len};
ghost use Rattle.forms.specs.Confirmation.{confirmation_at, confirmation_bytes};

use crate::bytes::fits;
use crate::number::{get_u32, put_u32};
use crate::terms::{CounterId, GlobalClock};

#[derive(Clone, Copy, Debug)]
pub struct Confirmation {
    pub id: CounterId,
    pub value: u32,
    pub reading: GlobalClock,
}

impl Confirmation {
    pub const LEN: usize = 12;

    // Where value and reading stand in it.
    pub const VALUE: usize = 4;

    pub const READING: usize = 8;

    pub fn new(id: CounterId, value: u32, reading: GlobalClock) -> Self
        ensures value { result ≡ record { id = id; value = value; reading = reading } }
        ensures len { Confirmation.LEN ≡ confirmation_len }
    {
        Confirmation { id, value, reading }
    }

    // The confirmation at a place of a slice.
    pub fn read(s: &[u8], at: usize) -> Self
        ensures { result ≡ confirmation_at s.now at }
    {
        if s.len() <= at {
            return Confirmation {
                id: CounterId(0),
                value: 0,
                reading: GlobalClock(0),
            };
        }
        Confirmation {
            id: CounterId(get_u32(s, at)),
            value: get_u32(s, at + Confirmation::VALUE),
            reading: GlobalClock(get_u32(s, at + Confirmation::READING)),
        }
    }

    // Stores the confirmation at a place of a slice, or nothing where it does not fit there.
    pub fn write(self, s: &mut [u8], at: usize)
        ensures { s.new ≡ overwrite s.old at (confirmation_bytes self) }
    {
        if !fits(s, at, Confirmation::LEN) {
            return;
        }
        put_u32(s, at, self.id.0);
        put_u32(s, at + Confirmation::VALUE, self.value);
        put_u32(s, at + Confirmation::READING, self.reading.0);
    }
}
