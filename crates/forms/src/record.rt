// A counter's record in an image: document 01, "The host", and Notes 2 and 6 of document 02.
ghost use Rattle.std.specs.Prelude.{◌≡◌};
ghost use Rattle.forms.specs.Bytes.{overwrite};
ghost use Rattle.forms.specs.Limits.{record_len};
ghost use Rattle.forms.specs.Record.{record_at, record_bytes, taken};

use crate::bytes::fits;
use crate::confirmation::Confirmation;
use crate::number::{get_u32, put_u32};

#[derive(Clone, Copy)]
pub struct Record {
    // The latest confirmation.
    pub held: Confirmation,
    // The counter's value at the image's clock.
    pub current: u32,
    // How many proofs were written for the counter since it was taken up.
    pub proofs: u32,
}

impl Record {
    // Where the current value stands in it.
    pub const CURRENT: usize = Confirmation::LEN;
    // Where the number of proofs stands in it.
    pub const PROOFS: usize = Record::CURRENT + 4;

    pub const LEN: usize = Record::PROOFS + 4;

    // The record of a counter that is taken up.
    //
    // Ruled out, among others: a record without the confirmed value; one with its reading for it; one that begins with a proof counted.
    pub fn new(held: Confirmation) -> Self
        ensures value { result ≡ taken held }
        ensures len { Record.LEN ≡ record_len }
    {
        Record {
            held,
            current: held.value,
            proofs: 0,
        }
    }

    // The record at a place of a slice.
    //
    // Ruled out, among others: the record behind it; one whose confirmed and current value are exchanged.
    pub fn read(s: &[u8], at: usize) -> Self
        ensures { result ≡ record_at s.now at }
    {
        let held = Confirmation::read(s, at);
        if s.len() <= at {
            return Record {
                held,
                current: 0,
                proofs: 0,
            };
        }
        Record {
            held,
            current: get_u32(s, at + Record::CURRENT),
            proofs: get_u32(s, at + Record::PROOFS),
        }
    }

    // Stores the record at a place of a slice, or nothing where it does not fit there.
    //
    // Ruled out, among others: a record stored in part at the slice's end; one that clears what stands behind it.
    pub fn write(self, s: &mut [u8], at: usize)
        ensures { s.new ≡ overwrite s.old at (record_bytes self) }
    {
        if !fits(s, at, Record::LEN) {
            return;
        }
        self.held.write(s, at);
        put_u32(s, at + Record::CURRENT, self.current);
        put_u32(s, at + Record::PROOFS, self.proofs);
    }
}
