// A tablet, what its acts came to, and the nonces that it asks with.
ghost use Rattle.std.specs.Prelude.{◌≡◌};
ghost use Rattle.tablets.specs.Tablet.{adopting, blank, nonce_for, refused_full, refused_stale, succeeded};

use forms::nonce;
use forms::nonce::Nonce;
use forms::number::put_u32;
use forms::terms::CounterId;

// The most tablets.
pub const MAX_TABLETS: usize = 32;

#[derive(Clone, Copy)]
pub struct Tablet {
    pub id: CounterId,
    // In rounds; a tablet of period 0 never acts.
    pub period: u32,
    // The value that it believes its box to have.
    pub belief: u32,
    // Raises made, answers 22 and answers 24.
    pub raises: u32,
    pub stale: u32,
    pub full: u32,
}

// What a nonce is for.
pub(crate) const RAISE: u32 = 1;

pub(crate) const PROOF: u32 = 2;

impl Tablet {
    // One that has not acted.
    pub fn new(id: CounterId, period: u32, belief: u32) -> Self
        ensures { result ≡ blank id period belief }
    {
        Tablet {
            id,
            period,
            belief,
            raises: 0,
            stale: 0,
            full: 0,
        }
    }

    // It raised its box.
    pub(crate) fn succeeded(mut self, clock: u32) -> Self
        ensures { result ≡ succeeded self clock }
    {
        self.belief = clock;
        self.raises = self.raises.saturating_add(1);
        self
    }

    // Its belief was not the current value.
    pub(crate) fn refused_stale(mut self) -> Self
        ensures { result ≡ refused_stale self }
    {
        self.stale = self.stale.saturating_add(1);
        self
    }

    // The log was full.
    pub(crate) fn refused_full(mut self) -> Self
        ensures { result ≡ refused_full self }
    {
        self.full = self.full.saturating_add(1);
        self
    }

    // It believes another value from now on.
    pub(crate) fn adopting(mut self, value: u32) -> Self
        ensures { result ≡ adopting self value }
    {
        self.belief = value;
        self
    }
}

// The nonce of a raise or of a proof: what it is for, the round and the tablet's number, which no other of a run has.
pub(crate) fn nonce_for(purpose: u32, round: u32, number: u32) -> Nonce
    ensures { result ≡ nonce_for purpose round number }
{
    let mut nonce = [0u8; nonce::LEN];
    put_u32(&mut nonce, 0, purpose);
    put_u32(&mut nonce, 4, round);
    put_u32(&mut nonce, 8, number);
    nonce
}
