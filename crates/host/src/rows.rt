// Tests of document 01's table, each a row or a part of one. All but the last are shared by several calls.
ghost use Rattle.std.specs.Prelude.{◌≡◌, ◌||◌, not, eqb, ltb};
ghost use Rattle.host.specs.Host.{bad_nonce};

use forms::confirmation::Confirmation;
use forms::nonce;
use forms::terms::{CounterId, GlobalClock};

// 16: a confirmation of no counter, or with a value above its reading.
pub(crate) fn bad_confirmation(confirmation: Confirmation) -> bool
    ensures { result ≡ (eqb confirmation.id.0 0 || ltb confirmation.reading.0 confirmation.value) }
{
    confirmation.id == CounterId(0) || confirmation.reading.0 < confirmation.value
}

// 16: a nonce of another length than twenty bytes.
pub(crate) fn bad_nonce(nonce: &[u8]) -> bool
    ensures { result ≡ bad_nonce nonce.now }
{
    nonce.len() != nonce::LEN
}

// 16: no counter, or a bad nonce.
pub(crate) fn bad_request(id: CounterId, nonce: &[u8]) -> bool
    ensures { result ≡ (eqb id.0 0 || bad_nonce nonce.now) }
{
    id == CounterId(0) || bad_nonce(nonce)
}

// 21: an opening later than the clock, or with a value other than its reading.
pub(crate) fn bad_opening(confirmation: Confirmation, now: GlobalClock) -> bool
    ensures { result ≡ (ltb now.0 confirmation.reading.0 || not (eqb confirmation.value confirmation.reading.0)) }
{
    now < confirmation.reading || confirmation.value != confirmation.reading.0
}
