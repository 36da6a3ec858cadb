// A case at the desk, as its checks take it.
ghost use Rattle.std.specs.Prelude.{◌≡◌, false, true, length};
ghost use Rattle.forms.specs.Log.{ends_at, walk};
ghost use Rattle.validity.specs.Proof.{miscounted, log_offset};

use forms::terms::CounterId;
use validity::proof::Proof;

// Bytes that read as a proof, the verdicts on it, and the counter and the nonce that are wanted.
#[derive(Clone, Copy)]
pub(crate) struct Case<'a> {
    pub(crate) bytes: &'a [u8],
    pub(crate) proof: Proof,
    pub(crate) verdicts: &'a [u8],
    pub(crate) id: CounterId,
    pub(crate) nonce: &'a [u8],
    ghost counted: { miscounted proof ≡ false },
    ghost ends: { ends_at (walk bytes.now (log_offset proof.kind) proof.count) (length bytes.now) ≡ true },
}
