// The verdict list: one byte each, 0 no and 1 yes, for the confirmation, in a read's proof the clock certificate, and then for each entry
// the module's and behind it the owner's on each of its requests.
ghost use Rattle.std.specs.Prelude.{◌≡◌};
ghost use Rattle.desk_table.specs.Desk.{verdicts_before, verdicts_for, zero_or_one, own_by, certificate_denied};

use forms::bytes::byte_at;
use forms::request::Request;
use validity::proof::{Kind, Proof};

// How many verdicts there are on a proof of a kind and a whole length: so many a station has to hand over.
//
// Ruled out, among others: a count without the certificate's verdict in kind 1; two verdicts for each entry.
pub fn verdict_count(kind: Kind, len: usize) -> usize
    ensures { result ≡ verdicts_for kind len }
{
    let proof = Proof { kind, count: 0 };
    let entries = len.saturating_sub(proof.log_offset());
    count_before(proof) + entries / Request::LEN
}

// How many verdicts stand before those of the entries: the confirmation's, and in a read's proof the clock certificate's. The first entry's stand from
// that place on, however many entries there are.
//
// Ruled out, among others: a certificate's verdict in kind 2; a number that goes by the count of entries.
pub fn count_before(proof: Proof) -> usize
    ensures { result ≡ verdicts_before proof.kind }
{
    match proof.kind {
        Kind::Read => 2,
        Kind::Increment => 1,
    }
}

// Whether every verdict is 0 or 1; of a list of none, yes. How many there have to be is not asked here. The loop has one way out, so that the
// compiler tests many bytes at once.
//
// Ruled out, among others: a last byte that is not looked at; no to every list.
pub fn zero_or_one(verdicts: &[u8]) -> bool
    ensures { result ≡ zero_or_one verdicts.now }
{
    let mut fine = true;
    for &verdict in verdicts {
        fine = fine & (verdict <= 1);
    }
    fine
}

// Whether an entry is the wanted counter's own: a request of it names the counter, and the owner's verdict on that request is not 0. Where no request
// names the counter the verdict does not count.
//
// Ruled out, among others: an entry taken for the counter's own on the owner's no; one without a request of the counter taken on a yes.
pub fn is_own(named: bool, verdict: u8) -> bool
    ensures { result ≡ own_by named verdict }
{
    named & (verdict != 0)
}

// Check 9 at the clock certificate: whether the verdict on it is no; one that is not there counts as no. An increment's proof has no certificate, and
// this check never refuses it.
//
// Ruled out, among others: the confirmation's verdict taken for the certificate's; an increment's proof refused for the verdict on its first entry.
#[tactic(auto, unfolding(crate::specs::Desk::certificate_denied))]
pub fn certificate_denied(proof: Proof, verdicts: &[u8]) -> bool
    ensures { result ≡ certificate_denied proof.kind verdicts.now }
{
    match proof.kind {
        Kind::Read => byte_at(verdicts, 1) == 0,
        Kind::Increment => false,
    }
}
