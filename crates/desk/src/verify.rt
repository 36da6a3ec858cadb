// Verifying a validity proof: document 01's table, check by check.
ghost use Rattle.std.specs.Prelude.{◌≡◌};
ghost use Rattle.desk_table.specs.Answer.{told};
ghost use Rattle.desk.specs.Laws.Refused.{refused_at, refused_if};
ghost use Rattle.desk_table.specs.Desk.{bad_wanted, bad_verdicts, bad_confirmation, judged, verified};

use crate::case::Case;
use desk_table::answer::{Accepted, Answer, Refused};
use desk_table::verdicts;
use forms::bytes::byte_at;
use forms::confirmation::Confirmation;
use forms::nonce;
use forms::refusal::Refusal;
use forms::terms::CounterId;
use validity::proof::{Proof, parse};

// Check 1: whether what is wanted can't be.
#[tactic(auto, unfolding(desk_table::specs::Desk::bad_wanted))]
fn bad_wanted(id: CounterId, nonce: &[u8]) -> bool
    ensures { result ≡ bad_wanted id nonce.now }
{
    id == CounterId(0) || nonce.len() != nonce::LEN
}

// Check 7: whether the confirmation is another counter's, or its value above its reading.
#[tactic(auto, unfolding(desk_table::specs::Desk::bad_confirmation))]
fn bad_confirmation(confirmation: Confirmation, id: CounterId) -> bool
    ensures { result ≡ bad_confirmation confirmation id }
{
    confirmation.id != id || confirmation.reading.0 < confirmation.value
}

// Passes where no entry is refused.
fn refuse_at(place: Option<u32>, refusal: Refusal) -> Result<(), Refused>
    ensures { result ≡ refused_at place refusal }
{
    if let Some(place) = place {
        return Err(Refused { refusal, place });
    }
    Ok(())
}

// Passes where a test that is no entry's does not hold.
fn refuse_if(bad: bool, refusal: Refusal) -> Result<(), Refused>
    ensures { result ≡ refused_if bad refusal }
{
    if bad {
        return Err(refusal.into());
    }
    Ok(())
}

impl Case<'_> {
    // Check 6: whether the list has another length than the proof asks for, or a byte over 1.
    #[tactic(auto, unfolding(desk_table::specs::Desk::bad_verdicts))]
    fn bad_verdicts(&self) -> bool
        ensures { result ≡ bad_verdicts self.now.proof self.now.bytes.now self.now.verdicts.now }
    {
        let count = verdicts::verdict_count(self.proof.kind, self.bytes.len());
        self.verdicts.len() != count || !verdicts::zero_or_one(self.verdicts)
    }

    // Checks 6 to 9, 30, 31, 10, 11 and 13.
    #[tactic(auto, unfolding(desk_table::specs::Desk::judged))]
    fn judge(&self) -> Answer
        ensures { told result ≡ judged self.now.proof self.now.bytes.now self.now.verdicts.now self.now.id self.now.nonce.now }
    {
        let confirmation = Confirmation::read(self.bytes, Proof::CONFIRMATION);
        refuse_if(self.bad_verdicts(), Refusal::BadVerdicts)?;
        refuse_if(
            bad_confirmation(confirmation, self.id),
            Refusal::BadConfirmation,
        )?;
        refuse_if(byte_at(self.verdicts, 0) == 0, Refusal::Unconfirmed)?;
        refuse_if(
            verdicts::certificate_denied(self.proof, self.verdicts),
            Refusal::Denied,
        )?;
        let found = self.walk(confirmation);
        refuse_at(found.denied, Refusal::Denied)?;
        refuse_at(found.forged, Refusal::Forged)?;
        refuse_at(found.repeated, Refusal::Repeated)?;
        refuse_if(self.closes_elsewhere(), Refusal::ClosesElsewhere)?;
        refuse_at(found.wrong, Refusal::WrongReading)?;
        let wrong_closing = self.wrong_closing(confirmation.reading);
        refuse_at(
            wrong_closing.then_some(self.proof.count + 1),
            Refusal::WrongReading,
        )?;
        refuse_at(found.broken, Refusal::BrokenChain)?;
        Ok(Accepted {
            running: found.running,
            closing: self.closing_reading(),
        })
    }
}

// The desk's answer to proof, verdicts, wanted counter and wanted nonce. Nothing is asked of the caller, and nothing is written.
//
// Ruled out, among others: a desk that answers with the last value before instead of the last reading; one that turns every proof away; one that
// counts every counter's entries; one whose value moves, or whose proof closes, by a request that the owner did not sign; one that takes an entry's
// requests for those that the module was given without their digest.
#[tactic(auto, unfolding(desk_table::specs::Desk::verified))]
pub fn verify(proof: &[u8], verdicts: &[u8], id: CounterId, nonce: &[u8]) -> Answer
    ensures { told result ≡ verified proof.now verdicts.now id nonce.now }
{
    refuse_if(bad_wanted(id, nonce), Refusal::BadWanted)?;
    let case = Case {
        bytes: proof,
        proof: parse(proof)?,
        verdicts,
        id,
        nonce,
    };
    case.judge()
}
