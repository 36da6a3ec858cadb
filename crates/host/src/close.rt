// close: takes a counter out by its owner's confirmation at the clock and the current value, then drops the entries no longer needed.
ghost use Rattle.std.specs.Prelude.{◌≡◌};
ghost use Rattle.forms.specs.Refusal.{outcome_number};
ghost use Rattle.log_image.specs.State.{decode};
ghost use Rattle.host.specs.Outcome.{figures_of};
ghost use Rattle.host.specs.Host.{close_call, close_refusal};

use crate::rows::bad_confirmation;
use crate::sound::Sound;
use forms::confirmation::Confirmation;
use forms::refusal::Refusal;
use log_image::header::clock;
use log_store::log::cut;
use log_store::records::remove_record;

// The first refusal of a closing on a sound image.
fn close_refusal(sound: Sound, confirmation: Confirmation, verdict: u32) -> Result<(), Refusal>
    ensures { outcome_number result ≡ close_refusal (decode sound.entry.image.now) confirmation verdict }
{
    if verdict != 1 {
        return Err(Refusal::Unsigned);
    }
    if bad_confirmation(confirmation) {
        return Err(Refusal::Malformed);
    }
    let counter = sound.held(confirmation.id)?;
    if confirmation.reading != clock(sound.image) {
        return Err(Refusal::Misstated);
    }
    if confirmation.value != counter.current() {
        return Err(Refusal::Stale);
    }
    Ok(())
}

// Answers 0 and the number of proofs written for the counter since it was opened, or refuses by 14 to 17, 21 or 22 with value 0 and the image as
// it was.
//
// Ruled out, among others: a host that answers with the number of counters left, or of another counter's proofs; one that leaves the bytes of
// the last record behind the others; one that cuts the log at the newest reading left; one that closes by a confirmation older than the clock.
#[tactic(auto, unfolding(crate::specs::Host::settled, crate::specs::Host::answered), using(crate::proofs::Laws::SettledLaws::some_number))]
pub fn close(image: &mut [u8], confirmation: Confirmation, verdict: u32) -> Result<u32, Refusal>
    ensures value { figures_of result ≡ (close_call image.old confirmation verdict).figures }
    ensures image_after { image.new ≡ (close_call image.old confirmation verdict).image }
{
    close_refusal(Sound::of(image)?, confirmation, verdict)?;
    let value = remove_record(image, confirmation.id).unwrap();
    cut(image);
    Ok(value)
}
