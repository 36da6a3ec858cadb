// open: takes up a counter by its owner's confirmation, whose value is its reading.
ghost use Rattle.std.specs.Prelude.{◌≡◌};
ghost use Rattle.forms.specs.Refusal.{outcome_number};
ghost use Rattle.log_image.specs.State.{decode};
ghost use Rattle.host.specs.Outcome.{figures_of};
ghost use Rattle.host.specs.Host.{open_call, open_refusal};

use crate::rows::{bad_confirmation, bad_opening};
use crate::sound::Sound;
use forms::confirmation::Confirmation;
use forms::refusal::Refusal;
use log_image::header::{clock, entry_count, table_full};
use log_store::records::add_record;

// The first refusal of an opening on a sound image.
#[tactic(auto, using(log_image::specs::Laws::DecodeLaws::count_entries, crate::proofs::Laws::IndexLaws::few_entries))]
fn open_refusal(sound: Sound, confirmation: Confirmation, verdict: u32) -> Result<(), Refusal>
    ensures { outcome_number result ≡ open_refusal (decode sound.entry.image.now) confirmation verdict }
{
    if verdict != 1 {
        return Err(Refusal::Unsigned);
    }
    if bad_confirmation(confirmation) {
        return Err(Refusal::Malformed);
    }
    if sound.held(confirmation.id).is_ok() {
        return Err(Refusal::AlreadyHeld);
    }
    if table_full(sound.image) {
        return Err(Refusal::TableFull);
    }
    let now = clock(sound.image);
    let base = now.0 - entry_count(sound.image);
    if confirmation.reading.0 < base {
        return Err(Refusal::TooEarly);
    }
    if bad_opening(confirmation, now) {
        return Err(Refusal::Misstated);
    }
    if sound.named_after(confirmation.id, confirmation.reading) {
        return Err(Refusal::NamedLater);
    }
    Ok(())
}

// Answers 0 and the count of counters, or refuses by 14 to 16, 18 to 21 or 28 with value 0 and the image as it was.
//
// Ruled out, among others: a host that takes up a counter that it holds; one that cries a full table at 63 counters; one that takes up a
// closed counter again while the log still has a later entry of it; one that refuses it for an entry that is not later.
#[tactic(auto, unfolding(crate::specs::Host::settled, crate::specs::Host::answered), using(crate::proofs::Laws::SettledLaws::some_number))]
pub fn open(image: &mut [u8], confirmation: Confirmation, verdict: u32) -> Result<u32, Refusal>
    ensures value { figures_of result ≡ (open_call image.old confirmation verdict).figures }
    ensures image_after { image.new ≡ (open_call image.old confirmation verdict).image }
{
    open_refusal(Sound::of(image)?, confirmation, verdict)?;
    Ok(add_record(image, confirmation).unwrap())
}
