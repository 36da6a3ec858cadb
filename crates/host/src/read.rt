// read: the current value of a held counter, and how often it was raised since its held confirmation.
ghost use Rattle.std.specs.Prelude.{◌≡◌};
ghost use Rattle.host.specs.Host.{read_call};
ghost use Rattle.host.specs.Outcome.{read_figures_of};

use crate::sound::Sound;
use forms::refusal::Refusal;
use forms::running::Running;
use forms::terms::CounterId;

// Answers 0, the current value and the openings, or refuses by 14, 16 or 17 with both 0. Nothing is written.
//
// Ruled out, among others: a host that answers with the held value; one that shows a value of a counter that it does not hold; one that counts
// the counter's entries from its opening on.
#[tactic(auto, unfolding(crate::specs::Host::answered))]
pub fn read(image: &[u8], id: CounterId) -> Result<Running, Refusal>
    ensures { read_figures_of result ≡ read_call image.now id }
{
    let sound = Sound::of(image)?;
    if id == CounterId(0) {
        return Err(Refusal::Malformed);
    }
    Ok(sound.held(id)?.running())
}
