// The host's calls that a line of a table asks for by its word and the first of its figures.
ghost use Rattle.std.specs.Prelude.{◌≡◌};
ghost use Rattle.cases.specs.Cases.{confirmation_of, made, call_of};

use forms::bytes::byte_at;
use forms::confirmation::Confirmation;
use forms::nonce::LEN;
use forms::terms::{CounterId, GlobalClock};
use host::answer::Figures;
use host::close::close;
use host::confirm::confirm;
use host::last::last;
use host::open::open;
use host::prove::prove;
use host::start::start;
use host::tick::tick;
use text::part::{front, least};

// How many figures a call has at most.
pub const FIGURES: usize = 4;

// Room for a nonce that is one byte too long.
const NONCE_ROOM: usize = LEN + 1;

// `start clock`, `open id value reading verdict`, `tick byte length`, `prove byte length id room`, `last id t room`, `confirm id value reading verdict`,
// `close id value reading verdict`.
#[derive(Clone, Copy)]
pub enum Call {
    Start,
    Open,
    Tick,
    Prove,
    Last,
    Confirm,
    Close,
}

fn confirmation(figures: [u32; FIGURES]) -> Confirmation
    ensures { result ≡ confirmation_of figures }
{
    let [id, value, reading, _] = figures;
    Confirmation::new(CounterId(id), value, GlobalClock(reading))
}

impl Call {
    // By the first letter of a line, and of close and confirm by the second too.
    //
    // Ruled out, among others: close taken for confirm; a call for every line.
    pub fn of(line: &[u8]) -> Option<Call>
        ensures { result ≡ call_of line.now }
    {
        match byte_at(line, 0) {
            b's' => Some(Call::Start),
            b'o' => Some(Call::Open),
            b't' => Some(Call::Tick),
            b'p' => Some(Call::Prove),
            b'l' => Some(Call::Last),
            b'c' if byte_at(line, 1) == b'l' => Some(Call::Close),
            b'c' => Some(Call::Confirm),
            _ => None,
        }
    }

    // The answer of the call, which gets as much of the output as its figures say.
    //
    // Ruled out, among others: a verdict that is always yes; a proof that is written past the room that the line gives.
    pub fn made(self, figures: [u32; FIGURES], image: &mut [u8], out: &mut [u8]) -> Figures
        ensures value { result ≡ (made self figures image.old out.old).figures }
        ensures image_after { image.new ≡ (made self figures image.old out.old).image }
        ensures out_after { out.new ≡ (made self figures image.old out.old).out }
    {
        let [first, second, third, fourth] = figures;
        let nonce = [(first % 256) as u8; NONCE_ROOM];
        match self {
            Call::Start => start(image, GlobalClock(first)).into(),
            Call::Open => open(image, confirmation(figures), fourth).into(),
            Call::Tick => tick(image, front(&nonce, second as usize)).into(),
            Call::Prove => {
                let room = least(fourth as usize, out.len());
                prove(
                    image,
                    front(&nonce, second as usize),
                    CounterId(third),
                    &mut out[..room],
                )
                .into()
            }
            Call::Last => {
                let room = least(third as usize, out.len());
                last(
                    image,
                    CounterId(first),
                    GlobalClock(second),
                    &mut out[..room],
                )
                .into()
            }
            Call::Confirm => confirm(image, confirmation(figures), fourth).into(),
            Call::Close => close(image, confirmation(figures), fourth).into(),
        }
    }
}
