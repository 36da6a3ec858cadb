// One command over an image, and the text of its answer.
ghost use Rattle.std.specs.Prelude.{◌≡◌, ◌+◌, ◌≤◌, length};
ghost use Rattle.forms.specs.Bytes.{overwrite};
ghost use Rattle.grammar.specs.declared.command.Command.{Command};
ghost use Rattle.host.specs.Host.{read_call};
ghost use Rattle.host.specs.Outcome.{figures_of};
ghost use Rattle.console.specs.Step.{answer_text, max_answer, raised_once, ran, read_figures};

use crate::judge::{show_last, show_prove};
use forms::bytes::put;
use forms::nonce;
use forms::nonce::Nonce;
use forms::refusal::Refusal;
use forms::request::Request;
use forms::terms::CounterId;
use grammar::command::Command;
use host::answer::Figures;
use host::confirm::confirm;
use host::increment::increment;
use host::open::open;
use host::read::read;
use host::start::start;
use host::tick::tick;
use text::line::put_numeral;

// The owner's verdict on every confirmation, and on every request.
pub const YES: u32 = 1;

const SIGNED: [u8; 1] = [1];

// read as a line prints it: number and value.
fn show_read(image: &[u8], id: CounterId) -> Figures
    ensures { result ≡ read_figures (read_call image.now id) }
{
    read(image, id).map(|running| running.value).into()
}

// One request, which the owner signed, as a batch of its own: the clock's new reading, or why it was refused, or its batch as a whole.
//
// Ruled out, among others: a raise that answers a reading where the batch passed as a whole and its request did not; one that states the current
// value as the value before, whatever it is given.
pub fn raise_once(
    image: &mut [u8],
    nonce: Nonce,
    id: CounterId,
    before: u32,
) -> Result<u32, Refusal>
    ensures value { figures_of result ≡ (raised_once image.old nonce id before).figures }
    ensures image_after { image.new ≡ (raised_once image.old nonce id before).image }
{
    let mut requests = [0u8; Request::LEN];
    Request::new(nonce, id, before).write(&mut requests, 0);
    let batch = increment(image, &requests, &SIGNED)?;
    batch.outcome(0)
}

// What a command answers. The image is as the host leaves it; after a refusal, and for a line that is no command, it is as it was.
//
// Ruled out, among others: a console that prints the length of a proof that the desk turns away; one that clears the image at a bad line.
pub fn step(image: &mut [u8], command: Command) -> Figures
    ensures value { result ≡ (ran image.old command).figures }
    ensures image_after { image.new ≡ (ran image.old command).image }
{
    match command {
        Command::Start(clock) => start(image, clock).into(),
        Command::Open(confirmation) => open(image, confirmation, YES).into(),
        Command::Tick(byte) => tick(image, &[byte; nonce::LEN]).into(),
        Command::Increment(byte, id, before) => {
            raise_once(image, [byte; nonce::LEN], id, before).into()
        }
        Command::Read(id) => show_read(image, id),
        Command::Prove(byte, id) => show_prove(image, byte, id),
        Command::Last(id, t) => show_last(image, id, t),
        Command::Confirm(confirmation) => confirm(image, confirmation, YES).into(),
        Command::Other => Figures {
            number: Refusal::UnknownLine.number(),
            value: 0,
        },
    }
}

// Stores the text of an answer from a place on, which has room for it, and answers the place behind it.
pub(crate) fn put_answer(text: &mut [u8], at: usize, figures: Figures) -> usize
    requires { at + max_answer ≤ length text.old }
    ensures value { result ≡ at + length (answer_text figures) }
    ensures text_after { text.new ≡ overwrite text.old at (answer_text figures) }
{
    let number_end = put_numeral(text, at, figures.number);
    put(text, number_end, b" ");
    let value_end = put_numeral(text, number_end + 1, figures.value);
    put(text, value_end, b"\n");
    value_end + 1
}
