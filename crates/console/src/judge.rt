// prove and last as lines ask for them: the host writes the proof, and the desk judges it with every verdict yes.
ghost use Rattle.std.specs.Prelude.{◌≡◌, take, true};
ghost use Rattle.forms.specs.Entry.{entries_at};
ghost use Rattle.forms.specs.Limits.{image_log_offset};
ghost use Rattle.log_image.specs.Sound.{laid_out};
ghost use Rattle.log_image.specs.State.{entry_count};
ghost use Rattle.desk_table.specs.Answer.{told};
ghost use Rattle.desk_table.specs.Desk.{verified};
ghost use Rattle.grammar.specs.declared.command.Command.{Command};
ghost use Rattle.console.specs.Step.{desk_figures, ran, yes_for};
ghost use Rattle.console.specs.Laws.StepLaws.{FoundIn, FoundNonce};

use desk::verify::verify;
use desk_table::answer;
use desk_table::answer::Answer;
use desk_table::verdicts::verdict_count;
use forms::entry::{Head, entry_len};
use forms::image::Image;
use forms::nonce;
use forms::nonce::Nonce;
use forms::request::Request;
use forms::requests::find;
use forms::terms::{CounterId, GlobalClock};
use host::answer::Figures;
use host::last::last;
use host::prove::prove;
use log_image::header::{entry_count, laid_out};
use text::part::front;
use validity::proof::{Kind, Proof};

// The most verdicts on a proof: on the confirmation, on the certificate, and two on each entry of one request.
const MAX_VERDICTS: usize = 2 + 2 * (Proof::MAX_UNITS as usize);

// The desk's answer to the proof of a kind at the start of an output, with every verdict yes. The output is lent with its room, as it was written,
// and cut to the proof here, once.
//
// Ruled out, among others: a desk that gets the whole output, with what an earlier proof left there; one that is told no where there is nobody to
// say yes.
pub fn judge(kind: Kind, len: u32, out: &[u8], id: CounterId, nonce: &[u8]) -> Answer
    ensures { told result ≡ verified (take len out.now) (yes_for kind len) id nonce.now }
{
    let yes = [1u8; MAX_VERDICTS];
    let verdicts = front(&yes, verdict_count(kind, len as usize));
    verify(front(out, len as usize), verdicts, id, nonce)
}

// Of the desk's answer, number and value.
fn show(answer: Answer) -> Figures
    ensures { result ≡ desk_figures (told answer) }
{
    let figures = answer::Figures::from(answer);
    Figures {
        number: figures.number,
        value: figures.value,
    }
}

// prove, and the desk's answer where a proof was written.
pub(crate) fn show_prove(image: &mut [u8], byte: u8, id: CounterId) -> Figures
    ensures value { result ≡ (ran image.old (Command.Prove byte id)).figures }
    ensures image_after { image.new ≡ (ran image.old (Command.Prove byte id)).image }
{
    let nonce = [byte; nonce::LEN];
    let mut out = [0u8; Proof::MAX_LEN];
    let written = prove(image, &nonce, id, &mut out);
    let Ok(len) = written else {
        return written.into();
    };
    show(judge(Kind::Read, len, &out, id, &nonce))
}

// The nonce of a counter's request in the entry with a reading, where one of the entries of the log is that.
fn nonce_among(image: &[u8], id: CounterId, t: GlobalClock, count: u32) -> Nonce
    requires { (laid_out image.now ≡ true) × (count ≡ entry_count image.now) }
    ensures { FoundNonce id t (entries_at image.now image_log_offset count) result }
{
    let mut offset = Image::LOG;
    for _ in 0..count {
        let requests = Head::count_at(image, offset);
        if Head::reading_at(image, offset) == t {
            let index = find(image, offset + Head::LEN, requests, id);
            if index < requests {
                return Request::nonce_at(
                    image,
                    offset + Head::LEN + Request::LEN * (index as usize),
                );
            }
        }
        offset += entry_len(requests);
    }
    [0u8; nonce::LEN]
}

// The nonce of a counter's request in the entry with a reading, where the image has its layout.
fn request_nonce(image: &[u8], id: CounterId, t: GlobalClock) -> Nonce
    ensures { FoundIn id t image.now result }
{
    if !laid_out(image) {
        return [0u8; nonce::LEN];
    }
    nonce_among(image, id, t, entry_count(image))
}

// last, and the desk's answer where a proof was written.
pub(crate) fn show_last(image: &mut [u8], id: CounterId, t: GlobalClock) -> Figures
    ensures value { result ≡ (ran image.old (Command.Last id t)).figures }
    ensures image_after { image.new ≡ (ran image.old (Command.Last id t)).image }
{
    let nonce = request_nonce(image, id, t);
    let mut out = [0u8; Proof::MAX_LEN];
    let written = last(image, id, t, &mut out);
    let Ok(len) = written else {
        return written.into();
    };
    show(judge(Kind::Increment, len, &out, id, &nonce))
}
