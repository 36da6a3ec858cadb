// The host for the driver on the server.
ghost use Rattle.std.specs.Prelude.{◌≡◌, length};
ghost use Rattle.forms.specs.Confirmation.{confirmation_of};
ghost use Rattle.forms.specs.Terms.{counter_id, global_clock};
ghost use Rattle.host.specs.Host.{close_call, confirm_call, increment_call, increment_figures, last_call, last_output, open_call};
ghost use Rattle.host.specs.Host.{prove_call, prove_output, read_call, start_call, tick_call};

use forms::confirmation::Confirmation;
use forms::terms::{CounterId, GlobalClock};
use host::answer::{BatchFigures, Figures, ReadFigures};
use host::close::close;
use host::confirm::confirm;
use host::increment::increment;
use host::last::last;
use host::open::open;
use host::prove::prove;
use host::read::read;
use host::start::start;
use host::tick::tick;

// A confirmation from its figures, in the order of the boundary's arguments.
fn confirmation_of(id: u32, value: u32, reading: u32) -> Confirmation
    ensures { result ≡ confirmation_of id value reading }
{
    Confirmation::new(CounterId(id), value, GlobalClock(reading))
}

pub fn vmc_host_start(image: &mut [u8], clock: u32) -> Figures
    ensures value { result ≡ (start_call image.old (global_clock clock)).figures }
    ensures image_after { image.new ≡ (start_call image.old (global_clock clock)).image }
{
    start(image, GlobalClock(clock)).into()
}

pub fn vmc_host_open(image: &mut [u8], id: u32, value: u32, reading: u32, verdict: u32) -> Figures
    ensures value { result ≡ (open_call image.old (confirmation_of id value reading) verdict).figures }
    ensures image_after { image.new ≡ (open_call image.old (confirmation_of id value reading) verdict).image }
{
    let confirmation = confirmation_of(id, value, reading);
    open(image, confirmation, verdict).into()
}

pub fn vmc_host_tick(image: &mut [u8], nonce: &[u8]) -> Figures
    ensures value { result ≡ (tick_call image.old nonce.now).figures }
    ensures image_after { image.new ≡ (tick_call image.old nonce.now).image }
{
    tick(image, nonce).into()
}

pub fn vmc_host_increment(image: &mut [u8], requests: &[u8], verdicts: &[u8]) -> BatchFigures
    ensures value { result ≡ increment_figures image.old requests.now verdicts.now }
    ensures image_after { image.new ≡ (increment_call image.old requests.now verdicts.now).image }
{
    increment(image, requests, verdicts).into()
}

pub fn vmc_host_read(image: &[u8], id: u32) -> ReadFigures
    ensures { result ≡ read_call image.now (counter_id id) }
{
    read(image, CounterId(id)).into()
}

pub fn vmc_host_prove(image: &mut [u8], nonce: &[u8], id: u32, out: &mut [u8]) -> Figures
    ensures value { result ≡ (prove_call image.old nonce.now (counter_id id) (length out.old)).figures }
    ensures image_after { image.new ≡ (prove_call image.old nonce.now (counter_id id) (length out.old)).image }
    ensures out_after { out.new ≡ prove_output image.old nonce.now (counter_id id) out.old }
{
    prove(image, nonce, CounterId(id), out).into()
}

pub fn vmc_host_last(image: &mut [u8], id: u32, t: u32, out: &mut [u8]) -> Figures
    ensures value { result ≡ (last_call image.old (counter_id id) (global_clock t) (length out.old)).figures }
    ensures image_after { image.new ≡ (last_call image.old (counter_id id) (global_clock t) (length out.old)).image }
    ensures out_after { out.new ≡ last_output image.old (counter_id id) (global_clock t) out.old }
{
    last(image, CounterId(id), GlobalClock(t), out).into()
}

pub fn vmc_host_confirm(
    image: &mut [u8],
    id: u32,
    value: u32,
    reading: u32,
    verdict: u32,
) -> Figures
    ensures value { result ≡ (confirm_call image.old (confirmation_of id value reading) verdict).figures }
    ensures image_after { image.new ≡ (confirm_call image.old (confirmation_of id value reading) verdict).image }
{
    let confirmation = confirmation_of(id, value, reading);
    confirm(image, confirmation, verdict).into()
}

pub fn vmc_host_close(image: &mut [u8], id: u32, value: u32, reading: u32, verdict: u32) -> Figures
    ensures value { result ≡ (close_call image.old (confirmation_of id value reading) verdict).figures }
    ensures image_after { image.new ≡ (close_call image.old (confirmation_of id value reading) verdict).image }
{
    let confirmation = confirmation_of(id, value, reading);
    close(image, confirmation, verdict).into()
}
