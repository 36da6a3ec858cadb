// A tablet's act: it tries a raise with its belief, and on 22 and 24 has the host prove and the desk judge, and confirms.
ghost use Rattle.std.specs.Prelude.{◌≡◌};
ghost use Rattle.tablets.specs.Act.{acted, renewed};

use crate::tablet::{PROOF, RAISE, Tablet, nonce_for};
use console::judge::judge;
use console::step::{YES, raise_once};
use forms::confirmation::Confirmation;
use forms::nonce::Nonce;
use forms::refusal::Refusal;
use forms::terms::CounterId;
use host::confirm::confirm;
use host::prove::prove;
use validity::proof::{Kind, Proof};

// Proves, has the desk judge, and on its yes confirms what it shows. Answers the value that the desk shows, or on its no the belief.
fn renew(image: &mut [u8], nonce: Nonce, id: CounterId, belief: u32) -> u32
    ensures value { result ≡ (renewed image.old nonce id belief).belief }
    ensures image_after { image.new ≡ (renewed image.old nonce id belief).image }
{
    let mut out = [0u8; Proof::MAX_LEN];
    let len = prove(image, &nonce, id, &mut out).unwrap_or(0);
    match judge(Kind::Read, len, &out, id, &nonce) {
        Ok(accepted) => {
            let value = accepted.running.value;
            let confirmation = Confirmation::new(id, value, accepted.closing);
            let _ = confirm(image, confirmation, YES);
            value
        }
        Err(_) => belief,
    }
}

// The act of the tablet with a number in a round: the tablet after it. The image is as the host leaves it.
//
// Ruled out, among others: a tablet that adopts a value on which the desk says no; one that confirms its belief instead of the value that the desk
// shows; one that raises again in the act in which it was told 22.
pub fn act(image: &mut [u8], round: u32, number: u32, tablet: Tablet) -> Tablet
    ensures value { result ≡ (acted round number image.old tablet).tablet }
    ensures image_after { image.new ≡ (acted round number image.old tablet).image }
{
    let id = tablet.id;
    let belief = tablet.belief;
    match raise_once(image, nonce_for(RAISE, round, number), id, belief) {
        Ok(clock) => tablet.succeeded(clock),
        Err(Refusal::Stale) => {
            let value = renew(image, nonce_for(PROOF, round, number), id, belief);
            tablet.refused_stale().adopting(value)
        }
        Err(Refusal::LogFull) => {
            renew(image, nonce_for(PROOF, round, number), id, belief);
            tablet.refused_full()
        }
        Err(_) => tablet,
    }
}
