// Proofs written into an output with room to spare, and read back.
use crate::fields::put_read_back;
use crate::out::Out;
use crate::sample;
use crate::table::{FIGURES, part};
use forms::certificate::Certificate;
use forms::confirmation::Confirmation;
use forms::terms::{CounterId, GlobalClock};
use validity::writing::{write, write_number};

// `write kind entries counter value reading certificate place bytes`: the confirmation, the reading of the certificate, and the place and the number
// of the entries' bytes. Puts number and value, what the bytes written read as and the whole output; then the fields read back.
pub(crate) fn case(out: &mut Out, figures: &[u32; FIGURES], entries: &[u8]) {
    let [
        kind,
        count,
        counter,
        value,
        reading,
        certificate,
        place,
        len,
        ..
    ] = *figures;
    let confirmation = Confirmation::new(CounterId(counter), value, GlobalClock(reading));
    let nonce = sample::nonce(sample::CERTIFICATE_SEED);
    let certificate = Certificate::new(GlobalClock(certificate), nonce);
    let log = part(entries, place, len);
    let mut proof = [sample::UNTOUCHED; sample::OUTPUT_LEN];
    let written = write(kind, confirmation, certificate, count, log, &mut proof);
    let len = written.unwrap_or(0);
    out.filled(b"##", &[write_number(written), len]);
    put_read_back(out, &proof, len as usize);
}
