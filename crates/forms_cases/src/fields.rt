// The fields that a proof's bytes read as, a line each for the confirmation, the clock certificate, the first and the last entry and their requests.
use crate::out::Out;
use crate::sample;
use forms::certificate::Certificate;
use forms::confirmation::Confirmation;
use forms::entry::{Head, entry_len};
use forms::log::log_end;
use forms::nonce::nonce_at;
use forms::request::Request;
use text::checksum::checksum;
use text::part::front;
use validity::proof::{Kind, Proof, parse, parse_number};

// Ends the line with whether a nonce is that of a seed, and whether it is another.
fn put_verdicts<F: Fn(&[u8]) -> bool>(out: &mut Out, seed: u8, is: F)
    requires { F.IsAlwaysCallable is }
{
    out.verdict(is(&sample::nonce(seed)));
    out.verdict(is(&sample::other(seed)));
    out.words(b"\n");
}

// Id, value and reading.
fn put_confirmation(out: &mut Out, s: &[u8]) {
    let read = Confirmation::read(s, Proof::CONFIRMATION);
    let figures = [read.id.0, read.value, read.reading.0];
    out.filled(b"confirmation:###\n", &figures);
}

// The certificate's reading.
fn put_certificate(out: &mut Out, s: &[u8], place: usize) {
    out.filled(b"certificate:#", &[Certificate::reading_at(s, place).0]);
    put_verdicts(out, sample::CERTIFICATE_SEED, |nonce| {
        Certificate::nonce_is(s, place, nonce)
    });
}

// Id, value before and nonce of the request at an offset.
fn put_request(out: &mut Out, s: &[u8], offset: usize, index: u32, seed: u8) {
    let figures = [
        index,
        Request::id_at(s, offset).0,
        Request::before_at(s, offset),
        checksum(&Request::nonce_at(s, offset)),
    ];
    out.filled(b"request#:###", &figures);
    put_verdicts(out, seed, |nonce| Request::nonce_is(s, offset, nonce));
}

// Reading, count and nonce of an entry.
fn put_head(out: &mut Out, entry: &[u8], place: u32) {
    let figures = [
        place,
        Head::reading_at(entry, 0).0,
        Head::count_at(entry, 0),
        checksum(&nonce_at(entry, Head::NONCE)),
    ];
    out.filled(b"entry#:###", &figures);
    put_verdicts(
        out,
        sample::entry_seed(place),
        |nonce| Head::nonce_is(entry, 0, nonce),
    );
}

// The entry at an offset and its requests, a line each.
fn put_entry(out: &mut Out, s: &[u8], offset: usize, place: u32) {
    let Some(entry) = s.get(offset..) else {
        return;
    };
    put_head(out, entry, place);
    for index in 0..Head::count_at(entry, 0) {
        let seed = sample::request_seed(place, index);
        put_request(out, entry, entry_len(index), index, seed);
    }
}

// The first entry, and the last where it is another.
fn put_entries(out: &mut Out, s: &[u8], log: usize, count: u32) {
    if 0 < count {
        put_entry(out, s, log, 0);
    }
    if 1 < count {
        let last = count - 1;
        put_entry(out, s, log_end(s, log, last).offset, last);
    }
}

// The fields of bytes that read as a proof. In kind 2 there is no certificate.
fn put_all(out: &mut Out, s: &[u8]) {
    let Ok(proof) = parse(s) else {
        return;
    };
    put_confirmation(out, s);
    if let Kind::Read = proof.kind {
        put_certificate(out, s, proof.certificate_offset());
    }
    put_entries(out, s, proof.log_offset(), proof.count);
}

// Document 01's number for reading the bytes, and the number of entries.
fn put_reading(out: &mut Out, s: &[u8]) {
    let parsed = parse(s);
    let count = parsed.map_or(0, |proof| proof.count);
    out.filled(b"##", &[parse_number(parsed), count]);
}

// Ends the line with what the first bytes read as and one number for all bytes; then the fields.
pub(crate) fn put_read_back(out: &mut Out, bytes: &[u8], len: usize) {
    let proof = front(bytes, len);
    put_reading(out, proof);
    out.filled(b"#\n", &[checksum(bytes)]);
    put_all(out, proof);
}
