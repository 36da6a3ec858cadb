// A case is written as a proof, given to the desk, and its answer printed.
use crate::case::Case;
use crate::log::Log;
use desk_table::answer::Figures;
use forms::bytes::put;
use forms::certificate::Certificate;
use forms::confirmation::Confirmation;
use forms::entry::Head;
use forms::nonce::LEN;
use forms::number::{put_u16, put_u32};
use std::io;
use text::line::{put_filled, put_words};
use text::part::front;
use validity::proof::Proof;
use vmc::vmc_desk::vmc_desk_verify;

// Room for a nonce that is one byte too long.
const NONCE_ROOM: usize = LEN + 1;

// Room for the longest proof and a tick behind it.
const PROOF_ROOM: usize = Proof::MAX_LEN + Head::LEN;

// Room for the entries of a line's log, and for its verdicts.
const ENTRIES_ROOM: usize = 2048;

const VERDICTS_ROOM: usize = 64;

// Room for a printed line.
const LINE_ROOM: usize = 256;

// Where the places of the wanted nonce begin, behind all of a proof.
const WANTED: usize = 65536;

// A label that does not fit is left out, as `println!` would not do.
fn print(rt: &impl Print, label: &[u8], shown: Figures) -> io::Result<()> {
    let mut line = [0u8; LINE_ROOM];
    let figures = [
        shown.number,
        shown.value,
        shown.closing,
        shown.place,
        shown.openings,
    ];
    let mut end = put_words(&mut line, 0, label);
    end = put_filled(&mut line, end, b":#####\n", &figures);
    rt.write_all(front(&line, end))
}

// Where the clock certificate and the log stand, by the kind.
fn offsets(kind: u32) -> (u32, u32) {
    if kind == 1 { (36, 60) } else { (0, 36) }
}

// Stores the header, whatever its figures are.
fn put_header(case: Case, len: usize, proof: &mut [u8]) {
    let (certificate, log) = offsets(case.kind);
    put_u16(proof, 0, Proof::FORM);
    put_u16(proof, 2, case.kind);
    put_u32(proof, 4, u32::try_from(len).unwrap_or(u32::MAX));
    put_u32(proof, 8, Proof::CONFIRMATION as u32);
    put_u32(proof, 12, certificate);
    put_u32(proof, 16, log);
    put_u32(proof, 20, case.count);
}

// Stores the proof, and answers its length. In kind 2 the entries stand where the certificate is in kind 1.
fn put_proof(case: Case, entries: &[u8], proof: &mut [u8]) -> usize {
    let (_, log) = offsets(case.kind);
    let log = log as usize;
    let len = log + entries.len();
    put_header(case, len, proof);
    case.confirmation.write(proof, Proof::CONFIRMATION);
    Certificate::new(case.certificate, [5u8; LEN]).write(
        proof,
        Proof::CONFIRMATION + Confirmation::LEN,
    );
    put(proof, log, entries);
    len
}

// Each of the changes is of four bytes of the proof, or of the wanted nonce.
fn change_all(changes: &[u32], proof: &mut [u8], wanted: &mut [u8]) {
    let (changes, _) = changes.as_chunks::<2>();
    for change in changes {
        let [place, number] = *change;
        let at = place as usize;
        if at < WANTED {
            put_u32(proof, at, number);
        } else {
            put_u32(wanted, at - WANTED, number);
        }
    }
}

// The desk's answer to the case with entries and verdicts.
pub(crate) fn judged(
    rt: &impl Print,
    label: &[u8],
    case: Case,
    entries: &[u8],
    verdicts: &[u8],
) -> io::Result<()> {
    let mut proof = [0u8; PROOF_ROOM];
    let mut nonce = [case.nonce; NONCE_ROOM];
    let len = put_proof(case, entries, &mut proof);
    change_all(case.changes, &mut proof, &mut nonce);
    let lent = front(&proof, case.lent.unwrap_or(len));
    let wanted = front(&nonce, case.nonce_len);
    print(rt, label, vmc_desk_verify(lent, verdicts, case.id, wanted))
}

// The same with the figures of a log and the digits of verdicts.
pub(crate) fn answer(
    rt: &impl Print,
    label: &[u8],
    case: Case,
    figures: &[u32],
    digits: &[u8],
) -> io::Result<()> {
    let mut entries = [0u8; ENTRIES_ROOM];
    let mut log = Log::new(&mut entries);
    log.put_all(figures);
    let mut verdicts = [0u8; VERDICTS_ROOM];
    for (verdict, digit) in verdicts.iter_mut().zip(digits) {
        *verdict = digit.saturating_sub(b'0');
    }
    judged(
        rt,
        label,
        case,
        log.sealed(),
        front(&verdicts, digits.len()),
    )
}
