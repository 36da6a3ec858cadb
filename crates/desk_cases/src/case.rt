// A case at the desk but for its log and its verdicts: what is written, what is then changed of it, and what is wanted.
use forms::confirmation::Confirmation;
use forms::terms::{CounterId, GlobalClock};

// The figures before those of the changes, and room for all.
const FIGURES: usize = 10;

pub const ROOM: usize = 80;

// Stands for a figure that is not given. As a number of bytes lent it stands for all.
pub const NOT_GIVEN: u32 = 65536;

#[derive(Clone, Copy)]
pub struct Case<'a> {
    pub kind: u32,
    pub confirmation: Confirmation,
    // The clock certificate's reading.
    pub certificate: GlobalClock,
    // The wanted counter, and the wanted nonce: a byte, and how often it stands there.
    pub id: u32,
    pub nonce: u8,
    pub nonce_len: usize,
    // How many entries the header counts.
    pub count: u32,
    // How many bytes are lent, where not all are.
    pub lent: Option<usize>,
    // The place and the number of each change.
    pub changes: &'a [u32],
}

impl<'a> Case<'a> {
    // The case of so many figures. Those of the changes stand behind the others.
    pub(crate) fn new(figures: &'a [u32; ROOM], given: usize) -> Self {
        let [
            kind,
            confirmed,
            value,
            reading,
            certificate,
            id,
            nonce,
            nonce_len,
            count,
            lent,
            ..
        ] = *figures;
        Case {
            kind,
            confirmation: Confirmation::new(CounterId(confirmed), value, GlobalClock(reading)),
            certificate: GlobalClock(certificate),
            id,
            nonce: (nonce % 256) as u8,
            nonce_len: nonce_len as usize,
            count,
            lent: (lent != NOT_GIVEN).then_some(lent as usize),
            changes: figures.get(FIGURES..given.min(ROOM)).unwrap_or(&[]),
        }
    }
}
