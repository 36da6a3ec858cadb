// Why a call refuses: document 01's tables of the desk, the host and the program, with the words that stand there, and those that document 02 adds.
// Each refusal stands once, with its number in those tables and in include/vmc.h; 0, no rule is broken, is no refusal's. In definitions the rows of a
// table have the numbers themselves; the contract of each function that refuses is an equation with such a table, and so ties the name to it.
ghost use Rattle.std.specs.Prelude.{◌≡◌};
ghost use Rattle.forms.specs.Refusal.{outcome_number, refusal_number};

#[derive(Clone, Copy, Debug, PartialEq, Eq)]
pub enum Refusal {
    // ---- the desk

    // Wanted box 0, or wanted nonce not 20 bytes.
    BadWanted = 1,
    // Under 24 bytes.
    TooShort = 2,
    // Another form, or kind not 1 or 2.
    UnknownForm = 3,
    // Over 1,024 entries, requests or ticks, over 8 requests in an entry, or no entry in kind 2.
    BadCount = 4,
    // The bytes lent, the whole length or an offset other than the form's; of fields to be written, bytes that are not so many entries.
    BadLayout = 5,
    // Verdict list of another length, or a byte over 1.
    BadVerdicts = 6,
    // Confirmation of another box, or its value above its reading.
    BadConfirmation = 7,
    // Confirmation's verdict no.
    Unconfirmed = 8,
    // Module's verdict no, on the clock certificate or on an entry.
    Denied = 9,
    // Kind 1: certificate's nonce is not the wanted one; kind 2: the last entry has no signed request of the wanted box and nonce.
    ClosesElsewhere = 10,
    // An entry's t is wrong, or the certificate's reading is.
    WrongReading = 11,
    // Value before is not the running value.
    BrokenChain = 13,
    // An entry's nonce is not its requests' digest; comes after 9 (document 02, Note 7).
    Forged = 30,
    // An entry names a box twice; comes after 30 (Note 7).
    Repeated = 31,

    // ---- the host

    // Image not sound; for start: wrong length.
    Unsound = 14,
    // Verdict not 1.
    Unsigned = 15,
    // Box 0, nonce not 20 bytes, or a confirmation's value above its reading; a batch that is none (Note 7).
    Malformed = 16,
    // Box not held.
    NotHeld = 17,
    // Box already held.
    AlreadyHeld = 18,
    // 64 boxes held.
    TableFull = 19,
    // Confirm: reading below the held one; open: below the log's.
    TooEarly = 20,
    // Reading above the clock; open: value is not the reading; confirm: value is not the box's at that reading; close: reading is not the clock (Note 4).
    Misstated = 21,
    // Value before is not current; close: value is not (Note 4).
    Stale = 22,
    // t is not an entry of the box after its held reading.
    NoEntry = 23,
    // 1,024 requests and ticks held.
    LogFull = 24,
    // Clock at 4,294,967,295.
    ClockEnded = 25,
    // Output too short.
    NoRoom = 26,
    // Open: an entry after the given reading names the box; comes after 21 (Note 4).
    NamedLater = 28,
    // The batch already raised the box; comes before 22 (Note 7).
    RaisedAlready = 29,

    // ---- the program

    // A line that is none of its lines.
    UnknownLine = 27,
}

impl Refusal {
    // Ruled out, among others: two refusals of one number; a refusal of number 0.
    pub fn number(self) -> u32
        ensures { result ≡ refusal_number self }
    {
        self as u32
    }
}

// The number of what a call came to: its refusal's, or 0.
//
// Ruled out, among others: the value in its place; 0 for every call.
pub fn outcome_number<T: Copy>(outcome: Result<T, Refusal>) -> u32
    ensures { result ≡ outcome_number outcome }
{
    match outcome {
        Ok(_) => 0,
        Err(refusal) => refusal.number(),
    }
}
