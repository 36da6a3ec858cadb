// The image that the cases of a table change, and the copy that is kept of it.
ghost use Rattle.std.specs.Prelude.{◌≡◌, replicate, min, take};
ghost use Rattle.cases.specs.Cases.{change_of, image_changed, kept_changed, lent_changed, sealed};

use digest::sha1::sha1;
use forms::bytes::{byte_at, put};
use forms::entry::{Head, entry_len};
use forms::number::put_u32;
use text::part::between;

// How a line changes the image: `word place number`, four bytes of it; `digest place`, the digest of the entry there, which becomes that of its requests as
// they stand; `keep` and `undo`, by which a copy is kept of it and brought back; and `give length`, from which on calls get so many of its bytes.
#[derive(Clone, Copy)]
pub enum Change {
    Word,
    Digest,
    Keep,
    Undo,
    Give,
}

impl Change {
    // By the first letter of a line.
    //
    // Ruled out, among others: undo taken for keep.
    pub fn of(line: &[u8]) -> Option<Change>
        ensures { result ≡ change_of line.now }
    {
        match byte_at(line, 0) {
            b'w' => Some(Change::Word),
            b'd' => Some(Change::Digest),
            b'k' => Some(Change::Keep),
            b'u' => Some(Change::Undo),
            b'g' => Some(Change::Give),
            _ => None,
        }
    }
}

// Gives the entry at a place the digest of its requests as they stand.
fn seal(image: &mut [u8], at: usize)
    ensures { image.new ≡ sealed image.old at }
{
    if image.len() <= at {
        return;
    }
    let end = at + entry_len(Head::count_at(image, at));
    let nonce = sha1(between(image, at + Head::LEN, end));
    put(image, at + Head::NONCE, &nonce);
}

// The room of an image, its copy, and how many of its bytes calls get.
#[derive(Clone, Copy)]
pub struct Table<const ROOM: usize> {
    pub image: [u8; ROOM],
    pub kept: [u8; ROOM],
    pub lent: usize,
}

impl<const ROOM: usize> Table<ROOM> {
    // With nothing in it.
    pub fn new(lent: usize) -> Self
        ensures { result ≡ record { image = replicate ROOM 0; kept = replicate ROOM 0; lent = lent } }
    {
        Table {
            image: [0u8; ROOM],
            kept: [0u8; ROOM],
            lent,
        }
    }

    // Changes it by the first two figures of a line.
    //
    // Ruled out, among others: an undo that takes the image for the copy.
    pub fn change(&mut self, change: Change, at: u32, number: u32)
        ensures image_after { self.new.image ≡ image_changed change at number self.old.image self.old.kept }
        ensures kept_after { self.new.kept ≡ kept_changed change self.old.image self.old.kept }
        ensures lent_after { self.new.lent ≡ lent_changed change at self.old.lent }
    {
        match change {
            Change::Word => put_u32(&mut self.image, at as usize, number),
            Change::Digest => seal(&mut self.image, at as usize),
            Change::Keep => self.kept.copy_from_slice(&self.image),
            Change::Undo => self.image.copy_from_slice(&self.kept),
            Change::Give => self.lent = at as usize,
        }
    }
}
