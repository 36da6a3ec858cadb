// The lines of a table: their figures, and what is printed of them. What does not fit whole into the room for a line is left out.
ghost use Rattle.std.specs.Prelude.{◌≡◌, ◌∷◌, []};
ghost use Rattle.forms.specs.Bytes.{overwrite};
ghost use Rattle.text.specs.Line.{stored_end};
ghost use Rattle.text.specs.Text.{figures_in};
ghost use Rattle.cases.specs.Cases.{asked_of};

use text::figures::read_figures;
use text::line::put_words;
use text::part::{between, find};

// Stores the figures of a line from its first space up to its equals sign, behind which stands what is expected, and answers how many were begun.
//
// Ruled out, among others: a reader that goes on past the equals sign; one that begins behind the first space, and so passes the first figure over.
pub fn read_line(line: &[u8], figures: &mut [u32]) -> usize
    ensures value { result ≡ (figures_in (asked_of line.now) figures.old).count }
    ensures figures_after { figures.new ≡ (figures_in (asked_of line.now) figures.old).stored }
{
    let space = find(line, 0, b' ');
    let end = find(line, space, b'=');
    read_figures(between(line, space, end), figures)
}

// Puts a newline behind the first bytes of a line, and answers where it then ends.
//
// Ruled out, among others: a newline in place of the last of those bytes.
pub fn end_line(line: &mut [u8], len: usize) -> usize
    ensures value { result ≡ stored_end line.old len (10 ∷ []) }
    ensures line_after { line.new ≡ overwrite line.old len (10 ∷ []) }
{
    put_words(line, len, b"\n")
}

// Puts a text into a line, whole or not at all, and a newline behind it, and answers where it then ends.
//
// Ruled out, among others: a writer that cuts the text to the room for a line.
pub fn put_as_is(line: &mut [u8], text: &[u8]) -> usize
    ensures value { result ≡ stored_end (overwrite line.old 0 text.now) (stored_end line.old 0 text.now) (10 ∷ []) }
    ensures line_after { line.new ≡ overwrite (overwrite line.old 0 text.now) (stored_end line.old 0 text.now) (10 ∷ []) }
{
    let end = put_words(line, 0, text);
    end_line(line, end)
}
