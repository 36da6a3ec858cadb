// Text put into a lent buffer from a place on: words, a number, a figure behind a space, and words with figures in them. Each function answers
// the place behind what it put. What does not fit whole from its place on is not stored, and that place is answered.
ghost use Rattle.std.specs.Prelude.{◌≡◌};
ghost use Rattle.forms.specs.Bytes.{overwrite};
ghost use Rattle.text.specs.Line.{figure_at, filled_in, numeral, spaced, stored_end};

use forms::bytes::put;

// The digits that the library writes at most, and those of a number of 32 bits behind a space.
const DIGITS: usize = 20;

const FIGURE: usize = 11;

// Ruled out, among others: a writer that stores the words for which there is room; one that answers the place behind words that it did not store.
#[tactic(auto, unfolding(crate::specs::Line::stored_end, forms::specs::Bytes::overwrite))]
pub fn put_words(text: &mut [u8], at: usize, words: &[u8]) -> usize
    ensures value { result ≡ stored_end text.old at words.now }
    ensures text_after { text.new ≡ overwrite text.old at words.now }
{
    if text.len() < at || text.len() - at < words.len() {
        return at;
    }
    put(text, at, words);
    at + words.len()
}

// Stores a number's digits.
//
// Ruled out, among others: a writer that stores the digits for which there is room; one that asks for room for ten digits to store one.
pub fn put_numeral(text: &mut [u8], at: usize, number: u32) -> usize
    ensures value { result ≡ stored_end text.old at (numeral number) }
    ensures text_after { text.new ≡ overwrite text.old at (numeral number) }
{
    let mut digits = [0u8; DIGITS];
    let count = io::decimal(number as u64, &mut digits);
    put_words(text, at, &digits[..count])
}

// Stores a space and a number's digits.
//
// Ruled out, among others: a writer that stores the space where the digits have no room; one with a space behind the digits too.
pub fn put_figure(text: &mut [u8], at: usize, figure: u32) -> usize
    ensures value { result ≡ stored_end text.old at (spaced figure) }
    ensures text_after { text.new ≡ overwrite text.old at (spaced figure) }
{
    let mut digits = [b' '; FIGURE];
    let end = put_numeral(&mut digits, 1, figure);
    put_words(text, at, &digits[..end])
}

// Stores words, and for each `#` in them the next figure, behind a space.
//
// Ruled out, among others: a writer that stores the `#` as well; one that begins again with the first figure where there are no more.
pub fn put_filled(text: &mut [u8], at: usize, words: &[u8], figures: &[u32]) -> usize
    ensures value { result ≡ (filled_in text.old at words.now figures.now).end }
    ensures text_after { text.new ≡ (filled_in text.old at words.now figures.now).text }
{
    let mut end = at;
    let mut left = figures.iter();
    for &byte in words {
        if byte != b'#' {
            end = put_words(text, end, &[byte]);
        } else if let Some(figure) = left.next() {
            end = put_figure(text, end, *figure);
        }
    }
    end
}
