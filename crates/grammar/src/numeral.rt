// Decimal figures without leading zeros, read from a word of a line.
ghost use Rattle.std.specs.Prelude.{◌≡◌};
ghost use Rattle.grammar.specs.Numeral.{figure_of};
ghost use Rattle.grammar.specs.Laws.NumeralLaws.{read_behind, with_digit};

// A number and the digit behind it; none where the byte is no digit or the number is too large.
fn with_digit(number: u32, byte: u8) -> Option<u32>
    ensures { result ≡ with_digit number byte }
{
    let digit = char::from(byte).to_digit(10)?;
    number.checked_mul(10)?.checked_add(digit)
}

// The number that digits stand for; none where a byte is no digit or the number is too large.
fn read_digits(digits: &[u8]) -> Option<u32>
    ensures { result ≡ read_behind 0 digits.now }
{
    digits
        .iter()
        .try_fold(0, |number, &byte| with_digit(number, byte))
}

// The figure that a word is.
pub(crate) fn read_figure(word: &[u8]) -> Option<u32>
    ensures { result ≡ figure_of word.now }
{
    let (first, rest) = word.split_first()?;
    if *first == b'0' && !rest.is_empty() {
        return None;
    }
    read_digits(word)
}
