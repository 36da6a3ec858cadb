// The decimal figures of a text.
ghost use Rattle.std.specs.Prelude.{◌≡◌};
ghost use Rattle.text.specs.Text.{figures_in, put_last, with_digit};

// A decimal number and one more digit, whose byte is 48 and the digit, modulo 2^32.
fn with_digit(number: u32, digit: u8) -> u32
    ensures { result ≡ with_digit number digit }
{
    number.wrapping_mul(10).wrapping_add(u32::from(digit % 16))
}

// Stores a figure as the last of so many, where there is room.
#[tactic(auto, unfolding(crate::specs::Text::put_last))]
fn put_last(figures: &mut [u32], count: usize, figure: u32)
    ensures { figures.new ≡ put_last figures.old count figure }
{
    if 0 < count && count <= figures.len() {
        figures[count - 1] = figure;
    }
}

// Stores the figures of a text, each behind a byte that is no digit, where there is room, and answers how many were begun.
//
// Ruled out, among others: a reader that stores a figure before the first such byte; one that counts only the figures that have room.
#[tactic(auto, unfolding(crate::specs::Text::figures_in))]
pub fn read_figures(text: &[u8], figures: &mut [u32]) -> usize
    ensures value { result ≡ (figures_in text.now figures.old).count }
    ensures figures_after { figures.new ≡ (figures_in text.now figures.old).stored }
{
    let mut count: usize = 0;
    let mut figure: u32 = 0;
    for &byte in text {
        if byte.is_ascii_digit() {
            figure = with_digit(figure, byte);
            put_last(figures, count, figure);
        } else {
            figure = 0;
            count += 1;
        }
    }
    count
}
