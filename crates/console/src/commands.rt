// The program's lines: each is a command over the image, and its answer is printed as number and value.
ghost use Rattle.std.specs.Prelude.{List, ℕ};
ghost use Rattle.std.proofs.Common.{lit≤};
ghost use Rattle.console.specs.Session.{line_answered};
ghost use Rattle.console.specs.Step.{max_answer};

use crate::session::{Line, TakeLine};
use crate::step::{put_answer, step};

// The most bytes of an answer: two numbers of ten digits, a space and a newline.
pub const MAX_ANSWER: usize = 22;

// Takes lines for commands. Beside the image nothing is kept.
#[derive(Clone, Copy)]
pub struct Commands;

impl TakeLine for Commands {
    ghost State = { List ℕ };

    ghost state_of = { λ commands image. image };

    ghost answered = { line_answered };

    ghost MAX_TEXT = { max_answer };

    const MAX_TEXT: usize = MAX_ANSWER;

    fn take_line(&mut self, line: Line, image: &mut [u8], text: &mut [u8], at: usize) -> usize {
        if text.len().saturating_sub(at) < MAX_ANSWER {
            return at;
        }
        put_answer(text, at, step(image, line.command()))
    }

    ghost some = { lit≤ tt };
}
