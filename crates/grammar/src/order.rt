// The lines that the bench takes, of the same words and figures as the program's: document 02, Note 8.
ghost use Rattle.std.specs.Prelude.{◌≡◌};
ghost use Rattle.grammar.specs.Order.{order_of};

use crate::command::{Arguments, is_name, read_words};
use forms::terms::{CounterId, GlobalClock};

// What a line asks of the bench.
#[derive(Clone, Copy, Debug)]
pub enum Order {
    // The clock that it begins with.
    Start(GlobalClock),
    // A tablet's box, its period in rounds and the value that it believes.
    Tablet(CounterId, u32, u32),
    // The number of rounds.
    Run(u32),
    // None of those: document 01's 27.
    Other,
}

// The order that a line is, without its newline; `Other` for every line that is none.
//
// Ruled out, among others: a grammar that takes `run` without a figure for no rounds; one that takes a tablet's period for its belief.
pub fn read_order(line: &[u8]) -> Order
    ensures { result ≡ order_of line.now }
{
    let Some((name, figures)) = read_words(line) else {
        return Order::Other;
    };
    match figures {
        Arguments::One(clock) if is_name(name, b"start") => Order::Start(GlobalClock(clock)),
        Arguments::Three(id, period, belief) if is_name(name, b"tablet") => {
            Order::Tablet(CounterId(id), period, belief)
        }
        Arguments::One(rounds) if is_name(name, b"run") => Order::Run(rounds),
        _ => Order::Other,
    }
}
