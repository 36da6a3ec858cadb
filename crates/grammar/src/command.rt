// The lines that the program takes: a name and its figures, one space apart.
ghost use Rattle.std.specs.Prelude.{◌≡◌};
ghost use Rattle.std.specs.Option.{option_map};
ghost use Rattle.forms.specs.Bytes.{same};
ghost use Rattle.grammar.specs.Command.{command_of, words};
ghost use Rattle.grammar.specs.Laws.CommandLaws.{said_by};

use crate::numeral::read_figure;
use forms::confirmation::Confirmation;
use forms::terms::{CounterId, GlobalClock};

// The figures behind a line's name.
#[derive(Clone, Copy, Debug)]
pub enum Arguments {
    One(u32),
    Two(u32, u32),
    Three(u32, u32, u32),
}

// What a line asks for. A byte stands for a nonce of that byte alone.
#[derive(Clone, Copy, Debug)]
pub enum Command {
    Start(GlobalClock),
    Open(Confirmation),
    Tick(u8),
    Increment(u8, CounterId, u32),
    Read(CounterId),
    Prove(u8, CounterId),
    Last(CounterId, GlobalClock),
    Confirm(Confirmation),
    // None of those: document 01's 27.
    Other,
}

// A line's name and the figures behind it; none where there is no figure, more than three, or a word that is none.
pub(crate) fn read_words(line: &[u8]) -> Option<(&[u8], Arguments)>
    ensures { option_map (λ w. (w.0.now, w.1)) result ≡ said_by (words line.now) }
{
    let mut words = line.split(|&byte| byte == b' ');
    let name = words.next()?;
    let first = read_figure(words.next()?)?;
    let Some(second) = words.next() else {
        return Some((name, Arguments::One(first)));
    };
    let second = read_figure(second)?;
    let Some(third) = words.next() else {
        return Some((name, Arguments::Two(first, second)));
    };
    let third = read_figure(third)?;
    match words.next() {
        Some(_) => None,
        None => Some((name, Arguments::Three(first, second, third))),
    }
}

// Whether a word is a name, of any length. A match on byte strings would read better, but the check learns only their length from it.
pub(crate) fn is_name(word: &[u8], name: &[u8]) -> bool
    ensures { result ≡ same word.now name.now }
{
    word == name
}

// The command that a line is, without its newline; `Other` for every line that is none.
//
// Ruled out, among others: a grammar that takes `start 01` or `start +1`; one that cuts a figure too large to its last 32 bits.
pub fn read_command(line: &[u8]) -> Command
    ensures { result ≡ command_of line.now }
{
    let Some((name, figures)) = read_words(line) else {
        return Command::Other;
    };
    match figures {
        Arguments::One(clock) if is_name(name, b"start") => Command::Start(GlobalClock(clock)),
        Arguments::Three(id, value, reading) if is_name(name, b"open") => {
            Command::Open(Confirmation::new(CounterId(id), value, GlobalClock(reading)))
        }
        Arguments::One(n) if is_name(name, b"tick") => {
            u8::try_from(n).map_or(Command::Other, Command::Tick)
        }
        Arguments::Three(n, id, value) if is_name(name, b"inc") => {
            u8::try_from(n).map_or(
                Command::Other,
                |b| Command::Increment(b, CounterId(id), value),
            )
        }
        Arguments::One(id) if is_name(name, b"read") => Command::Read(CounterId(id)),
        Arguments::Two(n, id) if is_name(name, b"prove") => {
            u8::try_from(n).map_or(Command::Other, |b| Command::Prove(b, CounterId(id)))
        }
        Arguments::Two(id, clock) if is_name(name, b"last") => {
            Command::Last(CounterId(id), GlobalClock(clock))
        }
        Arguments::Three(id, value, reading) if is_name(name, b"confirm") => {
            Command::Confirm(Confirmation::new(CounterId(id), value, GlobalClock(reading)))
        }
        _ => Command::Other,
    }
}
