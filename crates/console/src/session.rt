// An input that comes in parts of any cut: each whole line is taken, and what stands of the next one is kept for the next part. What a line is taken
// for is its taker's: the program's lines are commands, those of the bench are orders.
ghost use Rattle.std.specs.Prelude.{◌≡◌, ◌+◌, ◌-◌, ◌≤◌, ◌<◌, List, ℕ, MatchOption, length, []};
ghost use Rattle.console.specs.Lines.{Answering, Printed, Told, answered_within, begun, byte_taken, closed, ended_session, extended, fed_session, over, pending_of, within};
ghost use Rattle.console.specs.Session.{pending_command};
ghost use Rattle.console.specs.Laws.LinesLaws.{Took, session_at};

use grammar::command::{Command, read_command};

// The most bytes of a line before its newline.
pub const MAX_LINE: usize = 80;

// What stands of a line whose newline has not come yet.
#[derive(Clone, Copy)]
pub struct Line {
    pub bytes: [u8; MAX_LINE],
    // How many bytes have come, of which those past `MAX_LINE` are not kept: a length past the buffer says that the line is too long, which a vector of
    // that room has no place for.
    pub len: usize,
}

impl Line {
    // Nothing has come yet.
    pub fn new() -> Self
        ensures { pending_of result ≡ within [] }
    {
        Line {
            bytes: [0u8; MAX_LINE],
            len: 0,
        }
    }

    // One byte more, which is no newline.
    pub fn extended(mut self, byte: u8) -> Self
        ensures { pending_of result ≡ extended (pending_of self) byte }
    {
        if self.len < MAX_LINE {
            self.bytes[self.len] = byte;
        }
        self.len = self.len.saturating_add(1);
        self
    }

    // Its bytes, if there are no more than a line may have.
    pub fn bytes(&self) -> Option<&[u8]>
        ensures { MatchOption result (pending_of self.now ≡ over) (λ bytes. pending_of self.now ≡ within bytes.now) }
    {
        self.bytes.get(..self.len)
    }

    // The command that it is, if nothing more comes.
    pub fn command(self) -> Command
        ensures { result ≡ pending_command (pending_of self) }
    {
        self.bytes().map_or(Command::Other, read_command)
    }

    // Whether anything has come.
    pub fn begun(self) -> bool
        ensures { result ≡ begun (pending_of self) }
    {
        0 < self.len
    }
}

// What takes the lines of an input, over an image, with what it keeps beside the image from line to line.
pub trait TakeLine {
    // What is kept from line to line, the image and the rest.
    ghost State: { Type 0 };

    ghost state_of: { Self → List ℕ → State };

    // What is answered to a line, as a state and a text.
    ghost answered: { Answering State };

    // The most bytes of the text of an answer.
    ghost MAX_TEXT: { ℕ };

    const MAX_TEXT: usize;

    // Takes the line as it stands, and stores the text of its answer from a place on: the place behind it. With less room than an answer could need,
    // nothing is done.
    fn take_line(&mut self, line: Line, image: &mut [u8], text: &mut [u8], at: usize) -> usize
        ensures { Told (answered_within answered MAX_TEXT (length text.old - at) (state_of self.old image.old) (pending_of line)) MAX_TEXT
            text.old at (state_of self.new image.new) result text.new };

    // Every answer needs some room.
    ghost some: { 0 < MAX_TEXT };
}

// An input so far: what stands of its last line, and what takes its lines.
#[derive(Clone, Copy, Drop)]
pub struct Session<T> {
    pub line: Line,
    pub taker: T,
}

impl<T: TakeLine> Session<T> {
    // Nothing has come yet.
    pub fn new(taker: T) -> Self
        ensures line { pending_of result.line ≡ within [] }
        ensures taker { result.taker ≡ taker }
    {
        Session {
            line: Line::new(),
            taker,
        }
    }

    // Answers the line as it stands, and begins the next.
    fn close_line(&mut self, image: &mut [u8], text: &mut [u8], at: usize) -> usize
        requires { at + T.MAX_TEXT ≤ length text.old }
        ensures took { Took (closed T.answered (session_at self.old.line at (T.state_of self.old.taker image.old) text.old))
            text.old self.new.line result (T.state_of self.new.taker image.new) text.new }
        ensures short { result ≤ at + T.MAX_TEXT }
    {
        let end = self.taker.take_line(self.line, image, text, at);
        self.line = Line::new();
        end
    }

    // Takes one byte of the input.
    fn take_byte(&mut self, byte: u8, image: &mut [u8], text: &mut [u8], at: usize) -> usize
        requires { at + T.MAX_TEXT ≤ length text.old }
        ensures took { Took (byte_taken T.answered (session_at self.old.line at (T.state_of self.old.taker image.old) text.old) byte)
            text.old self.new.line result (T.state_of self.new.taker image.new) text.new }
        ensures short { result ≤ at + T.MAX_TEXT }
    {
        if byte == b'\n' {
            return self.close_line(image, text, at);
        }
        self.line = self.line.extended(byte);
        at
    }

    // Takes a part of the input: what its lines answer stands at the start of the text, up to the length that is handed back, and the line that it
    // ends in is kept. With less room than every byte's answer could need, nothing is taken.
    //
    // Ruled out, among others: a session that loses the line in which a part ends; one that answers a line of over 80 bytes twice.
    pub fn feed(&mut self, part: &[u8], image: &mut [u8], text: &mut [u8]) -> usize
        ensures { Printed (fed_session T.answered T.MAX_TEXT self.old.line (T.state_of self.old.taker image.old) part.now (length text.old))
            text.old self.new.line result (T.state_of self.new.taker image.new) text.new }
    {
        if text.len() / T::MAX_TEXT < part.len() {
            return 0;
        }
        let mut len = 0;
        for &byte in part {
            len = self.take_byte(byte, image, text, len);
        }
        len
    }

    // The end of the input: a line that was begun is answered. With less room than an answer could need, nothing is.
    //
    // Ruled out, among others: a session that prints for an empty line after the last newline; one that drops a last line without newline.
    pub fn finish(&mut self, image: &mut [u8], text: &mut [u8]) -> usize
        ensures { Printed (ended_session T.answered T.MAX_TEXT self.old.line (T.state_of self.old.taker image.old) (length text.old))
            text.old self.new.line result (T.state_of self.new.taker image.new) text.new }
    {
        if text.len() < T::MAX_TEXT || !self.line.begun() {
            return 0;
        }
        self.close_line(image, text, 0)
    }
}
