// What a case prints, put into room that the caller has, each part behind the one before. A part that does not fit whole is left out.
use text::line::{put_figure, put_filled, put_words};
use text::part::front;

#[derive(Drop)]
pub struct Out<'a> {
    text: &'a mut [u8],
    end: usize,
}

impl<'a> Out<'a> {
    pub(crate) fn new(text: &'a mut [u8]) -> Self {
        Out { text, end: 0 }
    }

    pub(crate) fn words(&mut self, words: &[u8]) {
        let at = self.end;
        self.end = put_words(self.text, at, words);
    }

    // A figure, behind a space.
    pub(crate) fn figure(&mut self, figure: u32) {
        let at = self.end;
        self.end = put_figure(self.text, at, figure);
    }

    // Words, and for each `#` in them the next figure, behind a space.
    pub(crate) fn filled(&mut self, words: &[u8], figures: &[u32]) {
        let at = self.end;
        self.end = put_filled(self.text, at, words, figures);
    }

    pub(crate) fn verdict(&mut self, verdict: bool) {
        self.words(if verdict { b" yes" } else { b" no" });
    }

    pub(crate) fn written(&self) -> &[u8] {
        front(self.text, self.end)
    }
}
