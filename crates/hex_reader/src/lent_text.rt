// Document 01: "A small struct holding the text slice and position; few thin functions over a covered line reader". The reader goes through the lent text record by record.
ghost use Rattle.std.specs.Prelude.{◌≡◌};
ghost use Rattle.hex_reader.specs.Found.{FoundAt};

use crate::line::{Line, judge};
use crate::lines::line_at;
use numbers::Refusal;

// A text that is lent, and the place where the next record begins.
#[derive(Clone, Copy)]
pub struct HexText<'a> {
    pub text: &'a [u8],
    pub at: usize,
}

impl<'a> HexText<'a> {
    // The next line, judged; or nothing, where the text is over.
    pub fn next(&mut self) -> Option<Result<Line<'a>, Refusal>>
        ensures found { FoundAt self.old.text.now self.old.at result self.new.at }
        ensures same { self.new.text ≡ self.old.text }
    {
        if self.at >= self.text.len() {
            return None;
        }
        let first = line_at(self.text, self.at);
        self.at = first.next;
        Some(judge(first.line))
    }
}
