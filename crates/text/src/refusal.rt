// A refusal as the programs write it: "refused" and document 01's number in two digits.
ghost use Rattle.std.specs.Prelude.{◌≡◌, ◌++◌, ◌+◌, ◌≤◌, length};
ghost use Rattle.numbers.specs.Numbered.{refusal_number};
ghost use Rattle.text.specs.Refusal.{refused_text, refused_line};

use crate::Text;
use numbers::Refusal;

impl<const N: usize> Text<N> {
    pub fn refused(&mut self, refusal: Refusal)
        requires { length self.old + 10 ≤ N }
        ensures text { self.new ≡ self.old ++ refused_text (refusal_number refusal) }
        ensures size { length self.new ≡ length self.old + 10 }
    {
        self.put_text(b"refused ");
        self.number(10, 2, u32::from(u8::from(refusal)));
    }

    pub fn refused_line(&mut self, refusal: Refusal)
        requires { length self.old + 11 ≤ N }
        ensures text { self.new ≡ self.old ++ refused_line (refusal_number refusal) }
        ensures size { length self.new ≡ length self.old + 11 }
    {
        self.refused(refusal);
        self.put(b'\n');
    }
}
