// An instruction written, on numbers.
ghost use Rattle.std.specs.Prelude.{◌≡◌};
ghost use Rattle.writer.specs.Writing.{paper_of as codePaper, from_paper as codeFrom};
ghost use Rattle.image_calls.specs.Write.{OfWrite, WriteCall};

use numbers::Refusal;
use sheet::Insn;
use writer::{Code, write};

// What the writer answers, as numbers.
#[derive(Clone, Copy)]
pub struct WriteNumbers {
    pub number: u8,
    pub count: u8,
    pub b0: u8,
    pub b1: u8,
    pub b2: u8,
}

impl From<Result<Code, Refusal>> for WriteNumbers {
    ghost from_gives = { λ answer numbers. codeFrom (codePaper answer) ≡ answer → OfWrite (codePaper answer) numbers };

    fn from(answer: Result<Code, Refusal>) -> WriteNumbers {
        match answer {
            Ok(code) => WriteNumbers {
                number: 0,
                count: code.len,
                b0: code.b0,
                b1: code.b1,
                b2: code.b2,
            },
            Err(refusal) => WriteNumbers {
                number: u8::from(refusal),
                count: 0,
                b0: 0,
                b1: 0,
                b2: 0,
            },
        }
    }
}

pub fn write_call(
    row: u8,
    a: u16,
    b: u8,
    length: &mut u8,
    b0: &mut u8,
    b1: &mut u8,
    b2: &mut u8,
) -> u8
    ensures { WriteCall (record { row = row; a = a; b = b }) result length.new b0.new b1.new b2.new }
{
    let n = WriteNumbers::from(write(Insn { row, a, b }));
    *length = n.count;
    *b0 = n.b0;
    *b1 = n.b1;
    *b2 = n.b2;
    n.number
}
