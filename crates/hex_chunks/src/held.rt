// The line that a chunk leaves begun, held until it is complete, and then judged by the line reader of whole texts.
ghost use Rattle.std.specs.Prelude.{◌≡◌, List, [], ◌∷◌, ◌++◌, ℕ, ◌≤◌, length, eqb};
ghost use Rattle.hex_reader.specs.Work.{work_size};
ghost use Rattle.hex_reader.specs.Lines.{without_cr};
ghost use Rattle.hex_chunks.specs.Kept.{Kept, Characters, Completes};

use hex_reader::fault::HexFault;
use hex_reader::line::judge;
use hex_reader::lines::without_cr;
use hex_reader::progress::{Stage, after_line};
use numbers::Refusal;

// No record's line has more characters, the CR of its ending among them.
pub const HELD_SIZE: usize = 522;

// One more than that: a line that is too long. The state's bytes for C have this number.
const TOO_LONG: usize = 523;

#[derive(Clone, Copy)]
pub struct HeldLine {
    pub chars: [u8; 522],
    pub count: usize,
}

impl HeldLine {
    pub(crate) fn new() -> HeldLine
        ensures { result.count ≡ 0 }
    {
        HeldLine {
            chars: [0; 522],
            count: 0,
        }
    }

    pub(crate) fn is_empty(&self) -> bool
        ensures { result ≡ eqb self.now.count 0 }
    {
        self.count == 0
    }

    pub(crate) fn clear(&mut self)
        ensures { self.new.count ≡ 0 }
    {
        self.count = 0;
    }

    fn push(&mut self, c: u8)
        ensures { (line : List ℕ) → Kept self.old line → Kept self.new (line ++ (c ∷ [])) }
    {
        if self.count < HELD_SIZE {
            self.chars[self.count] = c;
            self.count += 1;
        } else {
            self.count = TOO_LONG;
        }
    }

    // A part of the line follows what is held.
    pub(crate) fn extend(&mut self, part: &[u8])
        ensures { (line : List ℕ) → Kept self.old line → Kept self.new (line ++ part.now) }
    {
        for c in part {
            self.push(*c);
        }
    }

    // Of a line that is too long none.
    fn characters(&self) -> Option<&[u8]>
        ensures { (line : List ℕ) → Kept self.now line → Characters 523 result line }
    {
        if self.count > HELD_SIZE {
            return None;
        }
        Some(&self.chars[..self.count])
    }
}

// Line n, without its ending; none is a line that is too long to be a record.
fn complete(
    line: Option<&[u8]>,
    n: usize,
    stage: Stage,
    size: usize,
    work: &mut [u8],
) -> Result<Stage, HexFault>
    requires { length work.old ≡ work_size size }
    ensures work_len { length work.new ≡ work_size size }
    ensures by_index { (l : List ℕ) → Characters 522 line.entry l → Completes size l n stage work.old work.new result }
{
    let judged = match line {
        Some(characters) => judge(characters),
        None => Err(Refusal::MalformedOrEndWithBytes),
    };
    after_line(judged, n, stage, size, work)
}

// Line n is complete with its LF.
pub(crate) fn complete_line(
    held: &HeldLine,
    n: usize,
    stage: Stage,
    size: usize,
    work: &mut [u8],
) -> Result<Stage, HexFault>
    requires { length work.old ≡ work_size size }
    ensures work_len { length work.new ≡ work_size size }
    ensures by_index { (line : List ℕ) → Kept held.now line → Completes size (without_cr line) n stage work.old work.new result }
{
    let line = held.characters().map(|characters| without_cr(characters));
    complete(line, n, stage, size, work)
}

// Line n is the last, and ends in nothing.
pub(crate) fn complete_last(
    held: &HeldLine,
    n: usize,
    stage: Stage,
    size: usize,
    work: &mut [u8],
) -> Result<Stage, HexFault>
    requires { length work.old ≡ work_size size }
    ensures work_len { length work.new ≡ work_size size }
    ensures by_index { (line : List ℕ) → Kept held.now line → Completes size line n stage work.old work.new result }
{
    complete(held.characters(), n, stage, size, work)
}
