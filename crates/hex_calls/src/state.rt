// The state of a reader of chunks as 550 bytes.
ghost use Rattle.std.specs.Prelude.{◌≡◌, true, false, ◌++◌, ◌+◌, ◌^◌, ◌<◌, ◌≤◌, length, MatchOption};
ghost use Rattle.numbers.specs.Numbered.{refusal_of_number};
ghost use Rattle.hex_calls.specs.Layout.{word_bytes, word_at, stage_bytes, stage_at, StageFits, numbers_of, packed, state_of, fault_in_range, numbers_in_range, is_state};

use hex_chunks::HexChunks;
use hex_chunks::held::HeldLine;
use hex_reader::fault::HexFault;
use hex_reader::progress::Stage;
use numbers::Refusal;
use text::Text;

pub const STATE_SIZE: usize = 550;

const HELD_SIZE: usize = 522;

// Bytes behind the line.
const NUMBERS_SIZE: usize = 28;

// The characters of a line that is too long.
const MOST_HELD: usize = 523;

// Where the numbers stand behind the line.
const COUNT: usize = 0;

const LINE: usize = 8;

const STAGE: usize = 16;

const NUMBER: usize = 17;

const BEGUN: usize = 26;

const OVER: usize = 27;

fn put_word(out: &mut Text<NUMBERS_SIZE>, v: usize)
    requires { length out.old + 8 ≤ 28 }
    ensures text { out.new ≡ out.old ++ word_bytes 8 v }
    ensures size { length out.new ≡ length out.old + 8 }
    ensures fits { v < 2 ^ 64 }
{
    out.put_text(&v.to_le_bytes());
}

fn put_stage(out: &mut Text<NUMBERS_SIZE>, stage: Result<Stage, HexFault>)
    requires { length out.old + 10 ≤ 28 }
    ensures text { out.new ≡ out.old ++ stage_bytes stage }
    ensures size { length out.new ≡ length out.old + 10 }
    ensures fits { StageFits stage }
{
    let (kind, number, line) = match stage {
        Ok(Stage::Going) => (0, 0, 0),
        Ok(Stage::Ended) => (1, 0, 0),
        Err(first) => (2, u8::from(first.refusal), first.line),
    };
    out.put(kind);
    out.put(number);
    put_word(out, line);
}

fn numbers_of(s: HexChunks) -> Text<NUMBERS_SIZE>
    ensures text { result ≡ numbers_of s }
    ensures size { length result ≡ 28 }
    ensures fits { (s.held.count < 2 ^ 64) × (s.line < 2 ^ 64) × (StageFits s.stage) }
{
    let mut numbers = Text::new();
    put_word(&mut numbers, s.held.count);
    put_word(&mut numbers, s.line);
    put_stage(&mut numbers, s.stage);
    numbers.put(u8::from(s.begun));
    numbers.put(u8::from(s.over));
    numbers
}

pub fn pack(s: HexChunks, out: &mut [u8])
    requires { length out.old ≡ 550 }
    ensures { (out.new ≡ packed s) × (state_of out.new ≡ s) × (length out.new ≡ 550) }
{
    out[..HELD_SIZE].copy_from_slice(&s.held.chars);
    out[HELD_SIZE..].copy_from_slice(numbers_of(s).as_slice());
}

fn word_at(b: &[u8], at: usize) -> usize
    requires { at + 8 ≤ length b.now }
    ensures { result ≡ word_at b.now at 8 }
{
    let mut bytes = [0; 8];
    bytes.copy_from_slice(&b[at..at + 8]);
    usize::from_le_bytes(bytes)
}

fn fault_of(number: u8) -> Refusal
    requires { (40 ≤ number) × (number ≤ 45) }
    ensures { result ≡ refusal_of_number number }
{
    match number {
        40 => Refusal::MalformedOrEndWithBytes,
        41 => Refusal::RecordSum,
        42 => Refusal::RecordType,
        43 => Refusal::Past1FFF,
        44 => Refusal::GivenTwice,
        _ => Refusal::EndMissingOrTextAfter,
    }
}

fn stage_at(numbers: &[u8]) -> Result<Stage, HexFault>
    requires { (length numbers.now ≡ 28) × (numbers_in_range numbers.now ≡ true) }
    ensures { result ≡ stage_at numbers.now 16 }
{
    match numbers[STAGE] {
        0 => Ok(Stage::Going),
        1 => Ok(Stage::Ended),
        _ => Err(HexFault {
            refusal: fault_of(numbers[NUMBER]),
            line: word_at(numbers, NUMBER + 1),
        }),
    }
}

fn fault_in_range(stage: u8, number: u8) -> bool
    ensures { result ≡ fault_in_range stage number }
{
    stage != 2 || 40 <= number && number <= 45
}

#[tactic(auto, unfolding(crate::specs::Layout::numbers_in_range))]
fn numbers_in_range(n: &[u8]) -> bool
    requires { length n.now ≡ 28 }
    ensures { result ≡ numbers_in_range n.now }
{
    let marks = n[STAGE] <= 2 && n[BEGUN] <= 1 && n[OVER] <= 1;
    let counts = word_at(n, COUNT) <= MOST_HELD && 1 <= word_at(n, LINE);
    marks && counts && fault_in_range(n[STAGE], n[NUMBER])
}

// None of bytes that are no state's.
pub fn unpack(b: &[u8]) -> Option<HexChunks>
    ensures { MatchOption result (is_state b.now ≡ false) (λ s. (is_state b.now ≡ true) × (s ≡ state_of b.now)) }
{
    if b.len() != STATE_SIZE {
        return None;
    }
    let numbers = &b[HELD_SIZE..];
    if !numbers_in_range(numbers) {
        return None;
    }
    let mut chars = [0; HELD_SIZE];
    chars.copy_from_slice(&b[..HELD_SIZE]);
    Some(HexChunks {
        held: HeldLine {
            chars,
            count: word_at(numbers, COUNT),
        },
        line: word_at(numbers, LINE),
        stage: stage_at(numbers),
        begun: numbers[BEGUN] != 0,
        over: numbers[OVER] != 0,
    })
}
