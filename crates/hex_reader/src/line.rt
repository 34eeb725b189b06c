// One line of Intel HEX, without its ending: a data record, the end record, or its first fault.
ghost use Rattle.std.specs.Prelude.{◌≡◌, true, ◌+◌, ◌<◌, ◌≤◌, ◌%◌, length, get_or};
ghost use Rattle.text.specs.Words.{all_digits};
ghost use Rattle.text.specs.Hexadecimal.{digit_of};
ghost use Rattle.hex_reader.specs.Record.{byte_of, bytes_of, total, is_record};
ghost use Rattle.hex_reader.specs.Reads.{Judges};

use numbers::Refusal;
use text::hexadecimal::digit;

// Where a record's fields stand in its line; five bytes and the mark make the shortest record.
const RECLEN: usize = 1;

const LOAD_OFFSET: usize = 3;

const RECTYP: usize = 7;

const DATA: usize = 9;

const SHORTEST: usize = 11;

const DATA_RECORD: u8 = 0;

const END_RECORD: u8 = 1;

// What a line without a fault is: a data record by its address and the digits of its bytes, or the end record.
#[derive(Clone, Copy)]
pub enum Line<'a> {
    Data { address: usize, digits: &'a [u8] },
    End,
}

// The value of a digit of either case.
fn digit_value(c: u8) -> u8
    requires { digit_of c < 16 }
    ensures { result ≡ digit_of c }
{
    digit(c).unwrap()
}

// The byte of the two digits at a place.
pub(crate) fn byte_at(text: &[u8], at: usize) -> u8
    requires { (at + 1 < length text.now) × (digit_of (get_or text.now at 0) < 16) × (digit_of (get_or text.now (at + 1) 0) < 16) }
    ensures { result ≡ byte_of (get_or text.now at 0) (get_or text.now (at + 1) 0) }
{
    16 * digit_value(text[at]) + digit_value(text[at + 1])
}

fn are_digits(characters: &[u8]) -> bool
    ensures { result ≡ all_digits 16 characters.now }
{
    characters.iter().all(|c| digit(*c).is_some())
}

// The sum of the bytes that digits in pairs write, modulo 256.
fn sum_of(digits: &[u8]) -> u8
    requires { all_digits 16 digits.now ≡ true }
    ensures { result ≡ total (bytes_of digits.now) % 256 }
{
    let mut sum: u8 = 0;
    for pair in digits.chunks_exact(2) {
        sum = sum.wrapping_add(byte_at(pair, 0));
    }
    sum
}

fn is_record(line: &[u8]) -> bool
    ensures { result ≡ is_record line.now }
{
    line.len() >= SHORTEST
        && line[0] == b':'
        && are_digits(&line[RECLEN..])
        && line.len() == SHORTEST + 2 * usize::from(byte_at(line, RECLEN))
}

fn judge_record(line: &[u8]) -> Result<Line<'_>, Refusal>
    requires { is_record line.now ≡ true }
    ensures { Judges line.now result }
{
    let count = byte_at(line, RECLEN);
    let kind = byte_at(line, RECTYP);
    if kind == END_RECORD && count != 0 {
        return Err(Refusal::MalformedOrEndWithBytes);
    }
    if sum_of(&line[RECLEN..]) != 0 {
        return Err(Refusal::RecordSum);
    }
    match kind {
        DATA_RECORD => Ok(Line::Data {
            address: 256 * usize::from(byte_at(line, LOAD_OFFSET))
                + usize::from(byte_at(line, LOAD_OFFSET + 2)),
            digits: &line[DATA..DATA + 2 * usize::from(count)],
        }),
        END_RECORD => Ok(Line::End),
        _ => Err(Refusal::RecordType),
    }
}

pub fn judge(line: &[u8]) -> Result<Line<'_>, Refusal>
    ensures { Judges line.now result }
{
    if is_record(line) {
        judge_record(line)
    } else {
        Err(Refusal::MalformedOrEndWithBytes)
    }
}
