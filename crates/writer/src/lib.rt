// The writer: from an instruction to its bytes.
#![tactic(auto)]

ghost use Rattle.std.specs.Prelude.{◌≡◌, ◌<◌};
ghost use Rattle.writer.specs.Spelling.{spelling, placed, far_spelled, first_byte, second_byte, behind};
ghost use Rattle.sheet.specs.Table.{line_at};
ghost use Rattle.writer.specs.Writing.{Writes};

use numbers::Refusal;
use sheet::{Insn, rows};

// By a row's number, twelve to a line: its first byte and its second with 0 for the bits of operands.
const FIRST: [u8; 108] = *b"\
    \x00\x6A\x5A\x65\x67\x90\x4E\xD0\x80\x69\x59\x7D\
    \x7F\x48\xA0\x76\x74\x50\x51\x70\x49\x6E\x71\x6E\
    \x6E\x6E\x5C\x7C\x5D\x5E\x7E\x5F\x6E\x72\x6E\x6E\
    \x7B\x6E\x6E\x78\x6E\x79\x68\x66\x64\x58\x4C\x00\
    \xC0\x55\x4B\x6B\x73\x6E\xB0\x6E\xF0\x6D\x60\x6C\
    \xF4\x6D\x62\x6C\x6C\xF8\xFC\x6D\x61\x6C\x6D\x40\
    \xE0\x4F\x6F\x6F\x4A\x6F\x6F\x53\x52\x5B\x63\x63\
    \x63\x75\x4D\x56\x6A\x6A\x6A\x6A\x6A\x6A\x6A\x6A\
    \x6A\x6A\x69\x69\x69\x69\x69\x69\x69\x69\x69\x69";

const SECOND: [u8; 108] = *b"\
    \x00\x00\x00\x00\x00\x00\x00\x00\x00\x00\x00\x00\
    \x00\x00\x00\x00\x00\x00\x00\x00\x00\x50\x00\x90\
    \x10\xD0\x00\x00\x00\x00\x00\x00\x70\x00\xF0\x60\
    \x00\xE0\x40\x00\xC0\x00\x00\x00\x00\x00\x00\x00\
    \x00\xC0\x00\x00\x00\xB0\x00\x30\x00\xC0\x00\xC0\
    \x00\x40\x00\x40\x00\x00\x00\x00\x00\x80\x80\x00\
    \x00\x00\x40\xC0\x00\x00\x80\x00\x00\x00\xC0\x80\
    \x40\x00\x00\x00\xFC\xFD\xFE\xFF\xF4\xF5\xF6\xF8\
    \xF9\xFA\xFC\xFD\xFE\xFF\xF4\xF5\xF6\xF8\xF9\xFA";

// How many digits stand behind the last one of the first operand, in a code of six digits.
const BEHIND: [u8; 108] = *b"\
    020004244200\
    034000003202\
    220000002022\
    022020200024\
    203202424303\
    430334430332\
    400030000022\
    200000000000\
    000000000000";

fn first_byte(row: u8) -> u8
    requires { row < 108 }
    ensures { result ≡ first_byte (line_at row) }
{
    FIRST[row as usize]
}

fn second_byte(row: u8) -> u8
    requires { row < 108 }
    ensures { result ≡ second_byte (line_at row) }
{
    SECOND[row as usize]
}

fn digits_behind(row: u8) -> u8
    requires { row < 108 }
    ensures { result ≡ behind (line_at row) }
{
    BEHIND[row as usize] % 16
}

// The code of an instruction: so many bytes of the three, and 0 for the others.
#[derive(Clone, Copy)]
pub struct Code {
    pub len: u8,
    pub b0: u8,
    pub b1: u8,
    pub b2: u8,
}

// An operand with so many digits behind it.
fn place(operand: u16, behind: u8) -> u64
    ensures { (result ≡ placed operand behind) × (result < 4294967296) }
{
    let n = operand as u64;
    match behind {
        4 => n * 65536,
        3 => n * 4096,
        2 => n * 256,
        _ => n,
    }
}

// SLBR: 55h for an address from 1000h, 57h for one below.
fn spell_far(a: u16) -> u64
    ensures { result ≡ far_spelled a }
{
    if 4095 < a {
        0x55B000 + a as u64
    } else {
        0x57C000 + a as u64
    }
}

// The six digits that an instruction of a row has, whether or not they are a code of it, as a number.
#[tactic(auto, unfolding(crate::specs::Spelling::spelling))]
fn spell(i: Insn) -> u64
    requires { i.row < 108 }
    ensures { result ≡ spelling i }
{
    if i.row == rows::SLBR {
        return spell_far(i.a);
    }
    let first = first_byte(i.row) as u64;
    let second = second_byte(i.row) as u64;
    first * 65536 + (second + i.b as u64) * 256 + place(i.a, digits_behind(i.row))
}

// The public writer: an instruction has the code that it spells, if that reads as the instruction, and no other.
pub fn write(i: Insn) -> Result<Code, Refusal>
    ensures { Writes i result }
{
    if 107 < i.row {
        return Err(Refusal::NotToBeWritten);
    }
    let code = spell(i);
    let b0 = (code / 65536 % 256) as u8;
    let b1 = (code / 256 % 256) as u8;
    let b2 = (code % 256) as u8;
    match reader::decode(b0, b1, b2) {
        Ok(j) if j == i => Ok(Code {
            len: sheet::timing(b0).bytes,
            b0,
            b1,
            b2,
        }),
        _ => Err(Refusal::NotToBeWritten), // another row's code, or unassigned
    }
}
