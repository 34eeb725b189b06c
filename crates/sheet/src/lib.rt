// The instruction table of sheet 000 for the code: an instruction, why reading gives none, the rows' numbers by name, and the length and cycles by first byte.
// The rows themselves are the definition in specs/Table.antt.
#![tactic(auto)]

pub mod flow;
pub mod rows;

ghost use Rattle.std.specs.Prelude.{◌≡◌};
ghost use Rattle.sheet.specs.Timing.{TimedFrom, NoneFrom, from4, from5, from6, from7, from_rest};
ghost use Rattle.sheet.specs.Refusing.{refusal_of, stop_of};

use numbers::{Refusal, Stop};

// One row by its number, and its operands: a is its x, k, a, b, r or n, and b its y or p; 0 for one that it does not have.
#[derive(Clone, Copy, PartialEq, Eq)]
pub struct Insn {
    pub row: u8,
    pub a: u16,
    pub b: u8,
}

// Why reading gives no instruction: the code is in neither table, or its bytes pass the end of the image.
#[derive(Clone, Copy, PartialEq, Eq)]
pub enum NoRow {
    Unassigned,
    PastEnd,
}

impl From<NoRow> for Refusal {
    ghost from_gives = { λ why refusal. refusal ≡ refusal_of why };

    fn from(why: NoRow) -> Refusal {
        match why {
            NoRow::Unassigned => Refusal::UnassignedCode,
            NoRow::PastEnd => Refusal::PastEnd,
        }
    }
}

impl From<NoRow> for Stop {
    ghost from_gives = { λ why stop. stop ≡ stop_of why };

    fn from(why: NoRow) -> Stop {
        match why {
            NoRow::Unassigned => Stop::UnassignedCode,
            NoRow::PastEnd => Stop::PastEnd,
        }
    }
}

#[derive(Clone, Copy, PartialEq, Eq)]
pub struct Cost {
    pub bytes: u8,
    pub cycles: u8,
}

fn costs(bytes: u8, cycles: u8) -> Cost
    ensures { result ≡ record { bytes = bytes; cycles = cycles } }
{
    Cost { bytes, cycles }
}

// 0100: RTI and RET have no second byte.
fn timing_4(first: u8) -> Cost
    ensures { result ≡ from4 first }
{
    match first {
        0x4D | 0x4F => costs(1, 2),
        _ => costs(2, 2),
    }
}

// 0101: SLBR; no row begins with 54h.
fn timing_5(first: u8) -> Cost
    ensures { result ≡ from5 first }
{
    match first {
        0x54 => costs(0, 0),
        0x55 | 0x57 => costs(3, 3),
        _ => costs(1, 1),
    }
}

// 0110: the rows on latches and those from 68h up have a second byte.
fn timing_6(first: u8) -> Cost
    ensures { result ≡ from6 first }
{
    match first {
        0x63 => costs(2, 2),
        ..0x68 => costs(1, 2),
        _ => costs(2, 2),
    }
}

// 0111: no row begins with 77h or 7Ah.
fn timing_7(first: u8) -> Cost
    ensures { result ≡ from7 first }
{
    match first {
        0x77 | 0x7A => costs(0, 0),
        _ => costs(1, 1),
    }
}

// The other high digits. Apart from those, so that the reader is small enough for the compiler to put it into each call.
fn timing_other(high: u8) -> Cost
    ensures { result ≡ from_rest high }
{
    match high {
        12 => costs(2, 2),
        14 => costs(1, 2),
        _ => costs(1, 1),
    }
}

// The length and the cycles of whatever row begins with the byte, by the bit patterns of the rows; 0 where none does.
pub fn timing(first: u8) -> Cost
    ensures timed_from { TimedFrom first result.bytes result.cycles }
    ensures none_from { NoneFrom first result.bytes }
{
    match first / 16 {
        4 => timing_4(first),
        5 => timing_5(first),
        6 => timing_6(first),
        7 => timing_7(first),
        high => timing_other(high),
    }
}
