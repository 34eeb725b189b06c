// The calls on an image, P3 and an address by the device, which em73862_* and em73p982_* hand on to: a debugger's pane needs no more. They know no record.
// Two answers of a call to the same inputs are equal: proofs/OneAnswer.antt.
#![tactic(auto)]

pub mod write;

ghost use Rattle.std.specs.Prelude.{◌≡◌, ◌<◌, IfOk};
ghost use Rattle.laws.specs.Among.{among};
ghost use Rattle.reader.specs.Answer.{paper_of, p3_given};
ghost use Rattle.image_calls.specs.Numbers.{OfRead};
ghost use Rattle.image_calls.specs.Operands.{Fits, from_b, operand_at, goes_from};
ghost use Rattle.image_calls.specs.Pane.{goes_in, ReadCall, LengthCall, RowCall, NotationCall, BoundCall};

use bound::{BoundNumbers, bound};
use device::Device;
use numbers::Refusal;
use reader::{Decoded, read};
use sheet::flow::goes_to;
use sheet::{Insn, rows};
use text::text::Text;

// A row has at most 16 characters; notation::row asks for room.
const TEXT_ROOM: usize = 24;

// "8192 if neither"
const NOWHERE: u32 = 8192;

// What the reader answers, as numbers.
#[derive(Clone, Copy)]
pub struct ReadNumbers {
    pub number: u8,
    pub insn: Insn,
    pub bytes: u8,
    pub cycles: u8,
}

// The operands of a row in its mnemonic's order.
#[derive(Clone, Copy)]
pub struct Operands {
    pub first: u16,
    pub second: u16,
}

impl From<Result<Decoded, Refusal>> for ReadNumbers {
    ghost from_gives = { λ answer numbers. OfRead (paper_of answer) numbers };

    fn from(answer: Result<Decoded, Refusal>) -> ReadNumbers {
        match answer {
            Ok(decoded) => ReadNumbers {
                number: 0,
                insn: decoded.insn,
                bytes: decoded.bytes,
                cycles: decoded.cycles,
            },
            Err(refusal) => ReadNumbers {
                number: u8::from(refusal),
                insn: Insn { row: 0, a: 0, b: 0 },
                bytes: 0,
                cycles: 0,
            },
        }
    }
}

// Whether the first operand in a row's mnemonic is y or p.
fn begins_in_b(row: u8) -> bool
    ensures { result ≡ among from_b row }
{
    matches!(
        row,
        rows::CLP
            | rows::CLR
            | rows::SEP
            | rows::SET
            | rows::TF
            | rows::TFP
            | rows::TT
            | rows::TTP
            | rows::INA
            | rows::INM
            | rows::OUTA
            | rows::OUTM
    )
}

// An operand that the row has not is 0.
fn in_order(insn: Insn) -> Operands
    requires { Fits insn }
    ensures { (result.first ≡ operand_at insn 0) × (result.second ≡ operand_at insn 1) }
{
    let b = insn.b as u16;
    if begins_in_b(insn.row) {
        Operands {
            first: b,
            second: insn.a,
        }
    } else {
        Operands {
            first: insn.a,
            second: b,
        }
    }
}

// Where a row that stands at an address goes.
fn target(at: u16, insn: Insn) -> u16
    requires { (at < 8192) × (insn.a < 8192) }
    ensures { result ≡ goes_from at insn }
{
    goes_to(at, insn).unwrap_or(NOWHERE) as u16
}

// Where the row that was read at an address goes; 0 with a refusal.
fn destination(answer: Result<Decoded, Refusal>, address: u32) -> u16
    requires { IfOk answer (λ decoded. (address < 8192) × (decoded.insn.a < 8192)) }
    ensures { result ≡ goes_in (paper_of answer) address }
{
    match answer {
        Ok(decoded) => target(address as u16, decoded.insn),
        Err(_) => 0,
    }
}

pub fn read_call(
    d: Device,
    image: &[u8],
    p3: u32,
    address: u32,
    row: &mut u8,
    a: &mut u16,
    b: &mut u8,
) -> u8
    ensures { ReadCall d image.now (p3_given d p3) address result row.new a.new b.new }
{
    let n = ReadNumbers::from(read(d, image, p3, address));
    *row = n.insn.row;
    *a = n.insn.a;
    *b = n.insn.b;
    n.number
}

pub fn length_call(
    d: Device,
    image: &[u8],
    p3: u32,
    address: u32,
    bytes: &mut u8,
    cycles: &mut u8,
) -> u8
    ensures { LengthCall d image.now (p3_given d p3) address result bytes.new cycles.new }
{
    let n = ReadNumbers::from(read(d, image, p3, address));
    *bytes = n.bytes;
    *cycles = n.cycles;
    n.number
}

pub fn row_call(
    d: Device,
    image: &[u8],
    p3: u32,
    address: u32,
    row: &mut u8,
    first: &mut u16,
    second: &mut u16,
    goes: &mut u16,
    bytes: &mut u8,
    cycles: &mut u8,
) -> u8
    ensures { RowCall d image.now (p3_given d p3) address result row.new first.new second.new goes.new bytes.new cycles.new }
{
    let answer = read(d, image, p3, address);
    let n = ReadNumbers::from(answer);
    let operands = in_order(n.insn);
    *row = n.insn.row;
    *first = operands.first;
    *second = operands.second;
    *goes = destination(answer, address);
    *bytes = n.bytes;
    *cycles = n.cycles;
    n.number
}

pub fn notation_call(
    d: Device,
    image: &[u8],
    p3: u32,
    address: u32,
    text: &mut [u8],
    length: &mut u32,
) -> u8
    ensures { NotationCall d image.now (p3_given d p3) address text.old result length.new text.new }
{
    match read(d, image, p3, address) {
        Ok(decoded) => {
            let mut row = Text::<TEXT_ROOM>::new();
            notation::row(&mut row, address as u16, decoded.insn);
            let end = row.len();
            *length = end as u32;
            if end <= text.len() {
                text[..end].copy_from_slice(row.as_slice());
            }
            0
        }
        Err(refusal) => {
            *length = 0;
            u8::from(refusal)
        }
    }
}

pub fn bound_call(
    d: Device,
    image: &[u8],
    p3: u32,
    address: u32,
    path: &mut [u8],
    deep: &mut [u8],
    value: &mut u32,
    depth: &mut u32,
) -> u8
    ensures { BoundCall d image.now (p3_given d p3) address path.old deep.old result value.new depth.new path.new deep.new }
{
    let n = BoundNumbers::from(bound(d, image, p3, address, path, deep));
    *value = n.value as u32;
    *depth = n.depth as u32;
    n.number
}
