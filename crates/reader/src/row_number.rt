// The rows by the digits of a code: for each family of first bytes the row's number, none for a code that is unassigned.
ghost use Rattle.std.specs.Prelude.{◌≡◌, ◌<◌, ◌≤◌, ◌+◌, ◌*◌, ◌/◌, ◌%◌, Some};
ghost use Rattle.sheet.specs.Reading.{insn};
ghost use Rattle.reader.specs.Found.{Begins1, Begins2, Begins3, numbered, direct, direct_by_four, far};

use sheet::{Insn, rows};

fn row_5(l: u8) -> Option<u8>
    requires { (l < 16) × (l ≡ 5 → ⊥) × (l ≡ 7 → ⊥) }
    ensures { Begins1 5 l (numbered result 0 0) }
{
    match l {
        0 => Some(rows::RLCA),
        1 => Some(rows::RRCA),
        2 => Some(rows::TTCFS),
        3 => Some(rows::TFCFC),
        6 => Some(rows::NOP),
        8 => Some(rows::EXAM),
        9 => Some(rows::STAM),
        10 => Some(rows::LDAM),
        11 => Some(rows::TZS),
        12 => Some(rows::DECA),
        13 => Some(rows::DECM),
        14 => Some(rows::INCA),
        15 => Some(rows::INCM),
        _ => None,
    }
}

fn row_60(l: u8) -> u8
    requires { (l < 8) × (l ≡ 3 → ⊥) }
    ensures { Begins1 6 l (Some (insn result 0 0)) }
{
    match l {
        0 => rows::CLPL,
        1 => rows::TFPL,
        2 => rows::SEPL,
        4 => rows::EXAL,
        5 => rows::LDAX,
        6 => rows::EXAH,
        _ => rows::LDAXI,
    }
}

fn row_63(b1: u8) -> Option<u8>
    ensures { Begins2 6 3 b1 (numbered result (b1 % 64) 0) }
{
    match b1 / 64 {
        1 => Some(rows::EICIL),
        2 => Some(rows::DICIL),
        3 => Some(rows::CIL),
        _ => None,
    }
}

fn row_69(b1: u8) -> Option<u8>
    requires { 0xF4 ≤ b1 }
    ensures { Begins2 6 9 b1 (numbered result 0 0) }
{
    match b1 {
        0xF4 => Some(rows::STATAL),
        0xF5 => Some(rows::STATAM),
        0xF6 => Some(rows::STATAH),
        0xF8 => Some(rows::STATBL),
        0xF9 => Some(rows::STATBM),
        0xFA => Some(rows::STATBH),
        0xFC => Some(rows::STADPL),
        0xFD => Some(rows::STADPM),
        0xFE => Some(rows::STADPH),
        0xFF => Some(rows::STASP),
        _ => None,
    }
}

fn row_6a(b1: u8) -> Option<u8>
    requires { 0xF4 ≤ b1 }
    ensures { Begins2 6 10 b1 (numbered result 0 0) }
{
    match b1 {
        0xF4 => Some(rows::LDATAL),
        0xF5 => Some(rows::LDATAM),
        0xF6 => Some(rows::LDATAH),
        0xF8 => Some(rows::LDATBL),
        0xF9 => Some(rows::LDATBM),
        0xFA => Some(rows::LDATBH),
        0xFC => Some(rows::LDADPL),
        0xFD => Some(rows::LDADPM),
        0xFE => Some(rows::LDADPH),
        0xFF => Some(rows::LDASP),
        _ => None,
    }
}

fn row_6c(b1: u8) -> u8
    ensures { Begins2 6 12 b1 (Some (insn result (b1 / 16 % 4) (b1 % 16))) }
{
    match b1 / 64 {
        0 => rows::TF,
        1 => rows::SET,
        2 => rows::TT,
        _ => rows::CLR,
    }
}

fn row_6d(b1: u8) -> u8
    ensures { Begins2 6 13 b1 (Some (insn result (b1 / 16 % 4) (b1 % 16))) }
{
    match b1 / 64 {
        0 => rows::TFP,
        1 => rows::SEP,
        2 => rows::TTP,
        _ => rows::CLP,
    }
}

fn row_6e(b1: u8) -> Option<u8>
    ensures { Begins2 6 14 b1 (numbered result (b1 % 16) 0) }
{
    match b1 / 16 {
        1 => Some(rows::ADDL),
        3 => Some(rows::CMPL),
        4 => Some(rows::ORA),
        5 => Some(rows::ADDA),
        6 => Some(rows::ANDA),
        7 => Some(rows::SUBA),
        9 => Some(rows::ADDH),
        11 => Some(rows::CMPH),
        12 => Some(rows::ORM),
        13 => Some(rows::ADDM),
        14 => Some(rows::ANDM),
        15 => Some(rows::SUBM),
        _ => None,
    }
}

fn row_6f(b1: u8) -> Option<u8>
    ensures { Begins2 6 15 b1 (numbered result 0 (b1 % 32)) }
{
    match b1 / 16 {
        0 => Some(rows::OUTA),
        1 => Some(rows::OUTA),
        4 => Some(rows::INA),
        8 => Some(rows::OUTM),
        9 => Some(rows::OUTM),
        12 => Some(rows::INM),
        _ => None,
    }
}

fn row_7(l: u8) -> Option<u8>
    requires { l < 16 }
    ensures { Begins1 7 l (numbered result 0 0) }
{
    match l {
        0 => Some(rows::ADCAM),
        1 => Some(rows::ADDAM),
        2 => Some(rows::SBCAM),
        3 => Some(rows::CMPAM),
        4 => Some(rows::TLA),
        5 => Some(rows::EXAE),
        6 => Some(rows::THA),
        8 => Some(rows::ORAM),
        9 => Some(rows::XORAM),
        11 => Some(rows::ANDAM),
        12 => Some(rows::DECL),
        13 => Some(rows::STAMD),
        14 => Some(rows::INCL),
        15 => Some(rows::STAMI),
        _ => None,
    }
}

fn row_f(l: u8) -> u8
    requires { l < 16 }
    ensures { Begins1 15 l (Some (insn result (l % 4) 0)) }
{
    match l / 4 {
        0 => rows::CLM,
        1 => rows::SEM,
        2 => rows::TFA,
        _ => rows::TFM,
    }
}

// A row by its number, with operands.
fn with_both(row: u8, a: u8, b: u8) -> Insn
    ensures { result ≡ insn row a b }
{
    Insn {
        row,
        a: a as u16,
        b,
    }
}

// The same, where there is a row.
fn numbered(row: Option<u8>, a: u8, b: u8) -> Option<Insn>
    ensures { result ≡ numbered row a b }
{
    Some(with_both(row?, a, b))
}

// A direct x of F4h or more is unassigned.
fn by_x(row: u8, x: u8) -> Option<Insn>
    ensures { result ≡ direct row x }
{
    if x < 0xF4 {
        Some(with_both(row, x, 0))
    } else {
        None
    }
}

// A code xxxx xx00.
fn by_aligned_x(row: u8, x: u8) -> Option<Insn>
    ensures { result ≡ direct_by_four row x }
{
    if x % 4 == 0 { by_x(row, x) } else { None }
}

// SLBR's second byte is 1100 aaaa.
fn far_branch(upper: u8, b1: u8, b2: u8) -> Option<Insn>
    requires { upper < 2 }
    ensures { result ≡ far upper b1 b2 }
{
    if b1 / 16 == 12 {
        Some(Insn {
            row: rows::SLBR,
            a: (upper as u16) * 4096 + ((b1 % 16) as u16) * 256 + b2 as u16,
            b: 0,
        })
    } else {
        None
    }
}

fn family_4(l: u8, b1: u8) -> Option<Insn>
    requires { l < 16 }
    ensures { Begins2 4 l b1 result }
{
    match l {
        8 => Some(with_both(rows::STD, b1 / 16, b1 % 16)),
        9 => Some(with_both(rows::ADD, b1 / 16, b1 % 16)),
        10 => Some(with_both(rows::OUT, b1 / 16, b1 % 16)),
        11 => Some(with_both(rows::CMP, b1 / 16, b1 % 16)),
        12 => by_aligned_x(rows::EXHL, b1),
        13 => Some(with_both(rows::RTI, 0, 0)),
        14 => by_aligned_x(rows::LDHL, b1),
        15 => Some(with_both(rows::RET, 0, 0)),
        _ => Some(Insn {
            row: rows::LCALL,
            a: (l as u16) * 256 + b1 as u16,
            b: 0,
        }),
    }
}

fn family_5(l: u8, b1: u8, b2: u8) -> Option<Insn>
    requires { l < 16 }
    ensures { Begins3 5 l b1 b2 result }
{
    match l {
        5 => far_branch(1, b1, b2),
        7 => far_branch(0, b1, b2),
        _ => numbered(row_5(l), 0, 0),
    }
}

fn family_6(l: u8, b1: u8) -> Option<Insn>
    requires { l < 16 }
    ensures { Begins2 6 l b1 result }
{
    match l {
        3 => numbered(row_63(b1), b1 % 64, 0),
        8 => by_x(rows::EXA, b1),
        9 => stores(b1),
        10 => loads(b1),
        11 => by_x(rows::CPMA, b1),
        12 => Some(with_both(row_6c(b1), b1 / 16 % 4, b1 % 16)),
        13 => Some(with_both(row_6d(b1), b1 / 16 % 4, b1 % 16)),
        14 => numbered(row_6e(b1), b1 % 16, 0),
        15 => numbered(row_6f(b1), 0, b1 % 32),
        _ => Some(with_both(row_60(l), 0, 0)),
    }
}

fn stores(b1: u8) -> Option<Insn>
    ensures { Begins2 6 9 b1 result }
{
    if b1 < 0xF4 {
        Some(with_both(rows::STA, b1, 0))
    } else {
        numbered(row_69(b1), 0, 0)
    }
}

fn loads(b1: u8) -> Option<Insn>
    ensures { Begins2 6 10 b1 result }
{
    if b1 < 0xF4 {
        Some(with_both(rows::LDA, b1, 0))
    } else {
        numbered(row_6a(b1), 0, 0)
    }
}

// The row that a code of these bytes has.
pub fn found(b0: u8, b1: u8, b2: u8) -> Option<Insn>
    ensures { Begins3 (b0 / 16) (b0 % 16) b1 b2 result }
{
    let l = b0 % 16;
    match b0 / 16 {
        4 => family_4(l, b1),
        5 => family_5(l, b1, b2),
        6 => family_6(l, b1),
        7 => numbered(row_7(l), 0, 0),
        8 => Some(with_both(rows::LDL, l, 0)),
        9 => Some(with_both(rows::LDH, l, 0)),
        10 => Some(with_both(rows::STDMI, l, 0)),
        11 => Some(with_both(rows::CMPIA, l, 0)),
        12 => Some(Insn {
            row: rows::LBR,
            a: (l as u16) * 256 + b1 as u16,
            b: 0,
        }),
        13 => Some(with_both(rows::LDIA, l, 0)),
        14 => Some(with_both(rows::SCALL, l, 0)),
        15 => Some(with_both(row_f(l), l % 4, 0)),
        _ => Some(with_both(rows::SBR, b0, 0)),
    }
}
