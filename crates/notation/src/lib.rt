// A row in the sheet's notation.
#![tactic(auto)]

pub mod sources;

ghost use Rattle.std.specs.Prelude.{◌≡◌, [], ◌∷◌, ◌++◌, ◌+◌, ◌<◌, ◌≤◌, length};
ghost use Rattle.text.specs.Digits.{characters, in_base};
ghost use Rattle.text.specs.Digits.{decimal as decimalOf};
ghost use Rattle.notation.specs.Notation.{mnemonic_of, row_text};
ghost use Rattle.notation.specs.Notation.{sign as sign_of};

use sheet::Insn;
use sheet::flow::goes_to;
use text::Text;

// The mnemonics as the sheet prints them, in its order, each at its row's number.
const MNEMONICS: [&[u8]; 108] = [
    b"",
    b"LDA x",
    b"LDAM",
    b"LDAX",
    b"LDAXI",
    b"LDH #k",
    b"LDHL x",
    b"LDIA #k",
    b"LDL #k",
    b"STA x",
    b"STAM",
    b"STAMD",
    b"STAMI",
    b"STD #k,y",
    b"STDMI #k",
    b"THA",
    b"TLA",
    b"RLCA",
    b"RRCA",
    b"ADCAM",
    b"ADD #k,y",
    b"ADDA #k",
    b"ADDAM",
    b"ADDH #k",
    b"ADDL #k",
    b"ADDM #k",
    b"DECA",
    b"DECL",
    b"DECM",
    b"INCA",
    b"INCL",
    b"INCM",
    b"SUBA #k",
    b"SBCAM",
    b"SUBM #k",
    b"ANDA #k",
    b"ANDAM",
    b"ANDM #k",
    b"ORA #k",
    b"ORAM",
    b"ORM #k",
    b"XORAM",
    b"EXA x",
    b"EXAH",
    b"EXAL",
    b"EXAM",
    b"EXHL x",
    b"SBR a",
    b"LBR a",
    b"SLBR a",
    b"CMP #k,y",
    b"CPMA x",
    b"CMPAM",
    b"CMPH #k",
    b"CMPIA #k",
    b"CMPL #k",
    b"CLM b",
    b"CLP p,b",
    b"CLPL",
    b"CLR y,b",
    b"SEM b",
    b"SEP p,b",
    b"SEPL",
    b"SET y,b",
    b"TF y,b",
    b"TFA b",
    b"TFM b",
    b"TFP p,b",
    b"TFPL",
    b"TT y,b",
    b"TTP p,b",
    b"LCALL a",
    b"SCALL a",
    b"RET",
    b"INA p",
    b"INM p",
    b"OUT #k,p",
    b"OUTA p",
    b"OUTM p",
    b"TFCFC",
    b"TTCFS",
    b"TZS",
    b"CIL r",
    b"DICIL r",
    b"EICIL r",
    b"EXAE",
    b"RTI",
    b"NOP",
    b"LDADPL",
    b"LDADPM",
    b"LDADPH",
    b"LDASP",
    b"LDATAL",
    b"LDATAM",
    b"LDATAH",
    b"LDATBL",
    b"LDATBM",
    b"LDATBH",
    b"STADPL",
    b"STADPM",
    b"STADPH",
    b"STASP",
    b"STATAL",
    b"STATAM",
    b"STATAH",
    b"STATBL",
    b"STATBM",
    b"STATBH",
];

fn mnemonic(row: u8) -> &'static [u8]
    ensures { result.now ≡ mnemonic_of row }
{
    if row <= 107 {
        MNEMONICS[row as usize]
    } else {
        b""
    }
}

// The last places digits of v, and the letter of their base.
fn marked<const N: usize>(out: &mut Text<N>, base: u32, places: u32, v: u32, mark: u8)
    requires { (0 < base) × (base ≤ 16) × (length out.old + places + 1 ≤ N) }
    ensures { out.new ≡ out.old ++ (in_base base places v ++ (mark ∷ [])) }
{
    out.number(base, places, v);
    out.put(mark);
}

fn port<const N: usize>(out: &mut Text<N>, p: u64)
    requires { (p < 256) × (length out.old + 4 ≤ N) }
    ensures { out.new ≡ out.old ++ (characters "P" ++ decimalOf p) }
{
    out.put(b'P');
    out.decimal(p);
}

// A character of a mnemonic, or the operand for which it stands.
#[tactic(auto, unfolding(crate::specs::Notation::sign))]
fn sign<const N: usize>(out: &mut Text<N>, at: u16, insn: Insn, c: u8)
    requires { length out.old + 7 ≤ N }
    ensures { out.new ≡ out.old ++ sign_of at insn c }
{
    let a = u32::from(insn.a);
    let b = u32::from(insn.b);
    match c {
        b'k' => marked(out, 16, 1, a, b'h'),
        b'x' => marked(out, 16, 2, a, b'h'),
        b'y' => marked(out, 16, 1, b, b'h'),
        b'b' => out.number(10, 1, a),
        b'p' => port(out, u64::from(insn.b)),
        b'r' => marked(out, 2, 6, a, b'B'),
        b'a' => marked(out, 16, 4, goes_to(at, insn).unwrap_or(0), b'h'),
        _ => out.put(c),
    }
}

// A row has at most 16 characters. The room that is asked lets each of them be an operand of seven.
pub fn row<const N: usize>(out: &mut Text<N>, at: u16, insn: Insn)
    requires { length out.old + 24 ≤ N }
    ensures text { out.new ≡ out.old ++ row_text at insn }
    ensures upper_bound { length out.new ≤ length out.old + 16 }
{
    for c in mnemonic(insn.row) {
        sign(out, at, insn, *c);
    }
}
