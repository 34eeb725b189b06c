// Where a branch or a call goes.
ghost use Rattle.std.specs.Prelude.{◌≡◌, ◌<◌};
ghost use Rattle.sheet.specs.Operation.Entry.{short};
ghost use Rattle.sheet.specs.Flow.{call_entry, goes_to};

use crate::{Insn, rows};

// "SCALL n: 8n + 6, but 86h for n = 0"
pub fn short_entry(n: u16) -> u32
    ensures entry { result ≡ call_entry short n }
    ensures low { n < 16 → result < 0x100 }
{
    if n == 0 { 0x86 } else { 8 * n as u32 + 6 }
}

// Where a row at an address goes, where it is a branch or a call.
pub fn goes_to(at: u16, insn: Insn) -> Option<u32>
    ensures { result ≡ goes_to at insn }
{
    let a = insn.a as u32;
    match insn.row {
        rows::SBR => Some(at as u32 / 64 * 64 + a),
        rows::LBR => Some(at as u32 / 4096 * 4096 + a),
        rows::SLBR | rows::LCALL => Some(a),
        rows::SCALL => Some(short_entry(insn.a)),
        _ => None,
    }
}
