// The rows that read the nibble by HL.
ghost use Rattle.std.specs.Prelude.{◌≡◌, true, ◌<◌};
ghost use Rattle.sheet.specs.Operation.Cell.{by_hl};
ghost use Rattle.row_registers.specs.Quiet.{Low};
ghost use Rattle.laws.specs.Among.{among};
ghost use Rattle.row_ram.specs.Groups.{read_by_hl};
ghost use Rattle.row_ram.specs.Cells.{Reads, Does, Fits};

use alu::{and, minus, minus_cf, or, plus, plus_cf, xor};
use bits::has_bit;
use numbers::Stop;
use record::ram::{at_hl, peek};
use record::{Core, Ram};
use row_ends::Register::Acc;
use row_ends::{Act, acc_borrowed, acc_carried, acc_loaded, compared, logical, summed, tested};
use row_registers::weight;
use sheet::{Insn, rows};

// v is the nibble there. The row that is none of those named is LDAM.
#[tactic(auto, unfolding(sheet::specs::Table::line_at, sheet::specs::Table::lines, row::specs::Rows::work_of, row::specs::Steps::put_step, alu::specs::Making::made, alu::specs::Flags::flag_after))]
fn reading(m: Core, row: u8, a: u8, v: u8) -> Act
    requires { (Low m v) × (among read_by_hl row ≡ true) }
    ensures { Reads by_hl m row a v result }
{
    let acc = m.regs.acc;
    let cf = m.regs.cf;
    match row {
        rows::TFM => tested(m, !has_bit(v, weight(a)), 1, 1),
        rows::CMPAM => compared(m, minus(v, acc, cf), 1, 1),
        rows::XORAM => logical(m, Some(Acc), xor(acc, v, cf), 1, 1),
        rows::ORAM => logical(m, Some(Acc), or(acc, v, cf), 1, 1),
        rows::ANDAM => logical(m, Some(Acc), and(acc, v, cf), 1, 1),
        rows::SBCAM => acc_borrowed(m, minus_cf(v, acc, cf), 1, 1),
        rows::ADDAM => summed(m, Some(Acc), plus(acc, v, cf), 1, 1),
        rows::ADCAM => acc_carried(m, plus_cf(acc, v, cf), 1, 1),
        _ => acc_loaded(m, v, 1, 1),
    }
}

// The row on the RAM that is lent.
pub fn read_by_hl(m: Core, ram: &Ram, i: Insn) -> Result<Act, Stop>
    requires { Fits read_by_hl 16 m i ram.now }
    ensures { Does m i.row i.a i.b ram.now ram.now result }
{
    let at = at_hl(m)?;
    Ok(reading(m, i.row, i.a as u8, peek(ram, at)))
}
