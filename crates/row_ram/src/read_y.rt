// The rows that read the nibble by y.
ghost use Rattle.std.specs.Prelude.{◌≡◌, true, ◌<◌};
ghost use Rattle.sheet.specs.Operation.Cell.{by_y};
ghost use Rattle.row_registers.specs.Quiet.{Low};
ghost use Rattle.laws.specs.Among.{among};
ghost use Rattle.row_ram.specs.Groups.{read_by_y};
ghost use Rattle.row_ram.specs.Cells.{Reads, Does, Fits};

use alu::minus;
use bits::has_bit;
use numbers::Stop;
use record::ram::{at_y, peek};
use record::{Core, Ram};
use row_ends::{Act, compared, tested};
use row_registers::weight;
use sheet::{Insn, rows};

// v is the nibble at y. The row that is none of those named is CMP.
#[tactic(auto, unfolding(sheet::specs::Table::line_at, sheet::specs::Table::lines, row::specs::Rows::work_of, row::specs::Steps::put_step, alu::specs::Making::made, alu::specs::Flags::flag_after))]
fn reading(m: Core, row: u8, a: u8, v: u8) -> Act
    requires { (Low m a) × ((v < 16) × (among read_by_y row ≡ true)) }
    ensures { Reads by_y m row a v result }
{
    match row {
        rows::TT => tested(m, has_bit(v, weight(a)), 2, 2),
        rows::TF => tested(m, !has_bit(v, weight(a)), 2, 2),
        _ => compared(m, minus(a, v, m.regs.cf), 2, 2),
    }
}

// The row on the RAM that is lent.
pub fn read_by_y(m: Core, ram: &Ram, i: Insn) -> Result<Act, Stop>
    requires { Fits read_by_y 16 m i ram.now }
    ensures { Does m i.row i.a i.b ram.now ram.now result }
{
    let at = at_y(i.b)?;
    Ok(reading(m, i.row, i.a as u8, peek(ram, at)))
}
