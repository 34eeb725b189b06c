// The rows that read the nibble by x.
ghost use Rattle.std.specs.Prelude.{◌≡◌, true, ◌<◌};
ghost use Rattle.sheet.specs.Operation.Cell.{by_x};
ghost use Rattle.row_registers.specs.Quiet.{Low};
ghost use Rattle.laws.specs.Among.{among};
ghost use Rattle.row_ram.specs.Groups.{read_by_x};
ghost use Rattle.row_ram.specs.Cells.{Reads, Does, Fits};

use alu::minus;
use numbers::Stop;
use record::ram::{at_x, peek};
use record::{Core, Ram};
use row_ends::{Act, acc_loaded, compared};
use sheet::{Insn, rows};

// v is the nibble at x. The row that is none of those named is LDA.
#[tactic(auto, unfolding(sheet::specs::Table::line_at, sheet::specs::Table::lines, row::specs::Rows::work_of, row::specs::Steps::put_step, alu::specs::Making::made, alu::specs::Flags::flag_after))]
fn reading(m: Core, row: u8, x: u16, v: u8) -> Act
    requires { (Low m v) × (among read_by_x row ≡ true) }
    ensures { Reads by_x m row x v result }
{
    match row {
        rows::CPMA => compared(m, minus(v, m.regs.acc, m.regs.cf), 2, 2),
        _ => acc_loaded(m, v, 2, 2),
    }
}

// The row on the RAM that is lent.
pub fn read_by_x(m: Core, ram: &Ram, i: Insn) -> Result<Act, Stop>
    requires { Fits read_by_x 256 m i ram.now }
    ensures { Does m i.row i.a i.b ram.now ram.now result }
{
    let at = at_x(m, i.a)?;
    Ok(reading(m, i.row, i.a, peek(ram, at)))
}
