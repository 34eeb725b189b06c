// The rows that write the nibble by x.
ghost use Rattle.std.specs.Prelude.{◌≡◌, true, ◌<◌};
ghost use Rattle.sheet.specs.Operation.Cell.{by_x};
ghost use Rattle.row_registers.specs.Quiet.{Low};
ghost use Rattle.laws.specs.Among.{among};
ghost use Rattle.row_ram.specs.Groups.{written_by_x};
ghost use Rattle.row_ram.specs.Cells.{Stores, Does, Fits};

use crate::Stored;
use numbers::Stop;
use record::ram::{at_x, peek, poke};
use record::{Core, Ram};
use row_ends::{Act, acc_loaded, went_on};
use sheet::{Insn, rows};

// v is the nibble there. The row that is none of those named is STA.
#[tactic(auto, unfolding(sheet::specs::Table::line_at, sheet::specs::Table::lines, row::specs::Rows::work_of, row::specs::Steps::put_step, row::specs::Steps::exchange_step, alu::specs::Making::made, alu::specs::Flags::flag_after))]
fn writing(m: Core, row: u8, x: u16, v: u8) -> Stored
    requires { (Low m v) × (among written_by_x row ≡ true) }
    ensures { Stores by_x m row x v result }
{
    match row {
        rows::EXA => Stored {
            value: m.regs.acc,
            act: acc_loaded(m, v, 2, 2),
        },
        _ => Stored {
            value: m.regs.acc,
            act: went_on(m, 2, 2),
        },
    }
}

// The row on the RAM that is lent.
pub fn write_by_x(m: Core, ram: &mut Ram, i: Insn) -> Result<Act, Stop>
    requires { Fits written_by_x 256 m i ram.old }
    ensures { Does m i.row i.a i.b ram.old ram.new result }
{
    let at = at_x(m, i.a)?;
    let stored = writing(m, i.row, i.a, peek(ram, at));
    poke(ram, at, stored.value);
    Ok(stored.act)
}
