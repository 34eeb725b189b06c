// The rows that write the nibble by y.
ghost use Rattle.std.specs.Prelude.{◌≡◌, true, ◌<◌};
ghost use Rattle.sheet.specs.Operation.Cell.{by_y};
ghost use Rattle.row_registers.specs.Quiet.{Low};
ghost use Rattle.laws.specs.Among.{among};
ghost use Rattle.row_ram.specs.Groups.{written_by_y};
ghost use Rattle.row_ram.specs.Cells.{Stores, Does, Fits};

use crate::Stored;
use alu::plus;
use bits::{with_bit, without_bit};
use numbers::Stop;
use record::ram::{at_y, peek, poke};
use record::{Core, Ram};
use row_ends::{Act, summed, went_on};
use row_registers::weight;
use sheet::{Insn, rows};

// v is the nibble there. The row that is none of those named is STD.
#[tactic(auto, unfolding(sheet::specs::Table::line_at, sheet::specs::Table::lines, row::specs::Rows::work_of, row::specs::Steps::put_step, alu::specs::Making::made, alu::specs::Flags::flag_after))]
fn writing(m: Core, row: u8, a: u8, v: u8) -> Stored
    requires { (Low m a) × ((v < 16) × (among written_by_y row ≡ true)) }
    ensures { Stores by_y m row a v result }
{
    match row {
        rows::SET => Stored {
            value: with_bit(v, weight(a)),
            act: went_on(m, 2, 2),
        },
        rows::CLR => Stored {
            value: without_bit(v, weight(a)),
            act: went_on(m, 2, 2),
        },
        rows::ADD => {
            let x = plus(v, a, m.regs.cf);
            Stored {
                value: x.value,
                act: summed(m, None, x, 2, 2),
            }
        },
        _ => Stored {
            value: a,
            act: went_on(m, 2, 2),
        },
    }
}

// The row on the RAM that is lent.
pub fn write_by_y(m: Core, ram: &mut Ram, i: Insn) -> Result<Act, Stop>
    requires { Fits written_by_y 16 m i ram.old }
    ensures { Does m i.row i.a i.b ram.old ram.new result }
{
    let at = at_y(i.b)?;
    let stored = writing(m, i.row, i.a as u8, peek(ram, at));
    poke(ram, at, stored.value);
    Ok(stored.act)
}
