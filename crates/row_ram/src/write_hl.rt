// The rows that write the nibble by HL.
ghost use Rattle.std.specs.Prelude.{◌≡◌, true, ◌<◌};
ghost use Rattle.sheet.specs.Operation.Cell.{by_hl};
ghost use Rattle.row_registers.specs.Quiet.{Low};
ghost use Rattle.laws.specs.Among.{among};
ghost use Rattle.row_ram.specs.Groups.{written_by_hl};
ghost use Rattle.row_ram.specs.Cells.{Stores, Does, Fits};

use crate::Stored;
use alu::{and, minus, or, plus};
use bits::{with_bit, without_bit};
use numbers::Stop;
use record::ram::{at_hl, peek, poke};
use record::{Core, Ram};
use row_ends::Register::Lr;
use row_ends::{Act, acc_loaded, lessened, logical, summed, went_on};
use row_registers::weight;
use sheet::{Insn, rows};

// v is the nibble there. The row that is none of those named is STAM.
#[tactic(auto, unfolding(sheet::specs::Table::line_at, sheet::specs::Table::lines, row::specs::Rows::work_of, row::specs::Steps::put_step, row::specs::Steps::exchange_step, alu::specs::Making::made, alu::specs::Flags::flag_after))]
fn writing(m: Core, row: u8, a: u8, v: u8) -> Stored
    requires { (Low m a) × ((v < 16) × (among written_by_hl row ≡ true)) }
    ensures { Stores by_hl m row a v result }
{
    let acc = m.regs.acc;
    let lr = m.regs.lr;
    let cf = m.regs.cf;
    match row {
        rows::SEM => Stored {
            value: with_bit(v, weight(a)),
            act: went_on(m, 1, 1),
        },
        rows::CLM => Stored {
            value: without_bit(v, weight(a)),
            act: went_on(m, 1, 1),
        },
        rows::EXAM => Stored {
            value: acc,
            act: acc_loaded(m, v, 1, 1),
        },
        rows::ORM => {
            let x = or(v, a, cf);
            Stored {
                value: x.value,
                act: logical(m, None, x, 2, 2),
            }
        },
        rows::ANDM => {
            let x = and(v, a, cf);
            Stored {
                value: x.value,
                act: logical(m, None, x, 2, 2),
            }
        },
        rows::SUBM => {
            let x = minus(a, v, cf);
            Stored {
                value: x.value,
                act: lessened(m, None, x, 2, 2),
            }
        },
        rows::INCM => {
            let x = plus(v, 1, cf);
            Stored {
                value: x.value,
                act: summed(m, None, x, 1, 1),
            }
        },
        rows::DECM => {
            let x = minus(v, 1, cf);
            Stored {
                value: x.value,
                act: lessened(m, None, x, 1, 1),
            }
        },
        rows::ADDM => {
            let x = plus(v, a, cf);
            Stored {
                value: x.value,
                act: summed(m, None, x, 2, 2),
            }
        },
        rows::STDMI => Stored {
            value: a,
            act: summed(m, Some(Lr), plus(lr, 1, cf), 1, 1),
        },
        rows::STAMI => Stored {
            value: acc,
            act: summed(m, Some(Lr), plus(lr, 1, cf), 1, 1), // Z and C' of LR
        },
        rows::STAMD => Stored {
            value: acc,
            act: lessened(m, Some(Lr), minus(lr, 1, cf), 1, 1),
        },
        _ => Stored {
            value: acc,
            act: went_on(m, 1, 1),
        },
    }
}

// The row on the RAM that is lent.
pub fn write_by_hl(m: Core, ram: &mut Ram, i: Insn) -> Result<Act, Stop>
    requires { Fits written_by_hl 16 m i ram.old }
    ensures { Does m i.row i.a i.b ram.old ram.new result }
{
    let at = at_hl(m)?;
    let stored = writing(m, i.row, i.a as u8, peek(ram, at));
    poke(ram, at, stored.value);
    Ok(stored.act)
}
