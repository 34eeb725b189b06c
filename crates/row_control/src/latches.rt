// CIL, DICIL, EICIL and EXAE: the latches IL, EI, and the mask.
ghost use Rattle.std.specs.Prelude.{◌≡◌, true, ◌<◌};
ghost use Rattle.numbers.specs.Sizes.{addresses};
ghost use Rattle.laws.specs.Among.{among};
ghost use Rattle.row_control.specs.Groups.{latches};
ghost use Rattle.row_control.specs.Latches.{latches_left, exchanged};
ghost use Rattle.row_control.specs.Turns.{Keeps};

use numbers::ADDRESSES;
use record::{Core, Registers, interrupts_of};
use row::Turn;
use sheet::rows;

// "IL←IL & r", with EI as the row leaves it.
fn latched(m: Core, ei: bool, r: u8) -> Turn
    requires { m.pc < addresses }
    ensures { result ≡ latches_left m ei r }
{
    Turn {
        cycles: 2,
        core: Core {
            regs: Registers { sf: true, ..m.regs },
            pc: (m.pc + 2) % ADDRESSES,
            ints: interrupts_of(ei, m.ints.il & r, m.ints.mask),
            ..m
        },
    }
}

// EXAE: ACC and the mask change places.
fn exchanged(m: Core) -> Turn
    requires { m.pc < addresses }
    ensures { result ≡ exchanged m }
{
    Turn {
        cycles: 1,
        core: Core {
            regs: Registers {
                acc: m.ints.mask,
                sf: true,
                ..m.regs
            },
            pc: (m.pc + 1) % ADDRESSES,
            ints: interrupts_of(m.ints.ei, m.ints.il, m.regs.acc),
            ..m
        },
    }
}

#[tactic(auto, unfolding(sheet::specs::Table::line_at, sheet::specs::Table::lines, row::specs::Rows::work_of, row::specs::Steps::exchange_step, row::specs::Rows::latches_of, alu::specs::Flags::flag_after))]
pub fn latch(m: Core, row: u8, r: u8) -> Turn
    requires { (m.pc < addresses) × (among latches row ≡ true) }
    ensures { Keeps m row r result }
{
    match row {
        rows::CIL => latched(m, m.ints.ei, r),
        rows::DICIL => latched(m, false, r),
        rows::EICIL => latched(m, true, r),
        _ => exchanged(m),
    }
}
