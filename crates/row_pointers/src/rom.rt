// LDAX and LDAXI: "LDAX reads ROM at 1000h + DP". The byte there is handed in.
ghost use Rattle.std.specs.Prelude.{◌<◌};
ghost use Rattle.numbers.specs.Sizes.{addresses};
ghost use Rattle.row_pointers.specs.FromRom.{FromRom};

use crate::Pointed;
use record::{Core, Pointers};
use row_ends::acc_loaded;

#[tactic(auto, unfolding(sheet::specs::Table::line_at, sheet::specs::Table::lines, row::specs::Rows::work_of, row::specs::Steps::put_step, alu::specs::Making::made, alu::specs::Flags::flag_after))]
pub fn load_low(m: Core, byte: u8) -> Pointed
    requires { m.pc < addresses }
    ensures { FromRom m 3 byte result }
{
    Pointed {
        act: acc_loaded(m, byte % 16, 1, 2),
        ptrs: m.ptrs,
        timers: m.timers,
    }
}

// "DP + 1 wraps at 4096."
#[tactic(auto, unfolding(sheet::specs::Table::line_at, sheet::specs::Table::lines, row::specs::Rows::work_of, row::specs::Steps::put_step, alu::specs::Making::made, alu::specs::Flags::flag_after))]
pub fn load_high(m: Core, byte: u8) -> Pointed
    requires { (m.pc < addresses) × (m.ptrs.dp < 4096) }
    ensures { FromRom m 4 byte result }
{
    Pointed {
        act: acc_loaded(m, byte / 16, 1, 2),
        ptrs: Pointers {
            dp: (m.ptrs.dp + 1) % 4096,
            ..m.ptrs
        },
        timers: m.timers,
    }
}
