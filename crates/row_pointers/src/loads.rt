// The rows that load ACC from DP, SP, TA or TB.
ghost use Rattle.std.specs.Prelude.{Ok, ◌≡◌};
ghost use Rattle.record.specs.Ram.{bank_of};
ghost use Rattle.row_pointers.specs.Groups.{load_pointer, load_timer};
ghost use Rattle.row_pointers.specs.Pointed.{Leaves, Asks, loaded};

use crate::in_bank_0;
use bits::nibble_at;
use numbers::Stop;
use record::Core;
use row_ends::{Act, acc_loaded};
use sheet::rows;

// The row that is none of those named is LDADPL.
#[tactic(auto, unfolding(sheet::specs::Table::line_at, sheet::specs::Table::lines, row::specs::Rows::work_of, row::specs::Steps::put_step, alu::specs::Making::made, alu::specs::Flags::flag_after))]
fn from_pointer(m: Core, row: u8) -> Act
    requires { (Asks load_pointer m row) × (bank_of m ≡ 0) }
    ensures { Leaves m row (loaded m (Ok result)) }
{
    let p = m.ptrs;
    match row {
        rows::LDADPM => acc_loaded(m, nibble_at(p.dp, 4), 2, 2),
        rows::LDADPH => acc_loaded(m, nibble_at(p.dp, 8), 2, 2),
        rows::LDASP => acc_loaded(m, p.sp, 2, 2),
        _ => acc_loaded(m, (p.dp % 16) as u8, 2, 2),
    }
}

// The row that is none of those named is LDATAL.
#[tactic(auto, unfolding(sheet::specs::Table::line_at, sheet::specs::Table::lines, row::specs::Rows::work_of, row::specs::Steps::put_step, alu::specs::Making::made, alu::specs::Flags::flag_after))]
fn from_timer(m: Core, row: u8) -> Act
    requires { (Asks load_timer m row) × (bank_of m ≡ 0) }
    ensures { Leaves m row (loaded m (Ok result)) }
{
    let t = m.timers;
    match row {
        rows::LDATAM => acc_loaded(m, nibble_at(t.ta, 4), 2, 2),
        rows::LDATAH => acc_loaded(m, nibble_at(t.ta, 8), 2, 2),
        rows::LDATBL => acc_loaded(m, (t.tb % 16) as u8, 2, 2),
        rows::LDATBM => acc_loaded(m, nibble_at(t.tb, 4), 2, 2),
        rows::LDATBH => acc_loaded(m, nibble_at(t.tb, 8), 2, 2),
        _ => acc_loaded(m, (t.ta % 16) as u8, 2, 2),
    }
}

pub fn load_pointer(m: Core, row: u8) -> Result<Act, Stop>
    requires { Asks load_pointer m row }
    ensures { Leaves m row (loaded m result) }
{
    in_bank_0(m)?;
    Ok(from_pointer(m, row))
}

pub fn load_timer(m: Core, row: u8) -> Result<Act, Stop>
    requires { Asks load_timer m row }
    ensures { Leaves m row (loaded m result) }
{
    in_bank_0(m)?;
    Ok(from_timer(m, row))
}
