// Rows that move or exchange registers: LDH, LDIA, LDL, THA, TLA, EXAH, EXAL.
ghost use Rattle.std.specs.Prelude.{◌≡◌, true};
ghost use Rattle.row_registers.specs.Quiet.{Quiet, Low};
ghost use Rattle.laws.specs.Among.{among};
ghost use Rattle.row_registers.specs.Groups.{moves};

use record::Core;
use row_ends::Act;
use row_ends::Register::{Hr, Lr};
use sheet::rows;

#[tactic(auto, unfolding(sheet::specs::Table::line_at, sheet::specs::Table::lines, row::specs::Rows::work_of, row::specs::Steps::put_step, row::specs::Steps::exchange_step, alu::specs::Making::made, alu::specs::Flags::flag_after))]
pub fn moved(m: Core, row: u8, k: u8) -> Act
    requires { (Low m k) × (among moves row ≡ true) }
    ensures { Quiet m row k result }
{
    let r = m.regs;
    match row {
        rows::LDH => row_ends::loaded(m, Hr, k, 1, 1),
        rows::LDIA => row_ends::acc_loaded(m, k, 1, 1),
        rows::LDL => row_ends::loaded(m, Lr, k, 1, 1),
        rows::THA => row_ends::acc_loaded(m, r.hr, 1, 1),
        rows::TLA => row_ends::acc_loaded(m, r.lr, 1, 1),
        rows::EXAH => row_ends::exchanged(m, Hr, 1, 2),
        _ => row_ends::exchanged(m, Lr, 1, 2),
    }
}
