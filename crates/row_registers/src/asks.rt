// Rows that compare or test registers, and NOP: CMPH, CMPIA, CMPL, TFA, TFCFC, TTCFS, TZS, NOP.
ghost use Rattle.std.specs.Prelude.{◌≡◌, true};
ghost use Rattle.row_registers.specs.Quiet.{Quiet, Low};
ghost use Rattle.laws.specs.Among.{among};
ghost use Rattle.row_registers.specs.Groups.{asks};

use crate::weight;
use record::Core;
use row_ends::Act;
use sheet::rows;

#[tactic(auto, unfolding(sheet::specs::Table::line_at, sheet::specs::Table::lines, row::specs::Rows::work_of, row::specs::Steps::put_step, alu::specs::Making::made, alu::specs::Flags::flag_after))]
pub fn asked(m: Core, row: u8, k: u8) -> Act
    requires { (Low m k) × (among asks row ≡ true) }
    ensures { Quiet m row k result }
{
    let r = m.regs;
    match row {
        rows::CMPH => row_ends::lessened(m, None, alu::minus(k, r.hr, r.cf), 2, 2),
        rows::CMPIA => row_ends::compared(m, alu::minus(k, r.acc, r.cf), 1, 1),
        rows::CMPL => row_ends::lessened(m, None, alu::minus(k, r.lr, r.cf), 2, 2),
        rows::TFA => row_ends::tested(m, !bits::has_bit(r.acc, weight(k)), 1, 1),
        rows::TFCFC => row_ends::cf_tested(m, false, !r.cf, 1, 1),
        rows::TTCFS => row_ends::cf_tested(m, true, r.cf, 1, 1),
        rows::TZS => row_ends::tested(m, r.zf, 1, 1),
        _ => row_ends::nothing(m, 1, 1),
    }
}
