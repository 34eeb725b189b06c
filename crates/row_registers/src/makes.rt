// Rows that make a sum, a difference, logic or a rotation of registers and the operand: RLCA, RRCA, ADDA, ADDH, ADDL, DECA, DECL, INCA, INCL, SUBA, ANDA, ORA.
ghost use Rattle.std.specs.Prelude.{◌≡◌, true};
ghost use Rattle.row_registers.specs.Quiet.{Quiet, Low};
ghost use Rattle.laws.specs.Among.{among};
ghost use Rattle.row_registers.specs.Groups.{makes};

use record::Core;
use row_ends::Act;
use row_ends::Register::{Acc, Hr, Lr};
use sheet::rows;

#[tactic(auto, unfolding(sheet::specs::Table::line_at, sheet::specs::Table::lines, row::specs::Rows::work_of, row::specs::Steps::put_step, alu::specs::Making::made, alu::specs::Flags::flag_after))]
pub fn made(m: Core, row: u8, k: u8) -> Act
    requires { (Low m k) × (among makes row ≡ true) }
    ensures { Quiet m row k result }
{
    let r = m.regs;
    match row {
        rows::RLCA => row_ends::acc_carried(m, alu::rotate_left(r.acc, r.cf), 1, 1),
        rows::RRCA => row_ends::acc_carried(m, alu::rotate_right(r.acc, r.cf), 1, 1),
        rows::ADDA => row_ends::summed(m, Some(Acc), alu::plus(r.acc, k, r.cf), 2, 2),
        rows::ADDH => row_ends::summed(m, Some(Hr), alu::plus(r.hr, k, r.cf), 2, 2),
        rows::ADDL => row_ends::summed(m, Some(Lr), alu::plus(r.lr, k, r.cf), 2, 2),
        rows::DECA => row_ends::lessened(m, Some(Acc), alu::minus(r.acc, 1, r.cf), 1, 1),
        rows::DECL => row_ends::lessened(m, Some(Lr), alu::minus(r.lr, 1, r.cf), 1, 1),
        rows::INCA => row_ends::summed(m, Some(Acc), alu::plus(r.acc, 1, r.cf), 1, 1),
        rows::INCL => row_ends::summed(m, Some(Lr), alu::plus(r.lr, 1, r.cf), 1, 1),
        rows::SUBA => row_ends::lessened(m, Some(Acc), alu::minus(k, r.acc, r.cf), 2, 2),
        rows::ANDA => row_ends::logical(m, Some(Acc), alu::and(r.acc, k, r.cf), 2, 2),
        _ => row_ends::logical(m, Some(Acc), alu::or(r.acc, k, r.cf), 2, 2),
    }
}
