// The branches SBR, LBR, SLBR: taken where SF is set; SF is set after, taken or not.
ghost use Rattle.std.specs.Prelude.{◌≡◌, true, false, ◌<◌};
ghost use Rattle.numbers.specs.Sizes.{addresses};
ghost use Rattle.row_registers.specs.Quiet.{Quiet};
ghost use Rattle.laws.specs.Among.{among};
ghost use Rattle.row_registers.specs.Groups.{branches};

use record::Core;
use row_ends::Act;
use sheet::rows;

#[tactic(auto, unfolding(sheet::specs::Table::line_at, sheet::specs::Table::lines, row::specs::Rows::branch_of, alu::specs::Flags::flag_after))]
fn taken(m: Core, row: u8, a: u16) -> Act
    requires { (m.pc < addresses) × (a < addresses) × (among branches row ≡ true) × (m.regs.sf ≡ true) }
    ensures { Quiet m row a result }
{
    match row {
        rows::SBR => row_ends::jumped(m, m.pc / 64 * 64 + a, 1),
        rows::LBR => row_ends::jumped(m, m.pc / 4096 * 4096 + a, 2),
        _ => row_ends::jumped(m, a, 3),
    }
}

#[tactic(auto, unfolding(sheet::specs::Table::line_at, sheet::specs::Table::lines, row::specs::Rows::branch_of, alu::specs::Flags::flag_after))]
fn passed(m: Core, row: u8, a: u16) -> Act
    requires { (m.pc < addresses) × (among branches row ≡ true) × (m.regs.sf ≡ false) }
    ensures { Quiet m row a result }
{
    match row {
        rows::SBR => row_ends::went_on(m, 1, 1),
        rows::LBR => row_ends::went_on(m, 2, 2),
        _ => row_ends::went_on(m, 3, 3),
    }
}

pub fn branched(m: Core, row: u8, a: u16) -> Act
    requires { (m.pc < addresses) × (a < addresses) × (among branches row ≡ true) }
    ensures { Quiet m row a result }
{
    if m.regs.sf {
        taken(m, row, a)
    } else {
        passed(m, row, a)
    }
}
