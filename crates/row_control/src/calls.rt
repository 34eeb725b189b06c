// LCALL and SCALL: the return address into the level of the stack below SP.
ghost use Rattle.std.specs.Prelude.{◌≡◌, true, ◌<◌};
ghost use Rattle.laws.specs.Among.{among};
ghost use Rattle.numbers.specs.Sizes.{addresses};
ghost use Rattle.record.specs.Stack.{CanPush, called};
ghost use Rattle.record.specs.Valid.{Nibbles};
ghost use Rattle.row.specs.Rows.{spent};
ghost use Rattle.row.specs.Turns.{turned};
ghost use Rattle.row_control.specs.Groups.{calls};
ghost use Rattle.row_control.specs.Turns.{Turns};

use numbers::{ADDRESSES, Stop};
use record::stack::can_push;
use record::{Core, Ram};
use row::{Turn, held, moved_on};
use sheet::flow::short_entry;
use sheet::rows;

fn called(m: Core, ram: &mut Ram, ret: u16, target: u16) -> Turn
    requires { (Nibbles ram.old) × (CanPush m) × (ret < addresses) }
    ensures { turned result ram.new ≡ spent 2 (called (record { core = m; ram = ram.old }) ret target) }
{
    moved_on(held(m, ram).call(ret, target), ram)
}

// "A call or acceptance lowers SP first, so SP must be 1 to 13."
pub fn call(m: Core, ram: &mut Ram, row: u8, a: u16) -> Result<Turn, Stop>
    requires { (m.pc < addresses) × (Nibbles ram.old) × (among calls row ≡ true) × (a < addresses) }
    ensures { Turns m row a ram.old ram.new result }
{
    if !can_push(m) {
        return Err(Stop::StackLevel);
    }
    match row {
        rows::LCALL => Ok(called(m, ram, (m.pc + 2) % ADDRESSES, a)),
        _ => Ok(called(m, ram, (m.pc + 1) % ADDRESSES, short_entry(a) as u16)),
    }
}
