// RET and RTI: PC, and of RTI the flags and EI, from the level of the stack at SP.
ghost use Rattle.std.specs.Prelude.{◌≡◌, true};
ghost use Rattle.laws.specs.Among.{among};
ghost use Rattle.record.specs.Valid.{Nibbles};
ghost use Rattle.row_control.specs.Groups.{returns};
ghost use Rattle.row_control.specs.Turns.{Comes};

use numbers::Stop;
use record::stack::can_pop;
use record::{Core, Ram};
use row::{Turn, held, moved_on};
use sheet::rows;

// "RET and RTI read level SP, then raise it: 0 to 12."
pub fn come_back(m: Core, ram: &mut Ram, row: u8) -> Result<Turn, Stop>
    requires { (Nibbles ram.old) × (among returns row ≡ true) }
    ensures { Comes m row ram.old ram.new result }
{
    if !can_pop(m) {
        return Err(Stop::StackLevel);
    }
    match row {
        rows::RET => Ok(moved_on(held(m, ram).pop(), ram)),
        _ => Ok(moved_on(held(m, ram).return_flags(), ram)),
    }
}
