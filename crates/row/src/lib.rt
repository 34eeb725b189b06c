// What any row does to the record, by definition; and what executing one leaves where RAM is lent.
#![tactic(auto)]

ghost use Rattle.std.specs.Prelude.{◌≡◌};
ghost use Rattle.row.specs.Rows.{spent};
ghost use Rattle.row.specs.Turns.{turned};

use record::{Core, Machine, Ram};

// The cycles that a row took, and the scalars after it.
#[derive(Clone, Copy)]
pub struct Turn {
    pub cycles: u16,
    pub core: Core,
}

// The record with the RAM that is lent.
pub fn held(core: Core, ram: &Ram) -> Machine
    ensures { result ≡ record { core = core; ram = ram.now } }
{
    let ram = *ram;
    Machine { core, ram }
}

// A call, a return or an acceptance made this of the record, in two cycles: RAM goes back to where it was lent.
pub fn moved_on(after: Machine, ram: &mut Ram) -> Turn
    ensures { turned result ram.new ≡ spent 2 after }
{
    let kept = after.ram;
    *ram = kept;
    Turn {
        cycles: 2,
        core: after.core,
    }
}
