// Rows of the data pointer, the ROM by it, the stack pointer and the timers: an arm a row, on the scalars, each proved to be its line of the table.
#![tactic(auto)]

pub mod loads;
pub mod rom;
pub mod stores;

ghost use Rattle.row_pointers.specs.Pointed.{Banked};

use numbers::Stop;
use record::ram::bank_of;
use record::{Core, Pointers, Timers};
use row_ends::Act;

// What a row that changes a pointer or a timer leaves.
#[derive(Clone, Copy)]
pub struct Pointed {
    pub act: Act,
    pub ptrs: Pointers,
    pub timers: Timers,
}

// "Timer, DP and SP rows need P9.3 = 0, else 31."
pub(crate) fn in_bank_0(m: Core) -> Result<(), Stop>
    ensures { Banked m result }
{
    if bank_of(m) == 0 {
        Ok(())
    } else {
        Err(Stop::AbsentRamAddress)
    }
}
