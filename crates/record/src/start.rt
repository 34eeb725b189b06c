// The fresh record, and reset.
ghost use Rattle.std.specs.Prelude.{◌≡◌};
ghost use Rattle.record.specs.Start.{fresh_core, fresh_machine, reset_core, ResetOf};

use crate::valid::is_valid;
use crate::{Core, Machine, Pointers, Registers, Timers, interrupts_of};
use device::{Device, fresh_p4, reset_p17};
use frame::Pins;
use numbers::{RAM_NIBBLES, Refusal};
use ports::{Mode, Ports};

fn fresh_core(d: Device, regs: Registers, ptrs: Pointers) -> Core
    ensures { result ≡ fresh_core d regs ptrs }
{
    Core {
        regs,
        pc: 0,
        ptrs,
        ints: interrupts_of(false, 0, 0),
        timers: Timers {
            base: 0,
            ta: 0,
            tb: 0,
        },
        ports: Ports {
            p3: 0,
            p4: 15,
            p5: 0,
            p6: 0,
            p8: 15,
            p9: 0,
            p16: 0,
            p17: reset_p17(d),
            p23: 15,
            p24: 15,
            p25: 0,
            p27: 0,
            p28: 0,
            p29: 0,
            p30: 0,
        },
        pins: Pins {
            p0: 15,
            p8: 15,
            p4: fresh_p4(d),
            speech: 0,
        },
        mode: Mode::Running,
        mark: false,
    }
}

pub fn fresh(d: Device) -> Machine
    ensures { result ≡ fresh_machine d }
{
    let regs = Registers {
        acc: 0,
        hr: 0,
        lr: 0,
        cf: false,
        zf: false,
        sf: true,
    };
    let core = fresh_core(d, regs, Pointers { sp: 0, dp: 0 });
    Machine {
        core,
        ram: [0; RAM_NIBBLES],
    }
}

fn reset_core(d: Device, m: Core) -> Core
    ensures { result ≡ reset_core d m }
{
    let regs = Registers { sf: true, ..m.regs };
    fresh_core(d, regs, m.ptrs)
}

// Reset; a record outside the ranges is refused.
pub fn reset(d: Device, m: Machine) -> Result<Machine, Refusal>
    ensures { ResetOf d m result }
{
    if !is_valid(d, m) {
        return Err(Refusal::RecordOutsideTheRanges);
    }
    Ok(Machine {
        core: reset_core(d, m.core),
        ..m
    })
}
