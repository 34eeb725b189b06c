// Whether a record is within its ranges.
ghost use Rattle.std.specs.Prelude.{◌≡◌, ◌<◌, length};
ghost use Rattle.laws.specs.Decides.{Decides};
ghost use Rattle.frame.specs.Frame.{PinsInRange};
ghost use Rattle.numbers.specs.Sizes.{ram_nibbles};
ghost use Rattle.record.specs.Valid.{ValidRegisters, ValidPointers, ValidInterrupts, ValidTimers, ValidAlso, ValidPorts, ModeFits, ValidCore, Nibbles, Valid};

use crate::{Core, Interrupts, Machine, Pointers, Registers, Timers};
use device::{Device, also_below, is_banked, p4_limit, speech_limit};
use due::due_number;
use frame::Pins;
use numbers::ADDRESSES;
use ports::{Mode, Ports};

fn registers_valid(r: Registers) -> bool
    ensures { Decides result (ValidRegisters r) }
{
    r.acc < 16 && r.hr < 16 && r.lr < 16
}

fn pointers_valid(p: Pointers) -> bool
    ensures { Decides result (ValidPointers p) }
{
    p.sp < 16 && p.dp < 4096
}

fn interrupts_valid(i: Interrupts) -> bool
    ensures { Decides result (ValidInterrupts i) }
{
    i.il < 64 && i.il / 16 % 2 == 0 && i.mask < 16 && i.due == due_number(i.il, i.mask)
}

fn timers_valid(t: Timers) -> bool
    ensures { Decides result (ValidTimers t) }
{
    t.base < 4194304 && t.base % 8 == 0 && t.ta < 4096 && t.tb < 4096
}

// P3, P5, P6 and P17.
fn also_valid(d: Device, p: Ports) -> bool
    ensures { Decides result (ValidAlso d p) }
{
    is_banked(d, p.p3 as u32)
        && p.p5 < also_below(d, 5)
        && p.p6 < also_below(d, 6)
        && p.p17 < also_below(d, 17)
}

fn ports_valid(d: Device, p: Ports) -> bool
    ensures { Decides result (ValidPorts d p) }
{
    also_valid(d, p)
        && p.p4 < 16
        && p.p8 < 16
        && p.p9 < 16
        && p.p16 < 16
        && p.p23 < 16
        && p.p24 < 16
        && p.p25 < 16
        && p.p27 < 16
        && p.p28 < 16
        && p.p29 < 16
        && p.p30 < 16
        && p.p25 / 4 != 2
        && p.p27 / 4 != 2
}

fn pins_valid(d: Device, p: Pins) -> bool
    ensures { Decides result (PinsInRange d p) }
{
    p.p0 < 16 && p.p8 < 16 && p.p4 < p4_limit(d) && p.speech < speech_limit(d)
}

fn mode_fits(mode: Mode, p16: u8) -> bool
    ensures { Decides result (ModeFits mode p16) }
{
    match mode {
        Mode::Running => true,
        Mode::Sleep => p16 / 4 % 2 == 1 && p16 % 4 != 3,
        Mode::Hold => p16 / 4 % 2 == 1 && p16 % 4 == 3,
    }
}

fn core_is_valid(d: Device, m: Core) -> bool
    ensures { Decides result (ValidCore d m) }
{
    registers_valid(m.regs)
        && m.pc < ADDRESSES
        && pointers_valid(m.ptrs)
        && interrupts_valid(m.ints)
        && timers_valid(m.timers)
        && ports_valid(d, m.ports)
        && pins_valid(d, m.pins)
        && mode_fits(m.mode, m.ports.p16)
}

pub fn is_valid(d: Device, m: Machine) -> bool
    ensures { Decides result (Valid d m) }
{
    core_is_valid(d, m.core) && m.ram.iter().all(|n| *n < 16)
}
