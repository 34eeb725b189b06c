// The record: its types. ram.rt and pack.rt read and write RAM, stack.rt is for calls and interrupts.
#![tactic(auto)]

mod pack;
pub mod ram;
pub mod stack;
pub mod start;
pub mod valid;

ghost use Rattle.std.specs.Prelude.{◌≡◌};
ghost use Rattle.record.specs.Valid.{ValidInterrupts};
ghost use Rattle.record.specs.With.{interrupts_of};

use due::due_number;
use frame::Pins;
use numbers::RAM_NIBBLES;
use ports::{Mode, Ports};

#[derive(Clone, Copy)]
pub struct Registers {
    pub acc: u8,
    pub hr: u8,
    pub lr: u8,
    pub cf: bool,
    pub zf: bool,
    pub sf: bool,
}

#[derive(Clone, Copy)]
pub struct Pointers {
    pub sp: u8,
    pub dp: u16,
}

// il has the latches IL5 to IL0 as bits 5 to 0. due is the source that would be accepted were EI set: 0 none, 1 to 5 INT0, TRGA, TRGB, TBI, INT1.
#[derive(Clone, Copy)]
pub struct Interrupts {
    pub ei: bool,
    pub il: u8,
    pub mask: u8,
    pub due: u8,
}

#[derive(Clone, Copy)]
pub struct Timers {
    pub base: u32,
    pub ta: u16,
    pub tb: u16,
}

// All but RAM. The mark is left by a look at the frame in sleep or hold, which is the whole step: acting does nothing then.
#[derive(Clone, Copy)]
pub struct Core {
    pub regs: Registers,
    pub pc: u16,
    pub ptrs: Pointers,
    pub ints: Interrupts,
    pub timers: Timers,
    pub ports: Ports,
    pub pins: Pins,
    pub mode: Mode,
    pub mark: bool,
}

// "RAM: 372 nibbles, 000h to 0F3h and 100h to 17Fh", a nibble a place.
pub type Ram = [u8; RAM_NIBBLES];

#[derive(Clone, Copy)]
pub struct Machine {
    pub core: Core,
    pub ram: Ram,
}

// EI, the latches, the mask, and the source that is due by them: every place that changes one of them makes all four by this.
pub fn interrupts_of(ei: bool, il: u8, mask: u8) -> Interrupts
    ensures { result ≡ interrupts_of ei il mask }
{
    Interrupts {
        ei,
        il,
        mask,
        due: due_number(il, mask),
    }
}

// The same with other latches. Most steps set none: what is due stays then.
pub fn with_latches(i: Interrupts, il: u8) -> Interrupts
    requires { ValidInterrupts i }
    ensures { result ≡ interrupts_of i.ei il i.mask }
{
    if il == i.il {
        i
    } else {
        interrupts_of(i.ei, il, i.mask)
    }
}
