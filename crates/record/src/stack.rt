// The stack: a call, an acceptance, RET and RTI, each on the record by value.
ghost use Rattle.std.specs.Prelude.{◌≡◌, ◌<◌};
ghost use Rattle.numbers.specs.Sizes.{addresses};
ghost use Rattle.record.specs.Valid.{Nibbles};
ghost use Rattle.record.specs.Stack.{can_push, can_pop, CanPush, CanPop, pushed, popped, called, accepted, flags_returned, interrupt_entry};

use crate::pack::{kept_top, pc_at, store, top_at, top_of};
use crate::{Core, Machine, interrupts_of};
use bits::{bit_at, weight, without_bit};

// Where an interrupt goes, by its latch's number from IL0 up.
const ENTRIES: [u16; 6] = [0x00C, 0x00A, 0x008, 0x006, 0x004, 0x002];

fn entry_of(latch: u8) -> u16
    requires { latch < 6 }
    ensures { result ≡ interrupt_entry latch }
{
    ENTRIES[latch as usize]
}

// "SP must be 1 to 13" for a call or an acceptance.
pub fn can_push(m: Core) -> bool
    ensures { result ≡ can_push m }
{
    1 <= m.ptrs.sp && m.ptrs.sp <= 13
}

// For a return: "0 to 12".
pub fn can_pop(m: Core) -> bool
    ensures { result ≡ can_pop m }
{
    m.ptrs.sp <= 12
}

impl Machine {
    // The level below, with ret and the top nibble in it.
    pub fn push(self, ret: u16, top: u8) -> Machine
        requires { CanPush self.core }
        ensures { result ≡ pushed self ret top }
    {
        let mut n = self;
        n.core.ptrs.sp -= 1;
        store(&mut n.ram, n.core.ptrs.sp, ret, top);
        n
    }

    // PC of the level at SP, which is given up.
    pub fn pop(self) -> Machine
        requires { (Nibbles self.ram) × (CanPop self.core) }
        ensures { result ≡ popped self }
    {
        let mut n = self;
        n.core.pc = pc_at(&n.ram, n.core.ptrs.sp);
        n.core.ptrs.sp += 1;
        n
    }

    // A call that returns to ret: the flag bits of its nibble stay.
    #[tactic(auto, unfolding(crate::specs::Stack::called))]
    pub fn call(self, ret: u16, target: u16) -> Machine
        requires { (Nibbles self.ram) × (CanPush self.core) × (ret < addresses) }
        ensures { result ≡ called self ret target }
    {
        let old = top_at(&self.ram, self.core.ptrs.sp - 1);
        let mut n = self.push(ret, kept_top(ret, old));
        n.core.pc = target;
        n
    }

    // The interrupt of a latch, by its number.
    #[tactic(auto, unfolding(crate::specs::Stack::accepted))]
    pub fn accept(self, latch: u8) -> Machine
        requires { (CanPush self.core) × (self.core.pc < addresses) × (latch < 6) }
        ensures { result ≡ accepted self latch }
    {
        let ints = self.core.ints;
        let il = without_bit(ints.il, weight(latch));
        let mut n = self.push(self.core.pc, top_of(self.core.pc, self.core.regs));
        n.core.pc = entry_of(latch);
        n.core.regs.sf = true;
        n.core.ints = interrupts_of(false, il, ints.mask);
        n
    }

    // RTI: PC, the flags and EI.
    #[tactic(auto, unfolding(crate::specs::Stack::flags_returned))]
    pub fn return_flags(self) -> Machine
        requires { (Nibbles self.ram) × (CanPop self.core) }
        ensures { result ≡ flags_returned self }
    {
        let top = top_at(&self.ram, self.core.ptrs.sp);
        let ints = self.core.ints;
        let mut n = self.pop();
        n.core.regs.cf = bit_at(top, 1);
        n.core.regs.zf = bit_at(top, 2);
        n.core.regs.sf = bit_at(top, 3);
        n.core.ints = interrupts_of(true, ints.il, ints.mask);
        n
    }
}
