// PC and the flags as the four nibbles of a stack level, by shifts and masks, and a level of RAM.
ghost use Rattle.std.specs.Prelude.{◌≡◌, ◌+◌, ◌*◌, ◌%◌, ◌≤◌, ◌<◌};
ghost use Rattle.numbers.specs.Sizes.{addresses};
ghost use Rattle.record.specs.Valid.{Nibbles};
ghost use Rattle.record.specs.Ram.{Peeked};
ghost use Rattle.record.specs.Stack.{stored, top_of, pc_at, kept_top, level};

use crate::ram::{peek, poke};
use crate::{Ram, Registers};
use bits::nibble_at;

// The nibble of PC12, CF, ZF, SF from bit 0 up.
pub(crate) fn top_of(pc: u16, r: Registers) -> u8
    requires { pc < addresses }
    ensures { result ≡ top_of pc r }
{
    ((u8::from(r.sf) << 1 | u8::from(r.zf)) << 1 | u8::from(r.cf)) << 1 | nibble_at(pc, 12)
}

// The nibble of PC12, with the flag bits of the one that stands there.
pub(crate) fn kept_top(pc: u16, old: u8) -> u8
    requires { (pc < addresses) × (old < 16) }
    ensures { result ≡ kept_top pc old }
{
    old & 14 | nibble_at(pc, 12)
}

fn pc_of(a: u8, b: u8, c: u8, d: u8) -> u16
    requires { (a < 16) × (b < 16) × (c < 16) }
    ensures { result ≡ a + 16 * b + 256 * c + 4096 * (d % 2) }
{
    (((d as u16 & 1) << 4 | c as u16) << 4 | b as u16) << 4 | a as u16
}

fn place_of(n: u8) -> usize
    requires { n ≤ 12 }
    ensures { result ≡ level n }
{
    0x0C0 + 4 * (n as usize)
}

// The four nibbles of level n.
pub(crate) fn store(ram: &mut Ram, n: u8, pc: u16, top: u8)
    requires { n ≤ 12 }
    ensures { ram.new ≡ stored ram.old n pc top }
{
    let at = place_of(n);
    poke(ram, at, nibble_at(pc, 0));
    poke(ram, at + 1, nibble_at(pc, 4));
    poke(ram, at + 2, nibble_at(pc, 8));
    poke(ram, at + 3, top);
}

pub(crate) fn pc_at(ram: &Ram, n: u8) -> u16
    requires { (Nibbles ram.now) × (n ≤ 12) }
    ensures { result ≡ pc_at ram.now n }
{
    let at = place_of(n);
    pc_of(
        peek(ram, at),
        peek(ram, at + 1),
        peek(ram, at + 2),
        peek(ram, at + 3),
    )
}

pub(crate) fn top_at(ram: &Ram, n: u8) -> u8
    requires { (Nibbles ram.now) × (n ≤ 12) }
    ensures { Peeked ram.now (level n + 3) result }
{
    peek(ram, place_of(n) + 3)
}
