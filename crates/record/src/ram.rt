// RAM: the place of an address, a stop where it has none, and the two functions that touch a nibble.
ghost use Rattle.std.specs.Prelude.{◌≡◌, ◌*◌, ◌+◌, ◌<◌, ◌≤◌, set};
ghost use Rattle.numbers.specs.Sizes.{ram_nibbles};
ghost use Rattle.record.specs.Valid.{Nibbles};
ghost use Rattle.record.specs.Ram.{place_of, bank_of, at_hl, at_x, at_y, Placed, Peeked};

use crate::{Core, Ram};
use numbers::Stop;

#[tactic(auto, unfolding(crate::specs::Ram::place_of))]
fn place(address: u16) -> Result<usize, Stop>
    ensures { Placed result (place_of address) }
{
    let at = address as usize;
    match at {
        0x000..=0x0F3 => Ok(at),
        0x100..=0x17F => Ok(0x0F4 + (at - 0x100)),
        _ => Err(Stop::AbsentRamAddress),
    }
}

// "bank P9.3"
pub fn bank_of(m: Core) -> u8
    ensures { result ≡ bank_of m }
{
    m.ports.p9 / 8 % 2
}

fn bank(m: Core) -> u16
    ensures { result ≡ 0x100 * bank_of m }
{
    0x100 * (bank_of(m) as u16)
}

pub fn at_hl(m: Core) -> Result<usize, Stop>
    ensures { Placed result (at_hl m) }
{
    place(bank(m) + 0x10 * (m.regs.hr as u16) + m.regs.lr as u16)
}

// x is a direct address, or the one beside it.
pub fn at_x(m: Core, x: u16) -> Result<usize, Stop>
    requires { x ≤ 0x100 }
    ensures { Placed result (at_x m x) }
{
    place(bank(m) + x)
}

pub fn at_y(y: u8) -> Result<usize, Stop>
    ensures { Placed result (at_y y) }
{
    place(y as u16)
}

pub fn peek(ram: &Ram, at: usize) -> u8
    requires { (Nibbles ram.now) × (at < ram_nibbles) }
    ensures { Peeked ram.now at result }
{
    ram[at]
}

pub fn poke(ram: &mut Ram, at: usize, v: u8)
    requires { at < ram_nibbles }
    ensures { ram.new ≡ set ram.old at v }
{
    ram[at] = v;
}
