// Document 01, "Display": the forty bytes that say which dots are on.
#![tactic(auto)]

ghost use Rattle.std.specs.Prelude.{◌≡◌, ◌<◌, ◌≤◌, length};
ghost use Rattle.record.specs.Valid.{Nibbles};
ghost use Rattle.display.specs.Bytes.{pair_at, byte_in};
ghost use Rattle.display.specs.Display.{Shows, DisplayOf};

use device::Device;
use numbers::Refusal;
use record::ram::peek;
use record::valid::is_valid;
use record::{Machine, Ram};

// "Forty bytes, five a row"
const DOT_BYTES: usize = 40;

fn pair(ram: &Ram, at: usize) -> u8
    requires { (Nibbles ram.now) × (at < 371) }
    ensures { result ≡ pair_at ram.now at }
{
    let low = peek(ram, at);
    let high = peek(ram, at + 1);
    low + 16 * high
}

// Byte j of the forty.
fn byte(on: bool, ram: &Ram, j: usize) -> u8
    requires { (Nibbles ram.now) × (j < 40) }
    ensures { result ≡ byte_in on ram.now j }
{
    if on {
        pair(ram, 0x20 + 16 * (j / 5) + 2 * (j % 5))
    } else {
        0
    }
}

fn show(m: Machine, out: &mut [u8])
    requires { (Nibbles m.ram) × (40 ≤ length out.old) }
    ensures { Shows m out.old out.new }
{
    let on = m.core.ports.p27 / 4 == 3;
    let dots = &mut out[..DOT_BYTES];
    for (j, b) in dots.iter_mut().enumerate() {
        *b = byte(on, &m.ram, j);
    }
}

// The dots in the first forty bytes of out. Where the call refuses, out is as it was.
#[tactic(auto, using(crate::proofs::Answers::fails, crate::proofs::Answers::passes, crate::proofs::Answers::outside_ranges, crate::proofs::Answers::under_40, crate::proofs::Answers::all_shown))]
pub fn display(d: Device, m: Machine, out: &mut [u8]) -> Result<(), Refusal>
    ensures { DisplayOf d m out.old out.new result }
{
    if !is_valid(d, m) {
        return Err(Refusal::RecordOutsideTheRanges);
    }
    if out.len() < DOT_BYTES {
        return Err(Refusal::DisplayBufferUnder40Bytes);
    }
    show(m, out);
    Ok(())
}
