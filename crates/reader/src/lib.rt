// The reader: what a code is, by its bytes and by an image, P3 and an address.
#![tactic(auto)]

pub mod row_number;

ghost use Rattle.std.specs.Prelude.{◌≡◌, [], ◌∷◌, length, ◌+◌, ◌*◌, ◌%◌, ◌<◌, ◌≤◌};
ghost use Rattle.numbers.specs.Sizes.{addresses};
ghost use Rattle.device.specs.Device.{rom_of, window_end};
ghost use Rattle.sheet.specs.Reading.{read_bytes, read_left, read_at};
ghost use Rattle.reader.specs.Answer.{paper_of, p3_given, read_paper};

use crate::row_number::found;
use device::Device;
use device::image::{Image, Window};
use numbers::{LAST_ADDRESS, Refusal};
use sheet::{Insn, NoRow};

// What is read at an address: the instruction, its bytes and its cycles.
#[derive(Clone, Copy)]
pub struct Decoded {
    pub insn: Insn,
    pub bytes: u8,
    pub cycles: u8,
}

// What a code of three bytes is; it may use fewer.
pub fn decode(b0: u8, b1: u8, b2: u8) -> Result<Insn, NoRow>
    ensures { result ≡ read_bytes (b0 ∷ b1 ∷ b2 ∷ []) }
{
    found(b0, b1, b2).ok_or(NoRow::Unassigned)
}

// What the one byte is that is left at the last address.
fn last_one(b0: u8) -> Result<Insn, NoRow>
    ensures { result ≡ read_left (b0 ∷ []) }
{
    let cost = sheet::timing(b0);
    if cost.bytes < 2 {
        decode(b0, 0, 0)
    } else {
        Err(NoRow::PastEnd) // it begins a longer row
    }
}

// What the two bytes are that are left at the address before it; of three bytes is SLBR alone, whose second is 1100 aaaa.
fn last_two(b0: u8, b1: u8) -> Result<Insn, NoRow>
    ensures { result ≡ read_left (b0 ∷ b1 ∷ []) }
{
    let cost = sheet::timing(b0);
    if cost.bytes < 3 {
        decode(b0, b1, 0)
    } else if b1 / 16 == 12 {
        Err(NoRow::PastEnd) // SLBR goes on
    } else {
        Err(NoRow::Unassigned)
    }
}

// What stands at an address of the window.
pub fn read_at(window: Window, at: u16) -> Result<Insn, NoRow>
    requires { at < addresses }
    ensures { result ≡ read_at (rom_of window.entry.bytes.now window.entry.p3) at }
{
    if at < 8190 {
        decode(window.byte(at), window.byte(at + 1), window.byte(at + 2))
    } else if at == 8190 {
        last_two(window.byte(at), window.byte(at + 1))
    } else {
        last_one(window.byte(at))
    }
}

// The reader in the window of a P3 that the device has.
fn read_shown(d: Device, image: &[u8], p3: u32, address: u32) -> Result<Decoded, Refusal>
    ensures { paper_of result ≡ read_paper d image.now p3 address }
{
    let window = Image::of(d, image)?.shown(p3)?;
    if LAST_ADDRESS < address {
        return Err(Refusal::AddressOver8191);
    }
    let at = address as u16;
    let insn = read_at(window, at)?;
    let cost = sheet::timing(window.byte(at));
    Ok(Decoded {
        insn,
        bytes: cost.bytes,
        cycles: cost.cycles,
    })
}

// The P3 of a reader's or a bound's input that the device looks at.
pub fn p3_given(d: Device, p3: u32) -> u32
    ensures { result ≡ p3_given d p3 }
{
    match d {
        Device::Em73862 => 0,
        Device::Em73P982 => p3,
    }
}

// The public reader.
pub fn read(d: Device, image: &[u8], p3: u32, address: u32) -> Result<Decoded, Refusal>
    ensures { paper_of result ≡ read_paper d image.now (p3_given d p3) address }
{
    read_shown(d, image, p3_given(d, p3), address)
}
