// What differs between the devices, as code: each function gives what the page specs/Device.antt says.
#![tactic(auto)]

pub mod image;

ghost use Rattle.std.specs.Prelude.{◌≡◌, ◌<◌, get_or};
ghost use Rattle.laws.specs.Among.{among};
ghost use Rattle.device.specs.Device.{image_size, frame_size, limit_of, fresh_frame, also_writable, also_below, reset_of, reserved, p4_pins, ends_speech, guarded, in_image, is_banked};

use bits::with_bit;

#[derive(Clone, Copy, PartialEq, Eq)]
pub enum Device {
    Em73862,
    Em73P982,
}

// wake has the enable bits of P0.0 to P0.3 and P8.0 to P8.3, from bit 0 up; sound is SOUND enabled at P4.0.
#[derive(Clone, Copy, PartialEq, Eq)]
pub struct Options {
    pub device: Device,
    pub wake: u8,
    pub sound: bool,
}

pub fn image_size(d: Device) -> usize
    ensures { result ≡ image_size d }
{
    match d {
        Device::Em73862 => 8192,
        Device::Em73P982 => 16384,
    }
}

pub fn frame_size(d: Device) -> usize
    ensures { result ≡ frame_size d }
{
    match d {
        Device::Em73862 => 3,
        Device::Em73P982 => 4,
    }
}

// What the digit of P4 stays below, and the fourth digit.
pub fn p4_limit(d: Device) -> u8
    ensures { result ≡ limit_of d 2 }
{
    match d {
        Device::Em73862 => 2,
        Device::Em73P982 => 16,
    }
}

pub fn speech_limit(d: Device) -> u8
    ensures { result ≡ limit_of d 3 }
{
    match d {
        Device::Em73862 => 1,
        Device::Em73P982 => 2,
    }
}

// The digit of P4 in the fresh last frame.
pub fn fresh_p4(d: Device) -> u8
    ensures { result ≡ get_or (fresh_frame d) 2 0 }
{
    match d {
        Device::Em73862 => 1,
        Device::Em73P982 => 15,
    }
}

// What P17 resets to.
pub fn reset_p17(d: Device) -> u8
    ensures { result ≡ reset_of d 17 }
{
    match d {
        Device::Em73862 => 0,
        Device::Em73P982 => 15,
    }
}

// Whether the device has P3, P5, P6 and P17.
pub fn also_writable(d: Device, n: u8) -> bool
    ensures { result ≡ among (also_writable d) n }
{
    match d {
        Device::Em73862 => false,
        Device::Em73P982 => matches!(n, 3 | 5 | 6 | 17),
    }
}

pub fn also_below(d: Device, n: u8) -> u8
    ensures { result ≡ also_below d n }
{
    if also_writable(d, n) { 16 } else { 1 }
}

// What a port may not hold.
pub fn reserved(d: Device, n: u8, v: u8) -> bool
    ensures { result ≡ reserved d n v }
{
    match n {
        25 | 27 => v / 4 == 2,
        3 => also_writable(d, 3) && v % 4 == 3,
        _ => false,
    }
}

// What P4 reads.
pub fn p4_pins(d: Device, sound: bool, p4: u8) -> u8
    requires { p4 < limit_of d 2 }
    ensures { result ≡ p4_pins d sound p4 }
{
    match d {
        Device::Em73862 if sound => 15,
        Device::Em73862 => 14 + p4,
        Device::Em73P982 if sound => with_bit(p4, 1),
        Device::Em73P982 => p4,
    }
}

pub fn ends_speech(d: Device) -> bool
    ensures { result ≡ ends_speech d }
{
    matches!(d, Device::Em73P982)
}

// Whether the bound excludes writing the port.
pub fn is_guarded(d: Device, n: u8) -> bool
    ensures { result ≡ among (guarded d) n }
{
    match d {
        Device::Em73862 => n == 16,
        Device::Em73P982 => matches!(n, 16 | 3),
    }
}

// Where in the image the byte of an address is.
pub fn in_image(p3: u8, at: u16) -> usize
    requires { at < 8192 }
    ensures { result ≡ in_image p3 at }
{
    let i = at as usize;
    if i < 4096 {
        i
    } else {
        i + 4096 * (p3 % 4) as usize
    }
}

// Whether a record or an input may have this P3.
pub fn is_banked(d: Device, p3: u32) -> bool
    ensures { result ≡ is_banked d p3 }
{
    p3 < also_below(d, 3) as u32 && p3 % 4 != 3
}
