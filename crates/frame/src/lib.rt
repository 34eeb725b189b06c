// Frames: three or four characters as pins, and sequences of them. Characters are judged and read without a branch on what they are, and frames that are as those before 24 characters at a time.
#![tactic(auto)]

ghost use Rattle.std.specs.Prelude.{◌≡◌, true, ◌+◌, ◌-◌, ◌%◌, ◌<◌, ◌≤◌, ltb, length};
ghost use Rattle.text.specs.Hexadecimal.{digit_of};
ghost use Rattle.device.specs.Device.{frame_size};
ghost use Rattle.frame.specs.Judged.{Again, AfterFrame, Between};
ghost use Rattle.frame.specs.Frame.{pins_of, chars_at, is_frame_at, frame_of, are_frames};

use device::{Device, frame_size};

// What a frame says of the pins: P0, P8, P4, and 1 where speech ends. A digit that the device's frames do not have is 0.
#[derive(Clone, Copy, PartialEq, Eq)]
pub struct Pins {
    pub p0: u8,
    pub p8: u8,
    pub p4: u8,
    pub speech: u8,
}

#[tactic(auto, unfolding(text::specs::Hexadecimal::digit_of))]
fn is_digit(c: u8) -> bool
    ensures { result ≡ ltb (digit_of c) 16 }
{
    c.is_ascii_hexdigit()
}

#[tactic(auto, unfolding(text::specs::Hexadecimal::digit_of))]
fn is_bit(c: u8) -> bool
    ensures { result ≡ ltb (digit_of c) 2 }
{
    matches!(c, b'0' | b'1')
}

// The first two characters are digits, and the last is 0 or 1; the EM73P982 has one more digit between them.
fn is_frame_at(d: Device, s: &[u8], at: usize) -> bool
    requires { at + frame_size d ≤ length s.now }
    ensures { result ≡ is_frame_at d s.now at }
{
    let ports = is_digit(s[at]) & is_digit(s[at + 1]);
    match d {
        Device::Em73862 => ports & is_bit(s[at + 2]),
        Device::Em73P982 => ports & is_digit(s[at + 2]) & is_bit(s[at + 3]),
    }
}

// The value of a character that is a digit.
#[tactic(auto, unfolding(text::specs::Hexadecimal::digit_of))]
fn digit_value(c: u8) -> u8
    requires { digit_of c < 16 }
    ensures { result ≡ digit_of c }
{
    c % 16 + 9 * (c / 64)
}

// The pins of a frame that was judged.
pub fn pins_at(d: Device, s: &[u8], at: usize) -> Pins
    requires { (at + frame_size d ≤ length s.now) × (is_frame_at d s.now at ≡ true) }
    ensures { result ≡ pins_of (chars_at (frame_size d) s.now at) }
{
    let pins = Pins {
        p0: digit_value(s[at]),
        p8: digit_value(s[at + 1]),
        p4: digit_value(s[at + 2]),
        speech: 0,
    };
    match d {
        Device::Em73862 => pins,
        Device::Em73P982 => Pins {
            speech: digit_value(s[at + 3]),
            ..pins
        },
    }
}

// The pins of the frame that the characters are, and none where they are no frame.
pub fn frame_of(d: Device, s: &[u8]) -> Option<Pins>
    ensures { result ≡ frame_of d s.now }
{
    if s.len() == frame_size(d) && is_frame_at(d, s, 0) {
        Some(pins_at(d, s, 0))
    } else {
        None
    }
}

// Each frame from one place to another.
fn judged(d: Device, s: &[u8], from: usize, to: usize) -> bool
    requires { (from ≤ to) × (to ≤ length s.now) × ((to - from) % frame_size d ≡ 0) }
    ensures { Between d s.now from to result }
{
    let mut ok = true;
    for at in (from..to).step_by(frame_size(d)) {
        ok &= is_frame_at(d, s, at);
    }
    ok
}

// Whether the 24 bytes from at + n on are those from at on.
fn again(s: &[u8], n: usize, at: usize) -> bool
    requires { at + n + 24 ≤ length s.now }
    ensures { Again s.now n at 24 result }
{
    s[at + n..at + n + 24] == s[at..at + 24]
}

// The 24 characters after a frame: eight frames of three, or six of four.
fn after_one(d: Device, s: &[u8], at: usize) -> bool
    requires { (at + frame_size d + 24 ≤ length s.now) × (AfterFrame d s.now (at + frame_size d)) }
    ensures { Between d s.now (at + frame_size d) (at + frame_size d + 24) result }
{
    let n = frame_size(d);
    again(s, n, at) || judged(d, s, at + n, at + n + 24)
}

// Whether the whole buffer is frames.
pub fn are_frames(d: Device, s: &[u8]) -> bool
    ensures { result ≡ are_frames d s.now }
{
    let n = frame_size(d);
    if s.len() % n != 0 {
        return false;
    }
    if s.len() < n {
        return true;
    }
    if !is_frame_at(d, s, 0) {
        return false;
    }
    let mut at: usize = 0;
    while s.len() - at >= n + 24 {
        if !after_one(d, s, at) {
            return false;
        }
        at += 24;
    }
    judged(d, s, at + n, s.len())
}
