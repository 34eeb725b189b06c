// The sound pin's state, advanced by a number of pulses: by toggles, and not pulse by pulse.
// Advancing by a and then by b is advancing by a + b, and two answers to the same are equal: proofs/Advancing.antt.
ghost use Rattle.std.specs.Prelude.{◌≡◌, true, ◌≤◌};
ghost use Rattle.sound_generator.specs.Sound.{InRanges};
ghost use Rattle.sound_generator.specs.Advance.{runs as advances, pulses, most_pulses, zero_while_on, advanced_by};
ghost use Rattle.sound_generator.specs.Jump.{flipped};

use crate::random::after;
use crate::{DISABLED, Sound, in_ranges};
use numbers::Refusal;

const MOST_PULSES: u32 = 65535;

fn runs(s: Sound) -> bool
    ensures { result ≡ advances s }
{
    s.mode != DISABLED && !s.asleep
}

// A tone after so many toggles.
fn flipped(tone: bool, toggles: u32) -> bool
    ensures { result ≡ flipped toggles tone }
{
    if toggles % 2 == 1 { !tone } else { tone }
}

// The state n pulses later: (count + n) / (TF + 1) of them toggle the tone.
fn jump(s: Sound, n: u32) -> Sound
    requires { (InRanges s) × (n ≤ most_pulses) × (advances s ≡ true) }
    ensures { result ≡ pulses n s }
{
    let period = u32::from(s.tf) + 1;
    let counted = u32::from(s.count) + n;
    let toggles = counted / period;
    Sound {
        count: (counted % period) as u8,
        tone: flipped(s.tone, toggles),
        bits: after(s.bits, toggles),
        ..s
    }
}

fn advanced(s: Sound, n: u32) -> Sound
    requires { (InRanges s) × (n ≤ most_pulses) }
    ensures { result ≡ pulses n s }
{
    if runs(s) { jump(s, n) } else { s }
}

fn zero_while_on(s: Sound) -> bool
    ensures { result ≡ zero_while_on s }
{
    s.tf == 0 && s.mode != DISABLED
}

// The state n pulses later.
pub fn advance(s: Sound, n: u32) -> Result<Sound, Refusal>
    ensures { result ≡ advanced_by n s }
{
    if !in_ranges(s) {
        return Err(Refusal::RecordOutsideTheRanges);
    }
    if n > MOST_PULSES {
        return Err(Refusal::PulsesOverTheLimit);
    }
    if zero_while_on(s) {
        return Err(Refusal::TfOfZeroWhileOn);
    }
    Ok(advanced(s, n))
}
