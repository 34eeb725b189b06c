// The sound pin's calls on a state in bytes, for C and for whatever calls C: include/em73862_sound.h declares them.
// Two answers of a call to the same are equal, and a refusal leaves the bytes: proofs/OneAnswer.antt.
#![tactic(auto)]

ghost use Rattle.std.specs.Prelude.{◌≡◌, true, false, length, Result, MatchOption};
ghost use Rattle.sound_generator.specs.Answers.{p30_written, p24_written, p23_written, made_sleep, made_wake};
ghost use Rattle.sound_generator.specs.Advance.{advanced_by};
ghost use Rattle.numbers.specs.declared.Refusal.{Refusal};
ghost use Rattle.sound_generator.specs.declared.Sound.{Sound};
ghost use Rattle.sound_calls.specs.Layout.{bytes_of, holds_state, state_at};
ghost use Rattle.sound_calls.specs.Calls.{changed_by, left_by, not_held, started, Leaves, level_at, Shows};

use numbers::Refusal;
use sound_generator::advance::advance;
use sound_generator::{Sound, output, sleep, start, wake, write_p23, write_p24, write_p30};

const STATE_BYTES: usize = 8;

// None of a buffer that holds no state.
#[tactic(auto, unfolding(crate::specs::Layout::holds_state, crate::specs::Layout::state_at))]
fn unpack(bytes: &[u8]) -> Option<Sound>
    ensures { MatchOption result (holds_state bytes.now ≡ false) (λ s. (holds_state bytes.now ≡ true) × (s ≡ state_at bytes.now)) }
{
    if bytes.len() != STATE_BYTES || bytes[1] > 1 || bytes[4] > 1 {
        return None;
    }
    Some(Sound {
        mode: bytes[0],
        asleep: bytes[1] == 1,
        tf: bytes[2],
        count: bytes[3],
        tone: bytes[4] == 1,
        bits: u16::from_le_bytes([bytes[5], bytes[6]]),
        p24: bytes[7],
    })
}

#[tactic(auto, unfolding(crate::specs::Layout::bytes_of))]
fn pack(s: Sound, bytes: &mut [u8])
    requires { length bytes.old ≡ 8 }
    ensures { bytes.new ≡ bytes_of s }
{
    let [low, high] = s.bits.to_le_bytes();
    let packed = [
        s.mode,
        u8::from(s.asleep),
        s.tf,
        s.count,
        u8::from(s.tone),
        low,
        high,
        s.p24,
    ];
    bytes.copy_from_slice(&packed);
}

// The state in a buffer is changed, or stays where the change or the buffer is refused.
fn change<F: FnOnce(Sound) -> Result<Sound, Refusal>>(bytes: &mut [u8], f: F) -> u8
    requires { F.IsAlwaysCallable f }
    ensures no_state { holds_state bytes.old ≡ false → Leaves (not_held bytes.old) result bytes.new }
    ensures changed { holds_state bytes.old ≡ true → (r : Result Sound Refusal) × F.post f (state_at bytes.old) r × Leaves (left_by bytes.old r) result bytes.new }
{
    let Some(s) = unpack(bytes) else {
        return u8::from(Refusal::RecordOutsideTheRanges);
    };
    match f(s) {
        Ok(after) => {
            pack(after, bytes);
            0
        }
        Err(refusal) => u8::from(refusal),
    }
}

#[unsafe(no_mangle)]
pub extern "C" fn em73862_sound_start(bytes: &mut [u8]) -> u8
    ensures { Leaves (started bytes.old) result bytes.new }
{
    if bytes.len() != STATE_BYTES {
        return u8::from(Refusal::RecordOutsideTheRanges);
    }
    pack(start(), bytes);
    0
}

#[unsafe(no_mangle)]
pub extern "C" fn em73862_sound_write_p30(bytes: &mut [u8], value: u8) -> u8
    ensures { Leaves (changed_by (λ s. p30_written s value) bytes.old) result bytes.new }
{
    change(bytes, |s| write_p30(s, value))
}

#[unsafe(no_mangle)]
pub extern "C" fn em73862_sound_write_p24(bytes: &mut [u8], value: u8) -> u8
    ensures { Leaves (changed_by (λ s. p24_written s value) bytes.old) result bytes.new }
{
    change(bytes, |s| write_p24(s, value))
}

#[unsafe(no_mangle)]
pub extern "C" fn em73862_sound_write_p23(bytes: &mut [u8], value: u8) -> u8
    ensures { Leaves (changed_by (λ s. p23_written s value) bytes.old) result bytes.new }
{
    change(bytes, |s| write_p23(s, value))
}

#[unsafe(no_mangle)]
pub extern "C" fn em73862_sound_sleep(bytes: &mut [u8]) -> u8
    ensures { Leaves (changed_by made_sleep bytes.old) result bytes.new }
{
    change(bytes, |s| sleep(s))
}

#[unsafe(no_mangle)]
pub extern "C" fn em73862_sound_wake(bytes: &mut [u8]) -> u8
    ensures { Leaves (changed_by made_wake bytes.old) result bytes.new }
{
    change(bytes, |s| wake(s))
}

#[unsafe(no_mangle)]
pub extern "C" fn em73862_sound_advance(bytes: &mut [u8], pulses: u32) -> u8
    ensures { Leaves (changed_by (advanced_by pulses) bytes.old) result bytes.new }
{
    change(bytes, |s| advance(s, pulses))
}

// level: 1 for high, and 0 beside a refusal.
#[unsafe(no_mangle)]
pub extern "C" fn em73862_sound_output(bytes: &[u8], level: &mut u8) -> u8
    ensures { Shows (level_at bytes.now) result level.new }
{
    *level = 0;
    let Some(s) = unpack(bytes) else {
        return u8::from(Refusal::RecordOutsideTheRanges);
    };
    match output(s) {
        Ok(high) => {
            *level = u8::from(high);
            0
        }
        Err(refusal) => u8::from(refusal),
    }
}
