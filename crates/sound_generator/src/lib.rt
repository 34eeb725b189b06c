// The sound pin's state: its ranges, its start, the writes of P30, P24 and P23, sleep and waking, and the output.
// Each public call answers what comes of it, or a refusal; two answers to the same are equal: proofs/Answers.antt.
#![tactic(auto)]

pub mod advance;
pub mod random;

ghost use Rattle.std.specs.Prelude.{◌≡◌};
ghost use Rattle.sound_generator.specs.Sound.{in_ranges, start_state, level_of};
ghost use Rattle.sound_generator.specs.Answers.{takes as takesValue, p30_written, p24_written, p23_written, made_sleep, made_wake, output_of};

use crate::random::NINE_BITS;
use numbers::Refusal;

// mode is P30 bits 1..0, p24 the value of P24 as it stands, bits the last nine random bits, bit 0 the latest.
#[derive(Clone, Copy)]
pub struct Sound {
    pub mode: u8,
    pub asleep: bool,
    pub tf: u8,
    pub count: u8,
    pub tone: bool,
    pub bits: u16,
    pub p24: u8,
}

const NIBBLES: u8 = 16;

pub const DISABLED: u8 = 0;

const TONE_OUTPUT: u8 = 1;

const RANDOM_OUTPUT: u8 = 2;

const MODES: u8 = 4;

pub fn start() -> Sound
    ensures { result ≡ start_state }
{
    Sound {
        mode: DISABLED,
        asleep: false,
        tf: 255,
        count: 0,
        tone: true,
        bits: 511,
        p24: 15,
    }
}

#[tactic(auto, unfolding(crate::specs::Sound::in_ranges))]
pub fn in_ranges(s: Sound) -> bool
    ensures { result ≡ in_ranges s }
{
    let ports = s.mode < MODES && s.p24 < NIBBLES;
    let bits = 0 < s.bits && s.bits < NINE_BITS;
    ports && s.count <= s.tf && bits
}

fn takes(s: Sound, n: u8) -> bool
    ensures { result ≡ takesValue s n }
{
    in_ranges(s) && n < NIBBLES
}

#[tactic(auto, unfolding(crate::specs::Answers::p30_written))]
pub fn write_p30(s: Sound, n: u8) -> Result<Sound, Refusal>
    ensures { result ≡ p30_written s n }
{
    if !takes(s, n) {
        return Err(Refusal::RecordOutsideTheRanges);
    }
    Ok(Sound {
        mode: n % MODES,
        ..s
    })
}

#[tactic(auto, unfolding(crate::specs::Answers::p24_written))]
pub fn write_p24(s: Sound, n: u8) -> Result<Sound, Refusal>
    ensures { result ≡ p24_written s n }
{
    if !takes(s, n) {
        return Err(Refusal::RecordOutsideTheRanges);
    }
    Ok(Sound { p24: n, ..s })
}

#[tactic(auto, unfolding(crate::specs::Answers::p23_written))]
pub fn write_p23(s: Sound, n: u8) -> Result<Sound, Refusal>
    ensures { result ≡ p23_written s n }
{
    if !takes(s, n) {
        return Err(Refusal::RecordOutsideTheRanges);
    }
    let restarted = Sound { count: 0, ..s };
    Ok(Sound {
        tf: NIBBLES * s.p24 + n,
        ..restarted
    })
}

#[tactic(auto, unfolding(crate::specs::Answers::made_sleep))]
pub fn sleep(s: Sound) -> Result<Sound, Refusal>
    ensures { result ≡ made_sleep s }
{
    if !in_ranges(s) {
        return Err(Refusal::RecordOutsideTheRanges);
    }
    Ok(Sound { asleep: true, ..s })
}

#[tactic(auto, unfolding(crate::specs::Answers::made_wake))]
pub fn wake(s: Sound) -> Result<Sound, Refusal>
    ensures { result ≡ made_wake s }
{
    if !in_ranges(s) {
        return Err(Refusal::RecordOutsideTheRanges);
    }
    Ok(Sound { asleep: false, ..s })
}

#[tactic(auto, unfolding(crate::specs::Sound::level_of))]
fn level(s: Sound) -> bool
    ensures { result ≡ level_of s }
{
    let latest = s.bits % 2 == 1;
    match s.mode {
        _ if s.asleep => true,
        DISABLED => true,
        TONE_OUTPUT => s.tone,
        RANDOM_OUTPUT => latest,
        _ => s.tone && latest,
    }
}

// What the pin shows: whether it is high.
#[tactic(auto, unfolding(crate::specs::Answers::output_of))]
pub fn output(s: Sound) -> Result<bool, Refusal>
    ensures { result ≡ output_of s }
{
    if !in_ranges(s) {
        return Err(Refusal::RecordOutsideTheRanges);
    }
    Ok(level(s))
}
