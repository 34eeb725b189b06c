// The calls on a record's bytes by the device, which em73862_* and em73p982_* hand on to. Each takes its bytes apart, calls the public function and puts numbers back.
// Two answers of a call to the same inputs are equal: proofs/OneAnswer.antt. A refusal leaves the record's bytes as they were: proofs/Kept.antt.
#![tactic(auto)]

pub mod compare;
pub mod frames;
pub mod why;

ghost use Rattle.std.specs.Prelude.{◌≡◌, OnOk, length};
ghost use Rattle.numbers.specs.Numbered.{refusal_number};
ghost use Rattle.record_bytes.specs.Layout.{record_size};
ghost use Rattle.step.specs.Advance.{stop_or_0};
ghost use Rattle.record_calls.specs.Calls.{unheld, options_of, number_of, PutBack, FreshCall, ResetCall, ValidCall, StepCall, LookCall, ActCall, DisplayCall};

use device::{Device, Options, image_size};
use display::display;
use numbers::{Refusal, Stop};
use record::start::{fresh, reset};
use record::valid::is_valid;
use record_bytes::{RECORD_BYTES, pack, unpack};
use step::apart::{act, look};
use step::{Stepped, step};

// The refusal of a buffer that holds no record, where there is an image too.
pub(crate) fn unheld(d: Device, image: &[u8]) -> Refusal
    ensures { refusal_number result ≡ unheld d image.now }
{
    if image.len() == image_size(d) {
        Refusal::RecordOutsideTheRanges
    } else {
        Refusal::ImageOfAnotherSize
    }
}

pub fn options_of(d: Device, wake: u8, sound: u8) -> Options
    ensures { result ≡ options_of d wake sound }
{
    Options {
        device: d,
        wake,
        sound: sound != 0,
    }
}

// The number of a stop, 0 where there is none.
pub(crate) fn stop_or_0(stop: Option<Stop>) -> u8
    ensures { result ≡ stop_or_0 stop }
{
    match stop {
        Some(stop) => u8::from(stop),
        None => 0,
    }
}

// What a step gives goes back to where its record came from; a refusal leaves the record's bytes as they were.
fn put_back(answer: Result<Stepped, Refusal>, bytes: &mut [u8], cycles: &mut u32) -> u8
    requires { OnOk answer (length bytes.old ≡ record_size) }
    ensures { PutBack answer bytes.old result cycles.new bytes.new }
{
    match answer {
        Ok(x) => {
            *cycles = u32::from(x.cycles);
            pack(x.machine, bytes);
            stop_or_0(x.stop)
        }
        Err(refusal) => {
            *cycles = 0;
            u8::from(refusal)
        }
    }
}

pub fn fresh_record(d: Device, bytes: &mut [u8]) -> u8
    ensures { FreshCall d bytes.old result bytes.new }
{
    if bytes.len() == RECORD_BYTES {
        pack(fresh(d), bytes);
        0
    } else {
        u8::from(Refusal::RecordOutsideTheRanges)
    }
}

pub fn reset_record(d: Device, bytes: &mut [u8]) -> u8
    ensures { ResetCall d bytes.old result bytes.new }
{
    let Some(m) = unpack(bytes) else {
        return u8::from(Refusal::RecordOutsideTheRanges);
    };
    match reset(d, m) {
        Ok(after) => {
            pack(after, bytes);
            0
        }
        Err(refusal) => u8::from(refusal),
    }
}

pub fn judge_record(d: Device, bytes: &[u8]) -> u8
    ensures { ValidCall d bytes.now result }
{
    match unpack(bytes) {
        Some(m) if is_valid(d, m) => 0,
        _ => u8::from(Refusal::RecordOutsideTheRanges),
    }
}

pub fn step_record(
    d: Device,
    image: &[u8],
    wake: u8,
    sound: u8,
    bytes: &mut [u8],
    frame: &[u8],
    cycles: &mut u32,
) -> u8
    ensures { StepCall image.now (options_of d wake sound) bytes.old frame.now result cycles.new bytes.new }
{
    let answer = match unpack(bytes) {
        Some(m) => step(image, options_of(d, wake, sound), m, frame),
        None => Err(unheld(d, image)),
    };
    put_back(answer, bytes, cycles)
}

pub fn look_record(
    d: Device,
    wake: u8,
    sound: u8,
    bytes: &mut [u8],
    frame: &[u8],
    cycles: &mut u32,
) -> u8
    ensures { LookCall (options_of d wake sound) bytes.old frame.now result cycles.new bytes.new }
{
    let answer = match unpack(bytes) {
        Some(m) => look(options_of(d, wake, sound), m, frame),
        None => Err(Refusal::RecordOutsideTheRanges),
    };
    put_back(answer, bytes, cycles)
}

pub fn act_record(
    d: Device,
    image: &[u8],
    wake: u8,
    sound: u8,
    bytes: &mut [u8],
    cycles: &mut u32,
) -> u8
    ensures { ActCall image.now (options_of d wake sound) bytes.old result cycles.new bytes.new }
{
    let answer = match unpack(bytes) {
        Some(m) => act(image, options_of(d, wake, sound), m),
        None => Err(unheld(d, image)),
    };
    put_back(answer, bytes, cycles)
}

pub fn show_record(d: Device, bytes: &[u8], dots: &mut [u8]) -> u8
    ensures { DisplayCall d bytes.now dots.old result dots.new }
{
    let Some(m) = unpack(bytes) else {
        return u8::from(Refusal::RecordOutsideTheRanges);
    };
    match display(d, m, dots) {
        Ok(()) => 0,
        Err(refusal) => u8::from(refusal),
    }
}
