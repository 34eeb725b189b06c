// The calls of the EM73862 for C on a record, but for the run: include/em73862.h declares them. Each names the device and hands on to record_calls.
// Two answers of a call to the same inputs are equal: proofs/ of record_calls.
#![tactic(auto)]

ghost use Rattle.device.specs.declared.Device.TheVariants.{Em73862};
ghost use Rattle.record_calls.specs.Calls.{options_of, FreshCall, ResetCall, ValidCall, StepCall, LookCall, ActCall, DisplayCall};
ghost use Rattle.record_calls.specs.Compare.{CompareCall};
ghost use Rattle.record_calls.specs.Why.{WhyCall};

use device::Device;
use record_calls::compare::compare_buffers;
use record_calls::why::why_numbers;
use record_calls::{
    act_record, fresh_record, judge_record, look_record, reset_record, show_record, step_record,
};

#[unsafe(no_mangle)]
pub extern "C" fn em73862_fresh(bytes: &mut [u8]) -> u8
    ensures { FreshCall Em73862 bytes.old result bytes.new }
{
    fresh_record(Device::Em73862, bytes)
}

#[unsafe(no_mangle)]
pub extern "C" fn em73862_reset(bytes: &mut [u8]) -> u8
    ensures { ResetCall Em73862 bytes.old result bytes.new }
{
    reset_record(Device::Em73862, bytes)
}

#[unsafe(no_mangle)]
pub extern "C" fn em73862_is_valid(bytes: &[u8]) -> u8
    ensures { ValidCall Em73862 bytes.now result }
{
    judge_record(Device::Em73862, bytes)
}

#[unsafe(no_mangle)]
pub extern "C" fn em73862_step(
    image: &[u8],
    wake: u8,
    sound: u8,
    bytes: &mut [u8],
    frame: &[u8],
    cycles: &mut u32,
) -> u8
    ensures { StepCall image.now (options_of Em73862 wake sound) bytes.old frame.now result cycles.new bytes.new }
{
    step_record(Device::Em73862, image, wake, sound, bytes, frame, cycles)
}

#[unsafe(no_mangle)]
pub extern "C" fn em73862_look(
    wake: u8,
    sound: u8,
    bytes: &mut [u8],
    frame: &[u8],
    cycles: &mut u32,
) -> u8
    ensures { LookCall (options_of Em73862 wake sound) bytes.old frame.now result cycles.new bytes.new }
{
    look_record(Device::Em73862, wake, sound, bytes, frame, cycles)
}

#[unsafe(no_mangle)]
pub extern "C" fn em73862_act(
    image: &[u8],
    wake: u8,
    sound: u8,
    bytes: &mut [u8],
    cycles: &mut u32,
) -> u8
    ensures { ActCall image.now (options_of Em73862 wake sound) bytes.old result cycles.new bytes.new }
{
    act_record(Device::Em73862, image, wake, sound, bytes, cycles)
}

#[unsafe(no_mangle)]
pub extern "C" fn em73862_display(bytes: &[u8], dots: &mut [u8]) -> u8
    ensures { DisplayCall Em73862 bytes.now dots.old result dots.new }
{
    show_record(Device::Em73862, bytes, dots)
}

#[unsafe(no_mangle)]
pub extern "C" fn em73862_why(
    image: &[u8],
    wake: u8,
    sound: u8,
    bytes: &[u8],
    frame: &[u8],
    holds: &mut u8,
    source: &mut u8,
    sources: &mut u8,
) -> u8
    ensures { WhyCall image.now (options_of Em73862 wake sound) bytes.now frame.now (record { number = result; holds = holds.new; source = source.new; sources = sources.new }) }
{
    let n = why_numbers(Device::Em73862, image, wake, sound, bytes, frame);
    *holds = n.holds;
    *source = n.source;
    *sources = n.sources;
    n.number
}

#[unsafe(no_mangle)]
pub extern "C" fn em73862_compare(
    image: &[u8],
    script: &[u8],
    listing: &[u8],
    line: &mut u64,
    field: &mut u8,
) -> u8
    ensures { CompareCall Em73862 image.now script.now listing.now result line.new field.new }
{
    compare_buffers(Device::Em73862, image, script, listing, line, field)
}
