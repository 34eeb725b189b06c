// em73862_run in an archive of its own, where nothing else makes steps: what one step is then stands within the loop.
#![tactic(auto)]

ghost use Rattle.device.specs.declared.Device.TheVariants.{Em73862};
ghost use Rattle.record_calls.specs.Calls.{options_of, RunCall};

use device::Device;
use record_calls::frames::run_record;

#[unsafe(no_mangle)]
pub extern "C" fn em73862_run(
    image: &[u8],
    wake: u8,
    sound: u8,
    bytes: &mut [u8],
    frames: &[u8],
    steps: &mut u32,
    cycles: &mut u32,
) -> u8
    ensures { RunCall image.now (options_of Em73862 wake sound) bytes.old frames.now result steps.new cycles.new bytes.new }
{
    run_record(
        Device::Em73862,
        image,
        wake,
        sound,
        bytes,
        frames,
        steps,
        cycles,
    )
}
