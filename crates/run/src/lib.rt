// A run: the steps of a buffer of frames, for any image, options and record, up to a stop, or a refusal that changes nothing.
#![tactic(auto)]

ghost use Rattle.std.specs.Prelude.{◌≡◌, true, ◌*◌, ◌≤◌, length};
ghost use Rattle.device.specs.Device.{image_size, frame_size, rom_of};
ghost use Rattle.frame.specs.Frame.{are_frames, frames_of};
ghost use Rattle.record.specs.Valid.{Valid};
ghost use Rattle.run.specs.Run.{run_of};
ghost use Rattle.run.specs.Answers.{most_frames, ran, paper_of, RunOf};

use device::{Options, frame_size};
use frame::{are_frames, pins_at};
use numbers::{Refusal, Stop};
use record::Machine;
use step::{Advanced, advance, judged};

// "A run takes at most 65,536 frames"
const MOST_FRAMES: usize = 65536;

// What a run gives: why it stops, where it does, the steps completed, the cycles spent and the record.
#[derive(Clone, Copy)]
pub struct Ran {
    pub stop: Option<Stop>,
    pub steps: u32,
    pub cycles: u32,
    pub machine: Machine,
}

// The steps of all frames, or of those up to a stop.
fn run_frames(image: &[u8], options: Options, m: Machine, frames: &[u8]) -> Ran
    requires { (Valid options.device m) × (length image.now ≡ image_size options.device) × (length frames.now ≤ most_frames * frame_size options.device) × (are_frames options.device frames.now ≡ true) }
    ensures { ran result ≡ run_of (rom_of image.now) options m (frames_of options.device frames.now) }
{
    let Machine { mut core, mut ram } = m;
    let mut steps: u32 = 0;
    let mut cycles: u32 = 0;
    for frame in frames.chunks_exact(frame_size(options.device)) {
        let pins = pins_at(options.device, frame, 0);
        let x = advance(image, options, core, &mut ram, pins);
        core = x.core;
        if x.stop.is_some() {
            return Ran {
                stop: x.stop,
                steps,
                cycles,
                machine: Machine { core, ram },
            };
        }
        cycles += x.cycles as u32;
        steps += 1;
    }
    Ran {
        stop: None,
        steps,
        cycles,
        machine: Machine { core, ram },
    }
}

// The public run.
pub fn run(image: &[u8], options: Options, m: Machine, frames: &[u8]) -> Result<Ran, Refusal>
    ensures { RunOf image.now options m frames.now (paper_of m result) }
{
    judged(image, options.device, m)?;
    if frames.len() > MOST_FRAMES * frame_size(options.device) {
        return Err(Refusal::MoreThan65536Frames);
    }
    if !are_frames(options.device, frames) {
        return Err(Refusal::NoFrame);
    }
    Ok(run_frames(image, options, m, frames))
}
