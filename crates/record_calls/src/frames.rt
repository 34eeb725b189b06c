// A run of frames on the bytes of a record.
ghost use Rattle.std.specs.Prelude.{◌≡◌, OnOk, length};
ghost use Rattle.record_bytes.specs.Layout.{record_size};
ghost use Rattle.record_calls.specs.Calls.{options_of, RunPutBack, RunCall};

use crate::{options_of, stop_or_0, unheld};
use device::Device;
use numbers::Refusal;
use record_bytes::{pack, unpack};
use run::{Ran, run};

// What a run gives goes back to where its record came from; a refusal leaves the record's bytes as they were.
fn put_back(answer: Result<Ran, Refusal>, bytes: &mut [u8], steps: &mut u32, cycles: &mut u32) -> u8
    requires { OnOk answer (length bytes.old ≡ record_size) }
    ensures { RunPutBack answer bytes.old result steps.new cycles.new bytes.new }
{
    match answer {
        Ok(x) => {
            *steps = x.steps;
            *cycles = x.cycles;
            pack(x.machine, bytes);
            stop_or_0(x.stop)
        }
        Err(refusal) => {
            *steps = 0;
            *cycles = 0;
            u8::from(refusal)
        }
    }
}

// The run by the device, which em73862_run and em73p982_run hand on to.
pub fn run_record(
    d: Device,
    image: &[u8],
    wake: u8,
    sound: u8,
    bytes: &mut [u8],
    frames: &[u8],
    steps: &mut u32,
    cycles: &mut u32,
) -> u8
    ensures { RunCall image.now (options_of d wake sound) bytes.old frames.now result steps.new cycles.new bytes.new }
{
    let answer = match unpack(bytes) {
        Some(m) => run(image, options_of(d, wake, sound), m, frames),
        None => Err(unheld(d, image)),
    };
    put_back(answer, bytes, steps, cycles)
}
