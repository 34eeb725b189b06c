// The runner's listing: one line of a script answered, and the lines of a part of a script.
#![tactic(auto)]

pub mod line;

ghost use Rattle.std.specs.Prelude.{◌≡◌, ◌+◌, ◌≤◌, length};
ghost use Rattle.device.specs.Device.{image_size, rom_of};
ghost use Rattle.frame.specs.Frame.{PinsInRange};
ghost use Rattle.record.specs.Valid.{ValidCore, Nibbles};
ghost use Rattle.listing.specs.Listing.{options, step_answer, answer_of};
ghost use Rattle.step.specs.Step.{step_of};
ghost use Rattle.listing.specs.Tells.{Tells, Feeds};

use device::image::Image;
use device::{Device, Options};
use frame::{Pins, frame_of};
use numbers::Refusal;
use record::{Core, Ram};
use step::advance;
use text::Text;
use text::script::line_end;

// The record after a line but for RAM, and whether the line is the last.
#[derive(Clone, Copy)]
pub struct Told {
    pub core: Core,
    pub ended: bool,
}

// The record after the lines but for RAM, whether one of them is the last, and how many characters they had.
#[derive(Clone, Copy)]
pub struct Fed {
    pub core: Core,
    pub ended: bool,
    pub used: usize,
}

// The step of a frame on the RAM that is lent, and its line.
fn tell_step<const N: usize>(
    d: Device,
    image: &[u8],
    m: Core,
    ram: &mut Ram,
    pins: Pins,
    out: &mut Text<N>,
) -> Told
    requires { (length image.now ≡ image_size d) × (ValidCore d m) × (Nibbles ram.old) × (PinsInRange d pins) × (length out.old + 26 ≤ N) }
    ensures { Tells d (step_answer (step_of (rom_of image.now) (options d) (record { core = m; ram = ram.old }) pins)) out.old out.new ram.new result }
{
    let options = Options {
        device: d,
        wake: 255,
        sound: false,
    };
    let x = advance(image, options, m, ram, pins);
    crate::line::line(out, x.core, x.cycles, x.stop);
    Told {
        core: x.core,
        ended: x.stop.is_some(),
    }
}

// A line of the script, without its LF: its step, or a refusal, and its text.
pub fn tell<const N: usize>(
    image: Image,
    m: Core,
    ram: &mut Ram,
    text: &[u8],
    out: &mut Text<N>,
) -> Told
    requires { (ValidCore image.device m) × (Nibbles ram.old) × (length out.old + 26 ≤ N) }
    ensures { Tells image.entry.device (answer_of image.entry.device (rom_of image.entry.bytes.now) (record { core = m; ram = ram.old }) text.now) out.old out.new ram.new result }
{
    match frame_of(image.device, text) {
        Some(pins) => tell_step(image.device, image.bytes, m, ram, pins, out),
        None => {
            out.refused_line(Refusal::NoFrame);
            Told {
                core: m,
                ended: true,
            }
        }
    }
}

// The whole lines of a part of the script, up to the last of the listing, or as many as there is room for.
pub fn feed<const N: usize>(
    image: Image,
    m: Core,
    ram: &mut Ram,
    part: &[u8],
    out: &mut Text<N>,
) -> Fed
    requires { (ValidCore image.device m) × (Nibbles ram.old) }
    ensures { Feeds image.entry.device (rom_of image.entry.bytes.now) (record { core = m; ram = ram.old }) part.now out.old out.new N ram.new result }
{
    let mut core = m;
    let mut used = 0;
    while N - out.len() >= 26 {
        let end = line_end(part, used);
        if end == part.len() {
            break;
        }
        let told = tell(image, core, ram, &part[used..end], out);
        core = told.core;
        used = end + 1;
        if told.ended {
            return Fed {
                core,
                ended: true,
                used,
            };
        }
    }
    Fed {
        core,
        ended: false,
        used,
    }
}
