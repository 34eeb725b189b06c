// why [--device NAME] IMAGE [STEP]: for each step of the script on standard input, or for that step alone, why an interrupt was taken or not.
// Each answer is written before more of the script is read. The words are judged from the left: the device, the image, the step, and that there are no more.
#![tactic(auto)]

mod help;

ghost use Rattle.record.specs.Valid.{ValidCore, Nibbles};

use crate::help::MANUAL;
use device::frame_size;
use device::image::Image;
use program::arguments::{named_at, no_word};
use program::help::answer;
use program::image::{chosen_device, open_image, room};
use program::part::Part;
use program::script::{go_on, whole_line};
use program::streams::{Failure, show};
use record::start::fresh;
use record::{Core, Ram};
use text::Text;
use text_why::{step_word, tell};

// What no LF ends: the last line, if there is one, or the beginning of a line that is too long.
fn tell_last(
    image: Image,
    only: Option<u64>,
    step: u64,
    m: Core,
    ram: &mut Ram,
    line: &[u8],
) -> Result<(), Failure>
    requires { (ValidCore image.device m) × (Nibbles ram.old) }
{
    let mut out = Text::<76>::new();
    if !line.is_empty() {
        tell(&mut out, image, only, step, m, ram, line);
    }
    show(out.as_slice())
}

// A proved loop has to end, and nothing says that a script does: no run uses up the turns, and none makes so many steps that their number stays.
fn session(
    rt: &HostRuntime,
    image: Image,
    only: Option<u64>,
    m: Core,
    ram: &mut Ram,
) -> Result<(), Failure>
    requires { (ValidCore image.device m) × (Nibbles ram.old) }
{
    let mut core = m;
    let mut step: u64 = 1;
    let mut part = Part::new();
    for _ in 0..u64::MAX {
        let mut used = 0;
        if let Some(line) = whole_line(part.rest()) {
            let mut out = Text::<76>::new();
            let told = tell(&mut out, image, only, step, core, ram, line);
            show(out.as_slice())?;
            if told.ended {
                return Ok(());
            }
            core = told.core;
            step = step.saturating_add(1);
            used = line.len() + 1;
        }
        if go_on(rt, frame_size(image.device), &mut part, used)? {
            return tell_last(image, only, step, core, ram, part.rest());
        }
    }
    Ok(())
}

fn run(rt: &HostRuntime) -> Result<(), Failure> {
    let c = chosen_device(rt)?;
    let word = usize::from(c.before) + 1;
    let mut file = room();
    let image = open_image(rt, c.device, word, MANUAL.usage, &mut file)?;
    let only = named_at(rt, word + 1, step_word)?;
    no_word(rt, word + 2)?;
    let m = fresh(image.device);
    let mut ram = m.ram;
    session(rt, image, only, m.core, &mut ram)
}

fn main(rt: HostRuntime) {
    answer(&rt, &MANUAL, run)
}
