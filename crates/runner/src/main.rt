// runner [--device NAME] IMAGE: the listing of an image for the script on standard input.
// All that it has to say is written before it reads on, so that a person at a terminal sees each answer.
#![tactic(auto)]

mod help;

ghost use Rattle.record.specs.Valid.{ValidCore, Nibbles};

use crate::help::MANUAL;
use device::frame_size;
use device::image::Image;
use listing::line::header;
use listing::{feed, tell};
use program::arguments::no_word;
use program::help::answer;
use program::image::{chosen_device, open_image, room};
use program::part::Part;
use program::script::go_on;
use program::streams::{Failure, show};
use record::start::fresh;
use record::{Core, Ram};
use text::Text;

// The lines that are written at once.
const MOST_CHARACTERS: usize = 65536;

// What no LF ends: the last line, if there is one, or the beginning of a line that is too long.
fn tell_last(image: Image, m: Core, ram: &mut Ram, line: &[u8]) -> Result<(), Failure>
    requires { (ValidCore image.device m) × (Nibbles ram.old) }
{
    let mut out = Text::<26>::new();
    if !line.is_empty() {
        tell(image, m, ram, line, &mut out);
    }
    show(out.as_slice())
}

// The lines of the script that are whole in the part and find room in the output, then more of the script. A proved loop has to end, and nothing says that a script does: no run uses up the turns.
fn session(rt: &HostRuntime, image: Image, m: Core, ram: &mut Ram) -> Result<(), Failure>
    requires { (ValidCore image.device m) × (Nibbles ram.old) }
{
    let mut core = m;
    let mut part = Part::new();
    let mut out = Text::<MOST_CHARACTERS>::new();
    for _ in 0..u64::MAX {
        let fed = feed(image, core, ram, part.rest(), &mut out);
        show(out.as_slice())?;
        if fed.ended {
            return Ok(());
        }
        out.clear();
        core = fed.core;
        if go_on(rt, frame_size(image.device), &mut part, fed.used)? {
            return tell_last(image, core, ram, part.rest());
        }
    }
    Ok(())
}

fn run(rt: &HostRuntime) -> Result<(), Failure> {
    let c = chosen_device(rt)?;
    let word = usize::from(c.before) + 1;
    let mut file = room();
    let image = open_image(rt, c.device, word, MANUAL.usage, &mut file)?;
    no_word(rt, word + 1)?;
    let mut out = Text::<19>::new();
    header(&mut out);
    show(out.as_slice())?;
    let m = fresh(image.device);
    let mut ram = m.ram;
    session(rt, image, m.core, &mut ram)
}

fn main(rt: HostRuntime) {
    answer(&rt, &MANUAL, run)
}
