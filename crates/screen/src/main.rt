// screen [--device NAME] [--pbm] IMAGE [STEP]: the display after a step of the script on standard input, or after the last.
// The words are judged from the left: the device, the form, the image, the step, and that there are no more.
#![tactic(auto)]

mod help;

ghost use Rattle.std.specs.Prelude.{◌≤◌, IfOk};
ghost use Rattle.record.specs.Valid.{ValidCore, Nibbles};

use crate::help::MANUAL;
use device::image::Image;
use device::{Device, frame_size};
use frame::frame_of;
use listing::{Told, tell};
use program::arguments::{arg, named_at, no_word};
use program::help::answer;
use program::image::{chosen_device, open_image, room};
use program::part::Part;
use program::script::{go_on, whole_line};
use program::streams::{Failure, refuse, show};
use program::words::is;
use record::start::fresh;
use record::{Core, Machine, Ram};
use text::Text;
use text_screen::{Form, screen};
use text_why::step_word;

// The picture's form, and the step to show, the last where none is named.
#[derive(Clone, Copy)]
struct Wish {
    form: Form,
    only: Option<u64>,
}

// The script has ended, or the run has: a step past the end has no picture.
fn at_end(image: Image, wish: Wish, step: u64, core: Core, ram: Ram) -> Result<(), Failure>
    requires { (ValidCore image.device core) × (Nibbles ram) }
{
    let mut out = Text::<336>::new();
    if wish.only.is_none() || wish.only == Some(step) {
        screen(&mut out, image.device, Machine { core, ram }, wish.form);
    }
    show(out.as_slice())
}

// A line of the script, without its LF: its step as the runner makes it.
fn one_line(image: Image, m: Core, ram: &mut Ram, line: &[u8]) -> Result<Told, Failure>
    requires { (ValidCore image.device m) × (Nibbles ram.old) }
    ensures { IfOk result (λ told. (ValidCore image.entry.device told.core) × (Nibbles ram.new)) }
{
    if frame_of(image.device, line).is_none() {
        return Err(refuse(b"refused 03\n"));
    }
    let mut unseen = Text::<26>::new();
    Ok(tell(image, m, ram, line, &mut unseen))
}

// What no LF ends: the last line, if there is one, or the beginning of a line that is too long.
fn last_line(
    image: Image,
    wish: Wish,
    step: u64,
    m: Core,
    ram: &mut Ram,
    line: &[u8],
) -> Result<(), Failure>
    requires { (ValidCore image.device m) × (Nibbles ram.old) }
{
    if line.is_empty() {
        return at_end(image, wish, step, m, *ram);
    }
    let told = one_line(image, m, ram, line)?;
    at_end(image, wish, step.saturating_add(1), told.core, *ram)
}

// A proved loop has to end, and nothing says that a script does: no run uses up the turns, and none makes so many steps that their number stays.
fn session(
    rt: &HostRuntime,
    image: Image,
    wish: Wish,
    m: Core,
    ram: &mut Ram,
) -> Result<(), Failure>
    requires { (ValidCore image.device m) × (Nibbles ram.old) }
{
    let mut core = m;
    let mut step: u64 = 0;
    let mut part = Part::new();
    for _ in 0..u64::MAX {
        let mut used = 0;
        if let Some(line) = whole_line(part.rest()) {
            let told = one_line(image, core, ram, line)?;
            core = told.core;
            step = step.saturating_add(1);
            used = line.len() + 1;
            if told.ended || wish.only == Some(step) {
                return at_end(image, wish, step, core, *ram);
            }
        }
        if go_on(rt, frame_size(image.device), &mut part, used)? {
            return last_line(image, wish, step, core, ram, part.rest());
        }
    }
    Ok(())
}

// The words from the image on.
fn run_image(rt: &HostRuntime, device: Device, form: Form, word: usize) -> Result<(), Failure>
    requires { word ≤ 1000 }
{
    let mut file = room();
    let image = open_image(rt, device, word, MANUAL.usage, &mut file)?;
    let only = named_at(rt, word + 1, step_word)?;
    no_word(rt, word + 2)?;
    let m = fresh(image.device);
    let mut ram = m.ram;
    session(rt, image, Wish { form, only }, m.core, &mut ram)
}

fn run(rt: &HostRuntime) -> Result<(), Failure> {
    let c = chosen_device(rt)?;
    let word = usize::from(c.before) + 1;
    let mut buffer = io::buffer();
    if is(arg(rt, word, &mut buffer), b"--pbm") {
        run_image(rt, c.device, Form::Pbm, word + 1)
    } else {
        run_image(rt, c.device, Form::Signs, word)
    }
}

fn main(rt: HostRuntime) {
    answer(&rt, &MANUAL, run)
}
