// What the program why writes: the line of an answer, and a line of the script answered.
#![tactic(auto)]

ghost use Rattle.std.specs.Prelude.{◌≡◌, ◌++◌, ◌+◌, ◌≤◌, length};
ghost use Rattle.device.specs.Device.{image_size, rom_of};
ghost use Rattle.frame.specs.Frame.{PinsInRange};
ghost use Rattle.record.specs.Valid.{ValidCore, Nibbles};
ghost use Rattle.notation.specs.Names.{names_of};
ghost use Rattle.text_why.specs.Lines.{waiting_text, accepted_text, reason_text, opening_text, why_line};
ghost use Rattle.step.specs.Step.{step_of};
ghost use Rattle.listing.specs.Listing.{options};
ghost use Rattle.text_why.specs.Telling.{is_wanted, is_last, line_wanted, step_told, told_of, TellsWhy};
ghost use Rattle.text_why.specs.Words.{step_word};

use device::image::Image;
use device::{Device, Options};
use frame::{Pins, frame_of};
use listing::Told;
use notation::sources::{names_of, source_name};
use numbers::Refusal;
use ports::Mode;
use record::{Core, Ram};
use step::advance;
use step_why::{Reason, Taken, why_of};
use text::Text;
use text::words::number_up_to;

// No script has so many lines.
const MOST_STEPS: u64 = 1000000000000000000;

// At most 8 characters.
fn waiting(mode: Mode) -> &'static [u8]
    ensures text { result.now ≡ waiting_text mode }
    ensures upper_bound { length result.now ≤ 8 }
{
    match mode {
        Mode::Running | Mode::Sleep => b"sleeping",
        Mode::Hold => b"holding",
    }
}

// Words of at most 11 characters, and the names of a set's sources.
fn with_names<const N: usize>(out: &mut Text<N>, words: &[u8], d: Device, set: u8)
    requires { (length words.now ≤ 11) × (length out.old + 36 ≤ N) }
    ensures text { out.new ≡ out.old ++ (words.now ++ names_of d set) }
    ensures upper_bound { length out.new ≤ length out.old + 36 }
{
    out.put_text(words);
    names_of(out, d, set);
}

// At most 49 characters.
fn accepted<const N: usize>(out: &mut Text<N>, d: Device, t: Taken)
    requires { length out.old + 49 ≤ N }
    ensures text { out.new ≡ out.old ++ accepted_text d t }
    ensures upper_bound { length out.new ≤ length out.old + 49 }
{
    out.put_text(b"accepted ");
    out.put_text(source_name(d, t.source));
    if t.waiting != 0 {
        with_names(out, b" waiting", d, t.waiting);
    }
}

// At most 49 characters.
fn reason_text<const N: usize>(out: &mut Text<N>, d: Device, mode: Mode, reason: Reason)
    requires { length out.old + 49 ≤ N }
    ensures text { out.new ≡ out.old ++ reason_text d mode reason }
    ensures upper_bound { length out.new ≤ length out.old + 49 }
{
    match reason {
        Reason::Waiting => out.put_text(waiting(mode)),
        Reason::Disabled => out.put_text(b"EI clear"),
        Reason::Nothing => out.put_text(b"nothing latched"),
        Reason::Masked(latched) => with_names(out, b"masked", d, latched),
        Reason::Level(due) => with_names(out, b"stack level", d, due),
        Reason::Accepted(t) => accepted(out, d, t),
    }
}

// The number of a step and PC before it, each with a blank behind it: at most 26 characters.
#[tactic(auto, using(crate::proofs::Steps::places_of_step))]
fn opening<const N: usize>(out: &mut Text<N>, step: u64, pc: u16)
    requires { length out.old + 26 ≤ N }
    ensures text { out.new ≡ out.old ++ opening_text step pc }
    ensures upper_bound { length out.new ≤ length out.old + 26 }
{
    out.decimal(step);
    out.put(b' ');
    out.number(16, 4, u32::from(pc));
    out.put(b' ');
}

// The line of a step: its number, the record before it, and what the answer says. At most 76 characters.
#[tactic(auto, unfolding(crate::specs::Lines::why_line))]
pub fn line<const N: usize>(out: &mut Text<N>, d: Device, step: u64, m: Core, reason: Reason)
    requires { length out.old + 76 ≤ N }
    ensures text { out.new ≡ out.old ++ why_line d step m reason }
    ensures upper_bound { length out.new ≤ length out.old + 76 }
{
    opening(out, step, m.pc);
    reason_text(out, d, m.mode, reason);
    out.put(b'\n');
}

// Whether a step is asked for: each where none is named.
fn is_wanted(only: Option<u64>, step: u64) -> bool
    ensures { result ≡ is_wanted only step }
{
    match only {
        Some(wanted) => step == wanted,
        None => true,
    }
}

// Whether a step is the one that is named.
fn is_last(only: Option<u64>, step: u64) -> bool
    ensures { result ≡ is_last only step }
{
    match only {
        Some(wanted) => step == wanted,
        None => false,
    }
}

// The line of a step that is asked for.
fn wanted_line<const N: usize>(
    out: &mut Text<N>,
    options: Options,
    only: Option<u64>,
    step: u64,
    m: Core,
    pins: Pins,
)
    requires { (ValidCore options.device m) × (PinsInRange options.device pins) × (length out.old + 76 ≤ N) }
    ensures { out.new ≡ out.old ++ line_wanted options only step m pins }
{
    if is_wanted(only, step) {
        line(out, options.device, step, m, why_of(options, m, pins));
    }
}

// The line of a step where it is asked for, and the step on the RAM that is lent.
fn tell_step<const N: usize>(
    out: &mut Text<N>,
    d: Device,
    image: &[u8],
    only: Option<u64>,
    step: u64,
    m: Core,
    ram: &mut Ram,
    pins: Pins,
) -> Told
    requires { (length image.now ≡ image_size d) × (ValidCore d m) × (Nibbles ram.old) × (PinsInRange d pins) × (length out.old + 76 ≤ N) }
    ensures { TellsWhy d (step_told (line_wanted (options d) only step m pins) only step (step_of (rom_of image.now) (options d) (record { core = m; ram = ram.old }) pins)) out.old out.new ram.new result }
{
    let options = Options {
        device: d,
        wake: 255,
        sound: false,
    };
    wanted_line(out, options, only, step, m, pins);
    let x = advance(image, options, m, ram, pins);
    let stops = x.stop.is_some();
    Told {
        core: x.core,
        ended: is_last(only, step) || stops,
    }
}

// A line of the script, without its LF: its text and its step, or a refusal.
pub fn tell<const N: usize>(
    out: &mut Text<N>,
    image: Image,
    only: Option<u64>,
    step: u64,
    m: Core,
    ram: &mut Ram,
    text: &[u8],
) -> Told
    requires { (ValidCore image.device m) × (Nibbles ram.old) × (length out.old + 76 ≤ N) }
    ensures { TellsWhy image.entry.device (told_of image.entry.device (rom_of image.entry.bytes.now) only step (record { core = m; ram = ram.old }) text.now) out.old out.new ram.new result }
{
    match frame_of(image.device, text) {
        Some(pins) => tell_step(out, image.device, image.bytes, only, step, m, ram, pins),
        None => {
            out.refused_line(Refusal::NoFrame);
            Told {
                core: m,
                ended: true,
            }
        }
    }
}

// The step that a word names, where it names one.
#[tactic(auto, unfolding(crate::specs::Words::step_word))]
pub fn step_word(word: &[u8]) -> Option<u64>
    ensures { result ≡ step_word word.now }
{
    let step = number_up_to(MOST_STEPS, 10, word)?;
    (step > 0).then_some(step)
}
