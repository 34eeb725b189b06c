// compare [--device NAME] IMAGE SCRIPT LISTING: whether a listing is what the runner prints for an image and a script, or where it differs first.
// Both texts are read in parts, and neither is held: of the script at most as many characters are kept as a frame has, of the listing none.
#![tactic(auto)]

mod help;

ghost use Rattle.std.specs.Prelude.{◌≡◌, true, ◌+◌, ◌<◌, ◌≤◌, length};
ghost use Rattle.compare_lines.specs.Left.{OneLine, Placed, settled};
ghost use Rattle.compare_listing.specs.Progress.{Sound};

use crate::help::MANUAL;
use compare_lines::{Compared, hear, is_settled, verdict};
use compare_listing::{Progress, begin, go, last_line};
use device::frame_size;
use device::image::Image;
use listing::line::header;
use program::arguments::{arg, is_given, no_word, open_read};
use program::help::answer;
use program::image::{chosen_device, open_image, room};
use program::part::Part;
use program::streams::{Failure, refuse, show, show_decimal};
use record::Ram;
use record::start::fresh;
use std::fs::File;
use text::Text;

// No run counts so many lines.
const MOST_LINES: u64 = 18446744073709000000;

// A line of ours, and its LF.
const LINE: usize = 26;

fn show_answer(compared: Compared) -> Result<(), Failure> {
    match compared {
        Compared::Same => show(b"same\n"),
        Compared::Differs { line, field } => {
            show(b"differs line ")?;
            show_decimal(line)?;
            show(b" field ")?;
            show_decimal(u64::from(field))?;
            show(b"\n")
        }
    }
}

// A script that has a line that is no frame, or cannot be opened or read.
fn refuse_script() -> Failure {
    refuse(b"refused 03\n")
}

fn open_word(rt: &HostRuntime, word: usize) -> Option<File> {
    let mut buffer = io::buffer();
    open_read(rt, arg(rt, word, &mut buffer))
}

// More of the listing, all of which is used, and how many characters. One that cannot be opened has no lines.
fn more_listing(file: &mut Option<File>, listing: &mut Part) -> Result<usize, Failure> {
    let used = listing.rest().len();
    listing.use_up(used);
    match file {
        Some(open) => listing.read_more(open),
        None => Ok(0),
    }
}

// The rest of the listing, after our last line. A proved loop has to end, and nothing says that a listing does: no run uses up the turns.
fn rest_of_listing(
    p: Progress,
    ours: &[u8],
    file: &mut Option<File>,
    listing: &mut Part,
) -> Result<Compared, Failure>
    requires { (OneLine ours.now) × (Placed p.phase (length ours.now)) × (p.line < 18446744073709551600) }
{
    let mut phase = p.phase;
    for _ in 0..u64::MAX {
        let part = listing.rest();
        let heard = hear(phase, p.line, ours, part);
        phase = heard.phase;
        if heard.used < part.len() {
            return Ok(verdict(phase, p.line, ours.len(), true));
        }
        if more_listing(file, listing)? == 0 {
            return Ok(verdict(phase, p.line, ours.len(), false));
        }
    }
    Err(Failure::CannotRead)
}

// The script has ended, or ours has.
fn conclude(
    image: Image,
    p: Progress,
    ram: &mut Ram,
    ours: &mut Text<LINE>,
    script: &[u8],
    file: &mut Option<File>,
    listing: &mut Part,
) -> Result<Compared, Failure>
    requires { (Sound image.device p ram.old ours.old) × (settled p.phase (length ours.old) ≡ true) × (p.line < 18446744073709040000) × (length script.now ≤ 65536) }
{
    let end = last_line(image, p, ram, ours, script);
    if end.bad {
        return Err(refuse_script());
    }
    rest_of_listing(end, ours.as_slice(), file, listing)
}

// More of the listing is read where our line waits for it, else more of the script, unless nothing more of that is to be read: ours has ended, the script has, or a line is longer than a frame and bad however it goes on.
fn session(
    image: Image,
    p: Progress,
    ram: &mut Ram,
    ours: &mut Text<LINE>,
    script_file: &mut File,
    listing_file: &mut Option<File>,
) -> Result<Compared, Failure>
    requires { Sound image.device p ram.old ours.old }
{
    let mut present = p;
    let mut script = Part::new();
    let mut listing = Part::new();
    let mut over = false;
    let mut last = false;
    for _ in 0..u64::MAX {
        if present.line > MOST_LINES {
            break;
        }
        let gone = go(
            image,
            present,
            ram,
            ours,
            script.rest(),
            listing.rest(),
            last,
        );
        present = gone.progress;
        script.use_up(gone.script);
        listing.use_up(gone.listing);
        if !is_settled(present.phase, ours.len()) {
            last = more_listing(listing_file, &mut listing)? == 0;
        } else if present.ended || over || script.rest().len() > frame_size(image.device) {
            return conclude(
                image,
                present,
                ram,
                ours,
                script.rest(),
                listing_file,
                &mut listing,
            );
        } else {
            let Ok(count) = script.read_more(script_file) else {
                return Err(refuse_script());
            };
            over = count == 0;
        }
    }
    Err(Failure::CannotRead)
}

// From the header on.
fn compare(
    image: Image,
    script_file: &mut File,
    listing_file: &mut Option<File>,
) -> Result<Compared, Failure> {
    let mut ours: Text<LINE> = Text::new();
    header(&mut ours);
    let m = fresh(image.device);
    let mut ram = m.ram;
    session(
        image,
        begin(m.core),
        &mut ram,
        &mut ours,
        script_file,
        listing_file,
    )
}

fn run(rt: &HostRuntime) -> Result<(), Failure> {
    let c = chosen_device(rt)?;
    let word = usize::from(c.before) + 1;
    if !is_given(rt, word + 2) {
        return Err(Failure::Usage);
    }
    no_word(rt, word + 3)?;
    let mut file = room();
    let image = open_image(rt, c.device, word, MANUAL.usage, &mut file)?;
    let script = open_word(rt, word + 1);
    let mut listing = open_word(rt, word + 2);
    let Some(mut script) = script else {
        return Err(refuse_script());
    };
    show_answer(compare(image, &mut script, &mut listing)?)
}

fn main(rt: HostRuntime) {
    answer(&rt, &MANUAL, run)
}
