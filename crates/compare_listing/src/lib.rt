// Document 02, Q-13: a script and their listing, both in parts, against what the runner prints. Our listing is made a line at a time, and neither text is held.
#![tactic(auto)]

ghost use Rattle.std.specs.Prelude.{◌≡◌, true, false, List, [], ℕ, ◌+◌, ◌<◌, ◌≤◌, length};
ghost use Rattle.device.specs.Device.{rom_of};
ghost use Rattle.frame.specs.Frame.{frame_of};
ghost use Rattle.text.specs.Script.{lines_of, up_to};
ghost use Rattle.compare_lines.specs.Left.{OneLine, settled};
ghost use Rattle.compare_listing.specs.Compared.{is_no_frame, compared_of};
ghost use Rattle.compare_listing.specs.Progress.{answer_from, begun, Sound, Nexts, Lasts, Goes};

use compare_lines::{Compared, Phase, finish, heed, is_settled, onward};
use device::Device;
use device::image::Image;
use frame::frame_of;
use listing::line::header;
use listing::tell;
use numbers::Refusal;
use record::start::fresh;
use record::{Core, Ram};
use text::Text;
use text::script::line_end;

// A line of ours, and its LF.
const LINE: usize = 26;

// The record but for RAM; whether ours has ended, and with a line of the script that is no frame; our present line's number, and how far it is compared.
#[derive(Clone, Copy)]
pub struct Progress {
    pub core: Core,
    pub ended: bool,
    pub bad: bool,
    pub line: u64,
    pub phase: Phase,
}

// How many characters of the parts are used.
#[derive(Clone, Copy)]
pub struct Gone {
    pub progress: Progress,
    pub script: usize,
    pub listing: usize,
}

fn is_no_frame(d: Device, text: &[u8]) -> bool
    ensures { result ≡ is_no_frame (frame_of d text.now) }
{
    frame_of(d, text).is_none()
}

// A line of the script, without its LF, after our present line, of which nothing is waited for.
pub fn next(
    image: Image,
    p: Progress,
    ram: &mut Ram,
    ours: &mut Text<LINE>,
    text: &[u8],
) -> Progress
    requires { (Sound image.device p ram.old ours.old) × (settled p.phase (length ours.old) ≡ true) × (p.ended ≡ false) × (p.bad ≡ false) × (p.line + 1 < 18446744073709551616) }
    ensures { Nexts image.entry.device (rom_of image.entry.bytes.now) p ram.old ours.old text.now result ram.new ours.new }
{
    let turned = onward(p.phase, p.line, ours.len());
    ours.clear();
    let told = tell(image, p.core, ram, text, ours);
    if told.ended && is_no_frame(image.device, text) {
        return Progress {
            core: told.core,
            ended: true,
            bad: true,
            line: p.line,
            phase: Phase::Found { field: 0 },
        };
    }
    Progress {
        core: told.core,
        ended: told.ended,
        bad: false,
        line: turned.line,
        phase: turned.phase,
    }
}

// The whole lines of a part of the script, each against a line of a part of the listing, as far as both go. The script is read on where a difference is found, since a bad line of it comes first.
pub fn go(
    image: Image,
    p: Progress,
    ram: &mut Ram,
    ours: &mut Text<LINE>,
    script: &[u8],
    listing: &[u8],
    last: bool,
) -> Gone
    requires { (Sound image.device p ram.old ours.old) × (p.line + p.line + length script.now < 36893488147419103230) }
    ensures { Goes image.entry.device (rom_of image.entry.bytes.now) p ram.old ours.old script.now listing.now last result ram.new ours.new }
{
    let mut present = p;
    let mut read = 0;
    let mut heard = 0;
    loop {
        let got = heed(
            present.phase,
            present.line,
            ours.as_slice(),
            &listing[heard..],
            last,
        );
        heard += got.used;
        present = Progress {
            phase: got.phase,
            ..present
        };
        if present.ended || !is_settled(present.phase, ours.len()) {
            return Gone {
                progress: present,
                script: read,
                listing: heard,
            };
        }
        let end = line_end(script, read);
        if end == script.len() {
            return Gone {
                progress: present,
                script: read,
                listing: heard,
            };
        }
        present = next(image, present, ram, ours, &script[read..end]);
        read = end + 1;
    }
}

// The last line of the script, where no LF ends it.
pub fn last_line(
    image: Image,
    p: Progress,
    ram: &mut Ram,
    ours: &mut Text<LINE>,
    text: &[u8],
) -> Progress
    requires { (Sound image.device p ram.old ours.old) × (settled p.phase (length ours.old) ≡ true) × (p.line + 1 < 18446744073709551616) }
    ensures { Lasts image.entry.device (rom_of image.entry.bytes.now) p ram.old ours.old text.now result ram.new ours.new }
{
    if p.ended || text.is_empty() {
        p
    } else {
        next(image, p, ram, ours, text)
    }
}

// From the first line of both, which are whole.
fn compare_whole(
    image: Image,
    p: Progress,
    ram: &mut Ram,
    ours: &mut Text<LINE>,
    script: &[u8],
    listing: &[u8],
) -> Result<Compared, Refusal>
    requires { (Sound image.device p ram.old ours.old) × (p.line + p.line + length script.now < 36893488147419103229) }
    ensures { answer_from image.entry.device (rom_of image.entry.bytes.now) p ram.old ours.old (lines_of script.now) listing.now ≡ result }
{
    let run = go(image, p, ram, ours, script, listing, true);
    let end = last_line(image, run.progress, ram, ours, &script[run.script..]);
    if end.bad {
        return Err(Refusal::NoFrame);
    }
    Ok(finish(
        end.phase,
        end.line,
        ours.as_slice(),
        &listing[run.listing..],
    ))
}

// At the header.
pub fn begin(core: Core) -> Progress
    ensures { result ≡ begun core }
{
    Progress {
        core,
        ended: false,
        bad: false,
        line: 1,
        phase: Phase::Matching { at: 0 },
    }
}

// A script and a listing, both whole.
pub fn compare(d: Device, image: &[u8], script: &[u8], listing: &[u8]) -> Result<Compared, Refusal>
    ensures { compared_of d image.now script.now listing.now ≡ result }
{
    let image = Image::of(d, image)?;
    let m = fresh(d);
    let mut ram = m.ram;
    let mut ours: Text<LINE> = Text::new();
    header(&mut ours);
    compare_whole(image, begin(m.core), &mut ram, &mut ours, script, listing)
}
