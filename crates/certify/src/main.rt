// certify [--device NAME [--p3 N]] IMAGE: a page of plain text about the interrupt handlers of an image, for an inspector to sign.
// It says what it is about (the image's SHA-256, its size, the device and P3), the bound of each entry with the rows of N's path and the sheet's line by which each was read, what N promises, and which lines of the sheet were used.
#![tactic(auto)]

mod help;

ghost use Rattle.std.specs.Prelude.{◌≡◌, ◌<◌, ◌≤◌, length};
ghost use Rattle.numbers.specs.Sizes.{addresses};

use crate::help::MANUAL;
use device::Device;
use device::image::Window;
use program::arguments::no_word;
use program::help::{answer, show_version};
use program::image::{chosen_window, open_window, room};
use program::streams::{Failure, show};
use sha256::digest_of;
use sheet_text::{section_of, sheet_text};
use text::Text;
use text_bounder::{ENTRIES, address_in, bound_at, cycles_at, entry_line};
use text_certificate::{certified_line, digest, row_at};

// The longest path there can be has 65,535 places: N is at most that, and each of them takes a cycle or more.
const MOST_PLACES: usize = 65535;

const MOST_BYTES: usize = 131070;

fn show_digest(image: &[u8]) -> Result<(), Failure>
    requires { length image.now ≤ 16384 }
{
    let mut bytes = [0u8; 32];
    digest_of(image, &mut bytes);
    let mut out = Text::<74>::new();
    out.put_text(b"SHA-256  ");
    digest(&mut out, &bytes);
    out.put(b'\n');
    show(out.as_slice())
}

fn show_p3(p3: u8) -> Result<(), Failure> {
    let mut out = Text::<46>::new();
    out.put_text(b"Device   EM73P982\nBytes    16384\nP3       ");
    out.decimal(u64::from(p3));
    out.put(b'\n');
    show(out.as_slice())
}

fn show_device(d: Device, p3: u8) -> Result<(), Failure> {
    match d {
        Device::Em73862 => show(b"Device   EM73862\nBytes    8192\n"),
        Device::Em73P982 => show_p3(p3),
    }
}

// What the page is about.
fn show_head(d: Device, window: Window) -> Result<(), Failure>
    requires { length window.bytes.now ≤ 16384 }
{
    show(b"CERTIFICATE OF INTERRUPT HANDLERS\n\nImage\n")?;
    show_digest(window.bytes)?;
    show_device(d, window.p3)?;
    show(b"\nChecked by\n")?;
    show_version()?;
    show(
        b"
Each handler has a line: the address of its entry, its source, the most cycles N
that any path takes from the entry's first row to RTI, RTI included, and the
greatest depth of its calls; or the number by which it is refused. Under N stand
the rows of a path that takes N, each with its bytes, its cycles and the sum of
cycles so far, and below each row the line of the sheet's instruction table by
which it was read: mnemonic, object code, operation, bytes, cycles, and the
flags C, Z and S.
",
    )
}

// Whether each row was read, by its number.
type Used = [bool; 108];

// The line of a row of N's path, with the sheet's line by which it was read.
fn show_line(window: Window, at: u16, counted: u32) -> Result<(), Failure>
    requires { (at < addresses) × (counted < 100000) }
{
    let mut out = Text::<178>::new();
    certified_line(&mut out, window, at, counted);
    show(out.as_slice())
}

// The rows of N's path, which ends where its cycles come to N.
fn list_path(window: Window, path: &[u8], most: u32, used: &mut Used) -> Result<(), Failure>
    requires { (length path.now ≡ 131070) × (most < 65536) }
{
    let mut total = 0;
    for i in 0..MOST_PLACES {
        if most <= total {
            break;
        }
        let at = address_in(path, i);
        total += cycles_at(window, at);
        show_line(window, at, total)?;
        if let Some(read) = used.get_mut(usize::from(row_at(window, at))) {
            *read = true;
        }
    }
    Ok(())
}

// The handler of the entry at an address, that of the source of a latch.
fn certify_entry(
    d: Device,
    window: Window,
    at: u32,
    latch: u8,
    used: &mut Used,
) -> Result<(), Failure> {
    let mut path = [0u8; MOST_BYTES];
    let mut deep = [0u8; MOST_BYTES];
    let answer = bound_at(d, window.bytes, window.p3, at, &mut path, &mut deep);
    let mut out = Text::<42>::new();
    out.put(b'\n');
    entry_line(&mut out, d, at, latch, answer);
    show(out.as_slice())?;
    match answer {
        Ok(greatest) => list_path(window, &path, greatest.cycles as u32, used),
        Err(_) => Ok(()),
    }
}

// What the answers mean.
fn show_promise() -> Result<(), Failure> {
    show(
        b"
What N promises
From any valid record that stands at the entry running, with SF set and EI clear,
as the acceptance of an interrupt leaves it, whatever the registers, RAM, timers,
ports and pins are, and given at least N frames: the emulator reaches RTI, or one
of the stops 31 to 34, having spent at most N cycles. Where the handler calls
(depth 1 or more), this holds if no instruction but a call stores into the
handler's part of the stack up to there: into a level from SP as it is at that
time, included, up to the SP at the entry, not included. The two cycles of the
acceptance come before N. The depth says how many levels of the stack the handler
needs beside the one that its acceptance took. On the EM73P982 N is of records
whose P3 is the one above.
Statements: Demand3OfCalls and Demand3OfAnswersAtDepth0, proved; docs/AUDIT.md
of the checker says where they stand and what they rest on.

What a refusal means
21 an excluded instruction can be reached; its lowest address
22 a repetition can be reached; its lowest address
24 a routine can reach a call of itself; the lowest such entry
25 the most cycles are over 65535

Lines of the sheet by which the rows above were read
",
    )
}

// A line of the sheet with two blanks before it and its LF.
const LINE: usize = 131;

// A line of the sheet after two blanks.
fn show_row(row: u8) -> Result<(), Failure> {
    let mut out = Text::<LINE>::new();
    out.blanks(2);
    out.put_text(sheet_text(row));
    out.put(b'\n');
    show(out.as_slice())
}

// The heading of a section.
fn show_heading(section: u8) -> Result<(), Failure>
    requires { section ≤ 14 }
{
    let mut out = Text::<LINE>::new();
    out.put_text(sheet_text(107 + section));
    out.put(b'\n');
    show(out.as_slice())
}

// The rows that were read, each once, under the headings of their sections.
fn list_used(used: &Used) -> Result<(), Failure> {
    let mut shown = 0;
    for row in 1..108 {
        if used[usize::from(row)] {
            let section = section_of(row);
            if section != shown {
                show_heading(section)?;
            }
            shown = section;
            show_row(row)?;
        }
    }
    Ok(())
}

fn certify(d: Device, window: Window) -> Result<(), Failure>
    requires { length window.bytes.now ≤ 16384 }
{
    show_head(d, window)?;
    let mut used = [false; 108];
    for (at, latch) in ENTRIES {
        certify_entry(d, window, at, latch, &mut used)?;
    }
    show_promise()?;
    list_used(&used)?;
    show(b"\nSigned                                        Date\n")
}

fn run(rt: &HostRuntime) -> Result<(), Failure> {
    let c = chosen_window(rt)?;
    let mut file = room();
    let window = open_window(rt, c, MANUAL.usage, &mut file)?;
    no_word(rt, usize::from(c.before) + 2)?;
    certify(c.device, window)
}

fn main(rt: HostRuntime) {
    answer(&rt, &MANUAL, run)
}
