// bounder [--device NAME [--p3 N]] IMAGE [ADDRESS]: the most cycles from an address to RTI and the path that takes them, then the greatest depth of calls and the path that comes to it, or why there is no such bound. Without an address: the five interrupt entries, a line each. The image is seen through the window of P3.
// The words are judged from the left: the device and P3, the image, whether P3 may stand, the address, and that there are no more.
#![tactic(auto)]

mod help;

ghost use Rattle.std.specs.Prelude.{◌≡◌, ◌+◌, ◌<◌, ◌≤◌, length};
ghost use Rattle.numbers.specs.Sizes.{addresses};
ghost use Rattle.numbers.specs.ComesBack.{value_at};
ghost use Rattle.bound.specs.Answer.{paper_of};

use crate::help::MANUAL;
use bound::Refused;
use bound_calls::node_at;
use device::Device;
use device::image::Window;
use program::arguments::{is_given, no_word};
use program::help::answer;
use program::image::{address_at, chosen_window, open_window, room};
use program::streams::{Failure, show};
use routines_bound::{Greatest, Unbounded};
use text::Text;
use text_bounder::{
    ENTRIES, address_in, bound_at, cycles_at, entry_line, most_depth, opened, path_line, summary,
};

// The longest path there can be has 65,535 places: N is at most that, and each of them takes a cycle or more.
const MOST_PLACES: usize = 65535;

const MOST_BYTES: usize = 131070;

// The lines of a path wait until there are so many characters, so that a long path takes few calls of the system.
const WAITING: usize = 65536;

// A line of a path behind what waits, which is written first where the line might have no room.
fn add_line(out: &mut Text<WAITING>, window: Window, at: u16, counted: u32) -> Result<(), Failure>
    requires { (at < addresses) × (counted < 100000) }
{
    if out.len() > WAITING - 43 {
        show(out.as_slice())?;
        out.clear();
    }
    path_line(out, window, at, counted);
    Ok(())
}

// The lines of N's path: it ends where its cycles come to N.
fn list_path(window: Window, path: &[u8], most: u32) -> Result<(), Failure>
    requires { (length path.now ≡ 131070) × (most < 65536) }
{
    let mut out = Text::<WAITING>::new();
    let mut total = 0;
    for i in 0..MOST_PLACES {
        if most <= total {
            break;
        }
        let at = address_in(path, i);
        total += cycles_at(window, at);
        add_line(&mut out, window, at, total)?;
    }
    show(out.as_slice())
}

// The lines of depth's path: it ends with RTI, which stands only where no call is open.
fn list_deep(d: Device, window: Window, deep: &[u8]) -> Result<(), Failure>
    requires { length deep.now ≡ 131070 }
{
    let mut out = Text::<WAITING>::new();
    let mut calls = 0;
    for i in 0..MOST_PLACES {
        let at = address_in(deep, i);
        let kind = node_at(d, window.bytes, window.p3, 2 * usize::from(at)).kind;
        calls = opened(kind, calls);
        add_line(&mut out, window, at, calls)?;
        if kind == 2 {
            break;
        }
    }
    show(out.as_slice())
}

// An answer on a line of its own.
fn show_answer(answer: Result<Greatest, Refused>) -> Result<(), Failure>
    requires { value_at (paper_of answer) 0 < 131072 }
{
    let mut out = Text::<18>::new();
    summary(&mut out, answer);
    out.put(b'\n');
    show(out.as_slice())
}

fn show_depth(depth: usize) -> Result<(), Failure>
    requires { depth < 65536 }
{
    let mut out = Text::<13>::new();
    most_depth(&mut out, depth as u64);
    out.put(b'\n');
    show(out.as_slice())
}

// A row that is excluded. The ports whose writing is excluded differ.
fn show_excluded(d: Device) -> Result<(), Failure> {
    show(
        b"an excluded instruction can be reached: RTI in a called routine, RET outside of one, a store to SP, an unassigned code or one that passes the end of the image, a row that sets EI or a row that writes ",
    )?;
    show(match d {
        Device::Em73862 => b"P16\n",
        Device::Em73P982 => b"P16 or P3\n",
    })
}

// Why there is no bound.
fn show_reason(d: Device, refused: Refused) -> Result<(), Failure> {
    match refused {
        Refused::Unbounded(Unbounded::Recursion(_)) => {
            show(b"a routine can reach a call of itself\n")
        }
        Refused::Unbounded(Unbounded::Excluded(_)) => show_excluded(d),
        Refused::Unbounded(Unbounded::Repeats(_)) => {
            show(b"a repetition can be reached: a path can come back to where it was\n")
        }
        Refused::Unbounded(Unbounded::TooLarge) => show(b"the most cycles are over 65535\n"),
        _ => Ok(()),
    }
}

// The bound from an address with both of its paths, and the depth between them.
fn show_bound(d: Device, window: Window, at: u16) -> Result<(), Failure> {
    let mut path = [0u8; MOST_BYTES];
    let mut deep = [0u8; MOST_BYTES];
    let answer = bound_at(d, window.bytes, window.p3, at.into(), &mut path, &mut deep);
    show_answer(answer)?;
    match answer {
        Ok(greatest) => {
            list_path(window, &path, greatest.cycles as u32)?;
            show_depth(greatest.depth)?;
            list_deep(d, window, &deep)
        }
        Err(refused) => show_reason(d, refused),
    }
}

// The line of the entry at an address, that of the source of a latch.
fn entry(d: Device, window: Window, at: u32, latch: u8) -> Result<(), Failure> {
    let mut path = [0u8; MOST_BYTES];
    let mut deep = [0u8; MOST_BYTES];
    let answer = bound_at(d, window.bytes, window.p3, at, &mut path, &mut deep);
    let mut out = Text::<41>::new();
    entry_line(&mut out, d, at, latch, answer);
    show(out.as_slice())
}

fn entries(d: Device, window: Window) -> Result<(), Failure> {
    for (at, latch) in ENTRIES {
        entry(d, window, at, latch)?;
    }
    Ok(())
}

fn run(rt: &HostRuntime) -> Result<(), Failure> {
    let c = chosen_window(rt)?;
    let mut file = room();
    let window = open_window(rt, c, MANUAL.usage, &mut file)?;
    let word = usize::from(c.before) + 2;
    if !is_given(rt, word) {
        return entries(c.device, window);
    }
    let at = address_at(rt, word)?;
    no_word(rt, word + 1)?;
    show_bound(c.device, window, at)
}

fn main(rt: HostRuntime) {
    answer(&rt, &MANUAL, run)
}
