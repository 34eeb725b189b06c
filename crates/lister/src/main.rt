// lister [--device NAME [--p3 N]] IMAGE [ADDRESS [COUNT]]: the rows of an image, one a line, in the sheet's notation, seen through the window of P3.
// The words are judged from the left: the device and P3, the image, whether P3 may stand, the address, the number of lines, and that there are no more.
#![tactic(auto)]

mod help;

ghost use Rattle.std.specs.Prelude.{◌≤◌, IfOk};

use crate::help::MANUAL;
use device::image::Window;
use program::arguments::{arg, is_given, no_word};
use program::help::answer;
use program::image::{address_at, chosen_window, open_window, room};
use program::streams::{Failure, show};
use text::Text;
use text::words::read_number;
use text_lister::line::listing;

// The lines of a whole image, of 37 characters each, and three more.
const MOST_CHARACTERS: usize = 303107;

fn list(window: Window, at: u16, count: u32) -> Result<(), Failure>
    requires { count ≤ 8192 }
{
    let mut out = Text::<MOST_CHARACTERS>::new();
    listing(&mut out, window, at, count);
    show(out.as_slice())
}

// The number of lines that a word names.
fn count_at(rt: &HostRuntime, word: usize) -> Result<u32, Failure>
    ensures { IfOk result (λ count. count ≤ 8192) }
{
    let mut buffer = io::buffer();
    read_number(arg(rt, word, &mut buffer), 10).ok_or(Failure::Usage)
}

fn run(rt: &HostRuntime) -> Result<(), Failure> {
    let c = chosen_window(rt)?;
    let mut file = room();
    let window = open_window(rt, c, MANUAL.usage, &mut file)?;
    let word = usize::from(c.before) + 2;
    let at = if is_given(rt, word) {
        address_at(rt, word)?
    } else {
        0
    };
    let count = if is_given(rt, word + 1) {
        count_at(rt, word + 1)?
    } else {
        8192
    };
    no_word(rt, word + 2)?;
    list(window, at, count)
}

fn main(rt: HostRuntime) {
    answer(&rt, &MANUAL, run)
}
