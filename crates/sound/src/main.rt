// sound: the commands on standard input, each answered by a line.
// All that it has to say is written before it reads on, so that a person at a terminal sees each answer. No line is held.
#![tactic(auto)]

mod help;

use crate::help::MANUAL;
use program::arguments::no_word;
use program::help::answer;
use program::part::read_into;
use program::streams::{Failure, show};
use sound_generator::start;
use sound_text::command::nothing_entered;
use sound_text::{feed, last};
use text::Text;

// What is read at once, and the longest answer to it: 76 characters for each character of it.
const PART: usize = 512;

const ANSWERS: usize = 38912;

// A proved loop has to end, and nothing says that the input does: no run uses up the turns.
fn run(rt: &HostRuntime) -> Result<(), Failure> {
    no_word(rt, 1)?;
    let mut part = [0u8; PART];
    let mut out: Text<ANSWERS> = Text::new();
    let mut state = start();
    let mut entry = nothing_entered();
    for _ in 0..u64::MAX {
        let n = read_into(&mut rt.stdin(), &mut part)?;
        if n == 0 {
            last(state, entry, &mut out);
            return show(out.as_slice());
        }
        let fed = feed(state, entry, &part[..n], &mut out);
        show(out.as_slice())?;
        out.clear();
        state = fed.state;
        entry = fed.entry;
    }
    Ok(())
}

fn main(rt: HostRuntime) {
    answer(&rt, &MANUAL, run)
}
