// From which places a place at an address is reached: the words with those places as ends, so that what loses SF there reaches one of them.
ghost use Rattle.std.specs.Prelude.{◌≡◌, ◌<◌, ◌≤◌, length};
ghost use Rattle.routines_counted.specs.Seeds.{SeededIs, SeededTo, AheadIs};

use crate::reached::step_over;
use crate::steps::Steps;
use graph_search::clear;
use routines_known::mark_losing;
use routines_numbered::{Links, pack, place_of};

// The word of a place, which ends where it stands at the address.
fn seeded_word(word: u64, at: usize) -> u64
    ensures { SeededIs word at result }
{
    if place_of(word) / 2 == at {
        let links = Links {
            next: 0,
            other: 0,
            into: 0,
        };
        return pack(0, links, 4, 0);
    }
    let Some((next, other)) = step_over(word) else {
        return 0;
    };
    let links = Links {
        next,
        other,
        into: 0,
    };
    pack(0, links, 1, 0)
}

// The same for each of the words.
pub fn lay_seeded(steps: &Steps, at: usize, seeded: &mut [u64])
    requires { steps.now.numbers ≤ length seeded.old }
    ensures { SeededTo steps.now.words.now at steps.now.numbers seeded.new }
{
    for v in 0..steps.numbers {
        seeded[v] = seeded_word(steps.words[v], at);
    }
}

// Marks exactly the places from which one at the address is reached, calls stepped over. The other arrays are to work in, first of zeros.
pub fn mark_ahead(
    steps: &Steps,
    at: usize,
    seeded: &mut [u64],
    first: &mut [u32],
    link: &mut [u32],
    stack: &mut [u16],
    ahead: &mut [u8],
)
    requires { (length ahead.old ≡ steps.now.numbers) × (length seeded.old ≡ 16384) × (0 < length ahead.old) }
    ensures { AheadIs steps.now.words.now at (length ahead.old) ahead.new }
{
    lay_seeded(steps, at, seeded);
    clear(ahead);
    mark_losing(seeded, first, link, stack, ahead);
}
