// What is reached from a place in its routine, calls stepped over.
ghost use Rattle.std.specs.Prelude.{◌≡◌, ◌⊎◌, ◌+◌, ◌<◌, ◌≤◌, length};
ghost use Rattle.graph_search.specs.Search.{Reached};
ghost use Rattle.routines_known.specs.Marking.{Sized};
ghost use Rattle.routines_counted.specs.Overs.{steps_in, OverIs, JoinedTo, Searches, Starts, BehindTo};

use crate::steps::Steps;
use graph_search::{Successors, clear, reach};
use routines_numbered::{kind_of, next_of, other_of, place_of};

// Where a place goes on, if it does; after a call, at its next.
pub fn step_over(word: u64) -> Option<(usize, usize)>
    ensures { OverIs word result }
{
    let next = next_of(word);
    match kind_of(word) {
        1 => Some((next, other_of(word))),
        3 => Some((next, next)),
        _ => None,
    }
}

impl Successors for Steps<'_> {
    ghost use Rattle.routines_counted.specs.Overs.{steps_in};

    ghost graph = { λ s. steps_in s.words.now };

    ghost places = { λ s. s.numbers };

    fn after(&self, v: usize) -> Option<(usize, usize)> {
        step_over(self.words[v])
    }
}

// A mark where there is one or the other.
fn either_mark(a: u8, b: u8) -> u8
    ensures { (0 < result → (0 < a) ⊎ (0 < b)) × ((0 < a) ⊎ (0 < b) → 0 < result) }
{
    if a == 0 { b } else { a }
}

// Marks in all what is marked in found.
fn join(found: &[u8], all: &mut [u8])
    requires { length found.now ≤ length all.old }
    ensures { JoinedTo found.now all.old (length found.now) all.new }
{
    for (v, mark) in found.iter().enumerate() {
        all[v] = either_mark(*mark, all[v]);
    }
}

// Marks in behind what is reached from s too, where s is among what is reached and stands at the address.
fn reach_start(
    steps: &Steps,
    reached: &[u8],
    at: usize,
    s: usize,
    found: &mut [u8],
    queue: &mut [u16],
    behind: &mut [u8],
)
    requires { (length found.old ≡ steps.now.numbers) × Searches reached.now found.old queue.old behind.old × (s < length found.old)
        × BehindTo (steps_in steps.now.words.now) (Starts steps.now.words.now reached.now at) s behind.old }
    ensures { BehindTo (steps_in steps.now.words.now) (Starts steps.now.words.now reached.now at) (s + 1) behind.new }
{
    if reached[s] == 0 {
        return;
    }
    if place_of(steps.words[s]) / 2 != at {
        return;
    }
    reach(steps, s, found, queue);
    join(found, behind);
}

// Marks exactly the places that are reached, calls stepped over, from one that is marked in reached and stands at the address. found and queue are to work in.
pub fn reach_behind(
    steps: &Steps,
    reached: &[u8],
    at: usize,
    found: &mut [u8],
    queue: &mut [u16],
    behind: &mut [u8],
)
    requires { (length found.old ≡ steps.now.numbers) × Searches reached.now found.old queue.old behind.old }
    ensures { BehindTo (steps_in steps.now.words.now) (Starts steps.now.words.now reached.now at) (length reached.now) behind.new }
{
    clear(behind);
    for s in 0..reached.len() {
        reach_start(steps, reached, at, s, found, queue, behind);
    }
}
