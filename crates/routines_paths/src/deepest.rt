// Request Q-9: the depth's path through the calls, from number 0, written with a stack of where the open calls go on and what can be reached there.
ghost use Rattle.std.specs.Prelude.{◌≡◌, ◌∷◌, ◌+◌, ◌<◌, max, length, get_or};
ghost use Rattle.routines_joined.specs.Refused.{address_in};
ghost use Rattle.routines_sums.specs.Ways.{ways_in, Priced};
ghost use Rattle.routines_paths.specs.Open.{open_of, Goes};
ghost use Rattle.routines_paths.specs.Deep.{Turned, Working, Move, Roomy, Written, Short, LengthIs};

use crate::place::{latest, more, put};
use routines_sums::{Way, way_of};

// A number, how many calls are open there, and how many were at most.
#[derive(Clone, Copy)]
pub struct Deep {
    pub v: usize,
    pub top: usize,
    pub reached: usize,
}

// At a fork: first, where the goal was reached or can be that way or later, else second.
fn turn(dep: &[u16], pend: &[u32], goal: usize, here: Deep, way: Way) -> usize
    requires { (here.top < length pend.now) × (here.top < 65536) × (way.first < length dep.now) }
    ensures { Turned goal (max (max here.reached (get_or pend.now here.top 0)) (here.top + get_or dep.now way.first 0)) way.first way.second result }
{
    let top = here.top;
    let later = pend[top] as usize;
    let most = here.reached.max(later).max(top + dep[way.first] as usize);
    if goal <= most { way.first } else { way.second }
}

// At a call: where it goes on is laid on the stack, and what can be reached from there on beside it.
fn enter(dep: &[u16], stack: &mut [u16], pend: &mut [u32], here: Deep, way: Way) -> Deep
    requires { Working dep.now stack.old pend.old here.top × (here.top < length stack.old) × (way.second < length dep.now) }
    ensures { (result.v ≡ way.first) × (result.reached ≡ max here.reached (here.top + 1)) × (open_of stack.new result.top ≡ way.second ∷ open_of stack.old here.top)
        × Working dep.now stack.new pend.new result.top }
{
    let top = here.top;
    let second = way.second;
    let most = (top + dep[second] as usize).max(pend[top] as usize);
    stack[top] = second as u16;
    pend[top + 1] = most as u32;
    Deep {
        v: way.first,
        top: top + 1,
        reached: here.reached.max(top + 1),
    }
}

// One move of the way.
fn deep_on(
    words: &[u64],
    dep: &[u16],
    stack: &mut [u16],
    pend: &mut [u32],
    goal: usize,
    here: Deep,
) -> Deep
    requires { Priced words.now (length dep.now) × (here.v < length dep.now) × (here.top < length stack.old) × Working dep.now stack.old pend.old here.top
        × Goes ((ways_in words.now).kind here.v) here.top }
    ensures { Move (ways_in words.now) dep.now goal here.reached (open_of stack.old here.top) here.v
        result.reached (open_of stack.new result.top) result.v
        × Working dep.now stack.new pend.new result.top × (result.v < length dep.now) }
{
    let top = here.top;
    let way = way_of(words, here.v);
    if way.kind == 1 {
        return Deep {
            v: turn(dep, pend, goal, here, way),
            ..here
        };
    }
    if way.kind == 3 {
        return enter(dep, stack, pend, here, way);
    }
    Deep {
        v: latest(stack, top),
        top: top - 1,
        ..here
    }
}

// Writes the way to the goal at the buffer's start. stack and pend are to work in.
pub fn write_deepest(
    words: &[u64],
    dep: &[u16],
    goal: usize,
    stack: &mut [u16],
    pend: &mut [u32],
    path: &mut [u8],
)
    requires { Priced words.now (length dep.now) × (0 < length dep.now) × Working dep.now stack.old pend.old 0
        × Roomy (ways_in words.now) dep.now goal 0 path.old (length stack.old) }
    ensures { Written (ways_in words.now) (address_in words.now) dep.now goal 0 path.old path.new }
{
    let mut here = Deep {
        v: 0,
        top: 0,
        reached: 0,
    };
    let mut at = 0;
    while more(words, here.v, here.top) {
        put(words, here.v, path, at);
        here = deep_on(words, dep, stack, pend, goal, here);
        at += 2;
    }
    put(words, here.v, path, at);
}

// How many places the way to the goal has. stack and pend are to work in.
pub fn deep_len(
    words: &[u64],
    dep: &[u16],
    goal: usize,
    stack: &mut [u16],
    pend: &mut [u32],
) -> usize
    requires { Priced words.now (length dep.now) × (0 < length dep.now) × Working dep.now stack.old pend.old 0
        × Short (ways_in words.now) dep.now goal 0 (length stack.old) }
    ensures { LengthIs (ways_in words.now) dep.now goal 0 (length stack.old) result }
{
    let mut here = Deep {
        v: 0,
        top: 0,
        reached: 0,
    };
    let mut n = 0;
    while more(words, here.v, here.top) {
        here = deep_on(words, dep, stack, pend, goal, here);
        n += 1;
    }
    n + 1
}
