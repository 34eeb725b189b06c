// Request Q-9: N's path through the calls, from number 0, written with a stack of where the open calls go on.
ghost use Rattle.std.specs.Prelude.{◌*◌, ◌<◌, ◌≤◌, length, get_or};
ghost use Rattle.graph_search.specs.Marks.{Within};
ghost use Rattle.routines_joined.specs.Refused.{address_in};
ghost use Rattle.routines_sums.specs.Ways.{ways_in, Priced};
ghost use Rattle.routines_paths.specs.Open.{open_of, Goes};
ghost use Rattle.routines_paths.specs.Way.{Greater, Fall, Move, Roomy, Written, LengthIs};

use crate::place::{latest, more, put};
use routines_sums::{Way, way_of};

// A number, and how many calls are open there.
#[derive(Clone, Copy)]
pub struct At {
    pub v: usize,
    pub top: usize,
}

// The successor with the greater sum.
fn greater(d: &[u32], way: Way) -> usize
    requires { (way.first < length d.now) × (way.second < length d.now) }
    ensures { Greater d.now way.first way.second result }
{
    let Way { first, second, .. } = way;
    if d[first] < d[second] { second } else { first }
}

// One move of the way: on, into a routine, or back to where the latest call goes on.
fn move_on(words: &[u64], d: &[u32], stack: &mut [u16], here: At) -> At
    requires { Priced words.now (length d.now) × (here.v < length d.now) × (here.top < length stack.old) × Within stack.old (length d.now)
        × Goes ((ways_in words.now).kind here.v) here.top }
    ensures { Move (ways_in words.now) d.now (open_of stack.old here.top) here.v (open_of stack.new result.top) result.v
        × Within stack.new (length d.now) }
{
    let top = here.top;
    let way = way_of(words, here.v);
    if way.kind == 1 {
        return At {
            v: greater(d, way),
            top,
        };
    }
    if way.kind == 3 {
        stack[top] = way.second as u16;
        return At {
            v: way.first,
            top: top + 1,
        };
    }
    At {
        v: latest(stack, top),
        top: top - 1,
    }
}

// Writes the way at the buffer's start. stack is to work in.
pub fn write_path(words: &[u64], d: &[u32], stack: &mut [u16], path: &mut [u8])
    requires { Priced words.now (length d.now) × Fall (ways_in words.now) d.now × (0 < get_or d.now 0 0) × Within stack.old (length d.now)
        × Roomy (ways_in words.now) d.now 0 path.old (length stack.old) }
    ensures { Written (ways_in words.now) (address_in words.now) d.now 0 path.old path.new }
{
    let mut here = At { v: 0, top: 0 };
    let mut at = 0;
    while more(words, here.v, here.top) {
        put(words, here.v, path, at);
        here = move_on(words, d, stack, here);
        at += 2;
    }
    put(words, here.v, path, at);
}

// How many places the way has. stack is to work in.
pub fn path_len(words: &[u64], d: &[u32], stack: &mut [u16]) -> usize
    requires { Priced words.now (length d.now) × Fall (ways_in words.now) d.now × (0 < get_or d.now 0 0) × Within stack.old (length d.now)
        × (get_or d.now 0 0 ≤ 2 * length stack.old) }
    ensures { LengthIs (ways_in words.now) d.now 0 result }
{
    let mut here = At { v: 0, top: 0 };
    let mut n = 1;
    while more(words, here.v, here.top) {
        here = move_on(words, d, stack, here);
        n += 1;
    }
    n
}
