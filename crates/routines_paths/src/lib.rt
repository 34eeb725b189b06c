// N's path and depth's path through the calls over words by number, each in a buffer of its own, where sums and depths are settled. The start is number 0.
#![tactic(auto)]

pub mod deepest;
pub mod place;
pub mod route;

ghost use Rattle.std.specs.Prelude.{◌≡◌, ◌<◌, length, get_or};
ghost use Rattle.routines_joined.specs.Refused.{address_in};
ghost use Rattle.routines_sums.specs.Ways.{ways_in, Priced};
ghost use Rattle.routines_paths.specs.Way as way;
ghost use Rattle.routines_paths.specs.Deep as deep;
ghost use Rattle.routines_paths.specs.Paths.{Paths};

use crate::deepest::{deep_len, write_deepest};
use crate::route::{path_len, write_path};

// More calls than half the places of a path are never open: each has been passed and has yet to end.
const OPEN: usize = 32768;

fn way_len(words: &[u64], d: &[u32]) -> usize
    requires { Priced words.now (length d.now) × way.Fall (ways_in words.now) d.now × (0 < get_or d.now 0 0) × (get_or d.now 0 0 < 65536) }
    ensures { way.LengthIs (ways_in words.now) d.now 0 result }
{
    let mut stack = [0u16; OPEN];
    path_len(words, d, &mut stack)
}

fn put_way(words: &[u64], d: &[u32], path: &mut [u8])
    requires { Priced words.now (length d.now) × way.Fall (ways_in words.now) d.now × (0 < get_or d.now 0 0) × way.Roomy (ways_in words.now) d.now 0 path.old 32768 }
    ensures { way.Written (ways_in words.now) (address_in words.now) d.now 0 path.old path.new }
{
    let mut stack = [0u16; OPEN];
    write_path(words, d, &mut stack, path);
}

fn deep_way_len(words: &[u64], dep: &[u16]) -> usize
    requires { Priced words.now (length dep.now) × (0 < length dep.now) × deep.Short (ways_in words.now) dep.now (get_or dep.now 0 0) 0 32768 }
    ensures { deep.LengthIs (ways_in words.now) dep.now (get_or dep.now 0 0) 0 32768 result }
{
    let mut stack = [0u16; OPEN];
    let mut pend = [0u32; OPEN + 1];
    let goal = dep[0] as usize;
    deep_len(words, dep, goal, &mut stack, &mut pend)
}

fn put_deep_way(words: &[u64], dep: &[u16], path: &mut [u8])
    requires { Priced words.now (length dep.now) × (0 < length dep.now) × deep.Roomy (ways_in words.now) dep.now (get_or dep.now 0 0) 0 path.old 32768 }
    ensures { deep.Written (ways_in words.now) (address_in words.now) dep.now (get_or dep.now 0 0) 0 path.old path.new }
{
    let mut stack = [0u16; OPEN];
    let mut pend = [0u32; OPEN + 1];
    let goal = dep[0] as usize;
    write_deepest(words, dep, goal, &mut stack, &mut pend, path);
}

// A buffer is too short: how many bytes its path needs.
#[derive(Clone, Copy, PartialEq, Eq)]
pub struct TooShort {
    pub bytes: usize,
}

// Writes both paths; or, where a buffer is too short, neither, and says how many bytes are needed for the first that is.
pub fn write_paths(
    words: &[u64],
    d: &[u32],
    dep: &[u16],
    path: &mut [u8],
    deep: &mut [u8],
) -> Result<(), TooShort>
    requires { Priced words.now (length d.now) × way.Fall (ways_in words.now) d.now × (0 < get_or d.now 0 0) × (get_or d.now 0 0 < 65536) × (length dep.now ≡ length d.now) }
    ensures { Paths (ways_in words.now) (address_in words.now) d.now dep.now 0 path.old path.new deep.old deep.new result }
{
    let n = 2 * way_len(words, d);
    if path.len() < n {
        return Err(TooShort { bytes: n });
    }
    let m = 2 * deep_way_len(words, dep);
    if deep.len() < m {
        return Err(TooShort { bytes: m });
    }
    put_way(words, d, path);
    put_deep_way(words, dep, deep);
    Ok(())
}
