// The bound of a handler whose routines are words by number: 24, 21, 22, 25, 23, or N and the depth with a path for each.
// The arrays of each part are gone before the next begins, so that the parts share the stack's room; docs/PERFORMANCE.md has how much it is.
#![tactic(auto)]

ghost use Rattle.std.specs.Prelude.{◌≡◌, false, ◌<◌, ◌≤◌, length};
ghost use Rattle.graph_search.specs.Marks.{Blank};
ghost use Rattle.routines.specs.Calling.{unknown};
ghost use Rattle.routines.specs.Answer.{FlowAnswer, Answer};
ghost use Rattle.routines_joined.specs.Words.{flow_at};
ghost use Rattle.routines_joined.specs.Refused.{Recursion, address_in};
ghost use Rattle.routines_known.specs.Marking.{Sized};
ghost use Rattle.routines_sums.specs.Dist.{Dist};
ghost use Rattle.routines_sums.specs.Ways.{ways_in, costs_in, Priced, IdleTo};
ghost use Rattle.routines_bound.specs.declared.Unbounded.{Unbounded};
ghost use Rattle.routines_bound.specs.Handler.{unbounded_of, found_of, NoCall, HandlerWords, Settles, JudgedBy, ChosenBy, CallsJudged, Comes, Measured};

use graph::PLACES;
use routines_joined::joined::{ENTRIES, Joined, NODES};
use routines_joined::{Unsound, judge, recursion};
use routines_known::{choose, mark_losing};
use routines_numbered::kind_of;
use routines_paths::{TooShort, write_paths};
use routines_sums::sums;

// The greatest of what is spent, and of the calls that are open at once.
#[derive(Clone, Copy, PartialEq, Eq)]
pub struct Greatest {
    pub cycles: usize,
    pub depth: usize,
}

// Why there is no bound: with an entry, an address, or the bytes that a path needs.
#[derive(Clone, Copy, PartialEq, Eq)]
pub enum Unbounded {
    Recursion(usize),
    Excluded(usize),
    Repeats(usize),
    TooLarge,
    Short(usize),
}

impl From<Unsound> for Unbounded {
    ghost from_gives = { λ unsound unbounded. unbounded ≡ unbounded_of unsound };

    fn from(unsound: Unsound) -> Unbounded {
        match unsound {
            Unsound::Excluded(address) => Unbounded::Excluded(address),
            Unsound::Repeats(address) => Unbounded::Repeats(address),
        }
    }
}

impl From<TooShort> for Unbounded {
    ghost from_gives = { λ short unbounded. unbounded ≡ Unbounded.Short short.bytes };

    fn from(short: TooShort) -> Unbounded {
        Unbounded::Short(short.bytes)
    }
}

// A number has at most three edges to others.
const EDGES: usize = 49152;

// Whether one of the words is a call.
#[tactic(auto, unfolding(routines_numbered::specs::Packed::nodes_in, routines_numbered::specs::Packed::node_in))]
fn has_call(words: &[u64]) -> bool
    ensures { result ≡ false → NoCall words.now (length words.now) }
{
    words.iter().any(|word| kind_of(*word) == 3)
}

// The lowest entry that recurs.
fn lowest_recursion(joined: &Joined) -> Option<usize>
    ensures { Recursion (flow_at joined.now.words.now joined.now.map.now) result }
{
    let nodes = ENTRIES + 2 * joined.numbers;
    let mut marks = [0u8; NODES];
    let mut queue = [0u16; NODES];
    let mut rank = [0u16; NODES];
    let mut number = [0u16; NODES];
    let mut back = [0u16; NODES];
    let mut stage = [0u8; NODES];
    recursion(
        joined,
        &mut marks[..nodes],
        &mut queue[..nodes],
        &mut rank[..nodes],
        &mut number[..nodes],
        &mut back[..nodes],
        &mut stage[..nodes],
    )
}

// 21, 22, or neither.
fn judged(joined: &Joined) -> Result<usize, Unsound>
    requires { Settles joined.now.words.now joined.now.map.now joined.now.numbers }
    ensures { JudgedBy joined.now.words.now joined.now.map.now result }
{
    let nodes = ENTRIES + 2 * joined.numbers;
    let mut marks = [0u8; NODES];
    let mut queue = [0u16; NODES];
    let mut rank = [0u16; NODES];
    let mut number = [0u16; NODES];
    let mut back = [0u16; NODES];
    let mut stage = [0u8; NODES];
    judge(
        joined,
        &mut marks[..nodes],
        &mut queue[..nodes],
        &mut rank[..nodes],
        &mut number[..nodes],
        &mut back[..nodes],
        &mut stage[..nodes],
    )
}

// Has the word of each call say where it goes on.
fn choose_calls(words: &mut [u64], n: usize)
    requires { Sized words.old n }
    ensures { ChosenBy words.old n words.new }
{
    let mut first = [0u32; PLACES];
    let mut link = [0u32; EDGES];
    let mut stack = [0u16; PLACES];
    let mut room = [0u8; PLACES];
    let marks = &mut room[..n];
    mark_losing(words, &mut first, &mut link, &mut stack, marks);
    choose(words, marks);
}

// What the settled sums and depths come to.
fn answer_of(
    words: &[u64],
    d: &[u32],
    dep: &[u16],
    path: &mut [u8],
    deep: &mut [u8],
) -> Result<Greatest, Unbounded>
    requires { Priced words.now (length d.now) × (0 < length d.now) × (length dep.now ≡ length d.now) × Dist (ways_in words.now) (costs_in words.now) d.now dep.now }
    ensures { Comes (ways_in words.now) (address_in words.now) d.now dep.now
        path.old path.new deep.old deep.new result }
{
    let cycles = d[0];
    if cycles == 0 {
        return Err(Unbounded::TooLarge);
    }
    write_paths(words, d, dep, path, deep)?;
    Ok(Greatest {
        cycles: cycles as usize,
        depth: dep[0] as usize,
    })
}

// Settles the sums and the depths, in arrays of zeros.
fn settle(words: &[u64], d: &mut [u32], dep: &mut [u16])
    requires { Priced words.now (length d.old) × (0 < length d.old) × Blank d.old × Blank dep.old × (length dep.old ≡ length d.old) }
    ensures { Dist (ways_in words.now) (costs_in words.now) d.new dep.new
        × IdleTo (ways_in words.now) (costs_in words.now) d.new (length d.new) }
{
    let n = d.len();
    let mut stage = [0u8; PLACES];
    let mut back = [0u16; PLACES];
    sums(words, 0, d, dep, &mut stage[..n], &mut back[..n]);
}

// The bound of a handler that is judged and sound.
fn measured(
    words: &[u64],
    n: usize,
    path: &mut [u8],
    deep: &mut [u8],
) -> Result<Greatest, Unbounded>
    requires { Priced words.now n × (0 < n) }
    ensures { Measured words.now n path.old path.new deep.old deep.new result }
{
    let mut sums_room = [0u32; PLACES];
    let mut depths_room = [0u16; PLACES];
    let d = &mut sums_room[..n];
    let dep = &mut depths_room[..n];
    settle(words, d, dep);
    answer_of(words, d, dep, path, deep)
}

// The bound of a handler in which nothing recurs and whose words say where their calls go on: 21, 22, 25, 23, or N and the depth.
fn answer_judged(joined: &Joined, path: &mut [u8], deep: &mut [u8]) -> Result<Greatest, Unbounded>
    requires { Settles joined.now.words.now joined.now.map.now joined.now.numbers }
    ensures { FlowAnswer (flow_at joined.now.words.now joined.now.map.now) (costs_in joined.now.words.now) (address_in joined.now.words.now)
        path.old path.new deep.old deep.new unknown (found_of result) }
{
    judged(joined)?;
    measured(joined.words, joined.numbers, path, deep)
}

// The lowest entry that recurs; where none does, the word of each call says where it goes on. Without calls nothing is paid for them but the test.
fn judge_calls(words: &mut [u64], map: &[u16], n: usize) -> Option<usize>
    requires { HandlerWords words.old map.now n }
    ensures { CallsJudged words.old map.now n words.new result }
{
    if !has_call(&words[..n]) {
        return None;
    }
    let joined = Joined {
        words,
        map,
        numbers: n,
    };
    if let Some(entry) = lowest_recursion(&joined) {
        return Some(entry);
    }
    choose_calls(words, n);
    None
}

// The bound of a handler of n numbers, of which the start's is 0.
pub fn bound_words(
    words: &mut [u64],
    map: &[u16],
    n: usize,
    path: &mut [u8],
    deep: &mut [u8],
) -> Result<Greatest, Unbounded>
    requires { HandlerWords words.old map.now n }
    ensures { Answer (flow_at words.old map.now) (costs_in words.old) (address_in words.old)
        path.old path.new deep.old deep.new (found_of result) }
{
    if let Some(entry) = judge_calls(words, map, n) {
        return Err(Unbounded::Recursion(entry));
    }
    let joined = Joined {
        words,
        map,
        numbers: n,
    };
    answer_judged(&joined, path, deep)
}
