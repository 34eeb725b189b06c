// After which calls SF is known: marks, by number, the places from which a RET at an unknown place is reached, all routines at once.
#![tactic(auto)]

ghost use Rattle.std.specs.Prelude.{◌≡◌, ◌+◌, ◌*◌, ◌<◌, ◌≤◌, length, IfSome};
ghost use Rattle.graph_search.specs.Marks.{Blank};
ghost use Rattle.routines_numbered.specs.Packed.{into_in};
ghost use Rattle.routines_joined.specs.Ranks.{Tells};
ghost use Rattle.routines_known.specs.Choosing.{known_next, chosen_word, ChosenTo};
ghost use Rattle.routines_known.specs.Marking.{flow_on, Sized, AllLose, Lost, Settled, Swept, IdleTo};

use routines_numbered::{Links, cost_of, into_of, kind_of, next_of, other_of, pack, place_of};

// Whether v loses SF by the marks of what comes after it.
fn loses(words: &[u64], marks: &[u8], v: usize) -> bool
    requires { Sized words.now (length marks.now) × (v < length marks.now) }
    ensures { Tells (Lost (flow_on words.now) marks.now v) result }
{
    let word = words[v];
    let kind = kind_of(word);
    if kind == 4 {
        place_of(word) % 2 == 0
    } else if kind == 1 {
        marks[other_of(word)] != 0 || marks[next_of(word)] != 0
    } else if kind == 3 {
        marks[other_of(word)] != 0 || marks[into_of(word)] != 0 && marks[next_of(word)] != 0
    } else {
        false
    }
}

// Marks v where it loses SF by the marks there are. Tells whether it did.
fn settle(words: &[u64], marks: &mut [u8], v: usize) -> bool
    requires { Sized words.now (length marks.old) × (v < length marks.old) × AllLose (flow_on words.now) marks.old }
    ensures { Settled (flow_on words.now) marks.old v marks.new result }
{
    if marks[v] != 0 || !loses(words, marks, v) {
        return false;
    }
    marks[v] = 1;
    true
}

// Settles all numbers. Tells whether some were marked.
fn sweep(words: &[u64], marks: &mut [u8]) -> bool
    requires { Sized words.now (length marks.old) × AllLose (flow_on words.now) marks.old }
    ensures { Swept (flow_on words.now) marks.old (length marks.old) marks.new result }
{
    let mut changed = false;
    for v in 0..marks.len() {
        changed = settle(words, marks, v) || changed;
    }
    changed
}

// The edge that stands at an index of a list, if one does. In a list an edge is its number and one, and 0 ends it.
fn edge_at(list: &[u32], at: usize) -> Option<u32> {
    list.get(at)?.checked_sub(1)
}

// Puts an edge before those that lead to w.
fn lead(first: &mut [u32], link: &mut [u32], w: usize, edge: usize)
    requires { edge < 4294967295 }
{
    if w < first.len() && edge < link.len() {
        link[edge] = first[w];
        first[w] = (edge + 1) as u32;
    }
}

// The edges of v, listed by where they lead: to the places after it, and of a call to the first of its routine.
fn enter(words: &[u64], first: &mut [u32], link: &mut [u32], v: usize)
    requires { (v < length words.now) × (v < 65536) }
{
    let edge = 3 * v;
    let word = words[v];
    let kind = kind_of(word);
    if kind == 0 {
        return;
    }
    lead(first, link, next_of(word), edge);
    lead(first, link, other_of(word), edge + 1);
    if kind == 3 {
        lead(first, link, into_of(word), edge + 2);
    }
}

// How many numbers wait on the stack, and the edge to be followed back, if there is one.
#[derive(Clone, Copy)]
struct Spot {
    top: usize,
    edge: Option<u32>,
}

// Settles v; where that marks it, it waits on the stack.
fn settle_and_wait(
    words: &[u64],
    marks: &mut [u8],
    stack: &mut [u16],
    top: usize,
    v: usize,
) -> usize
    requires { Sized words.now (length marks.old) × (v < length marks.old) × (top ≤ length stack.old) × AllLose (flow_on words.now) marks.old }
    ensures { AllLose (flow_on words.now) marks.new × (result ≤ length stack.new) }
{
    if !settle(words, marks, v) || stack.len() <= top {
        return top;
    }
    stack[top] = v as u16;
    top + 1
}

// One move backwards: along the edge to the number that it comes from, or to the edges that lead to the number on top. None is left where nothing waits.
fn back(
    words: &[u64],
    first: &[u32],
    link: &[u32],
    marks: &mut [u8],
    stack: &mut [u16],
    spot: Spot,
) -> Option<Spot>
    requires { Sized words.now (length marks.old) × (spot.top ≤ length stack.old) × AllLose (flow_on words.now) marks.old }
    ensures lose { AllLose (flow_on words.now) marks.new }
    ensures top { IfSome result (λ next. next.top ≤ length stack.new) }
{
    let Some(edge) = spot.edge else {
        let top = spot.top.checked_sub(1)?;
        let w = stack[top] as usize;
        return Some(Spot {
            top,
            edge: edge_at(first, w),
        });
    };
    let v = edge as usize / 3;
    let edge = edge_at(link, edge as usize);
    if marks.len() <= v {
        return Some(Spot { edge, ..spot });
    }
    Some(Spot {
        top: settle_and_wait(words, marks, stack, spot.top, v),
        edge,
    })
}

// Lists the edges, and marks the RETs at unknown places. Returns how many wait on the stack.
fn begin(
    words: &[u64],
    first: &mut [u32],
    link: &mut [u32],
    marks: &mut [u8],
    stack: &mut [u16],
) -> usize
    requires { Sized words.now (length marks.old) × AllLose (flow_on words.now) marks.old }
    ensures { AllLose (flow_on words.now) marks.new × (result ≤ length stack.new) }
{
    let mut top = 0;
    for v in 0..marks.len() {
        enter(words, first, link, v);
        top = settle_and_wait(words, marks, stack, top, v);
    }
    top
}

// Marks backwards from the numbers on the stack. Five moves to a number are enough: each waits once, and each of its edges is followed once.
fn spread(
    words: &[u64],
    first: &[u32],
    link: &[u32],
    marks: &mut [u8],
    stack: &mut [u16],
    top: usize,
)
    requires { Sized words.now (length marks.old) × (top ≤ length stack.old) × AllLose (flow_on words.now) marks.old }
    ensures { AllLose (flow_on words.now) marks.new }
{
    let mut spot = Spot { top, edge: None };
    for _ in 0..5 * marks.len() {
        let Some(next) = back(words, first, link, marks, stack, spot) else {
            return;
        };
        spot = next;
    }
}

// Marks, in an array of zeros, all numbers from which a RET at an unknown place is reached. The order backwards is a hint, which a sweep confirms; first, of zeros, link and stack are to work in.
pub fn mark_losing(
    words: &[u64],
    first: &mut [u32],
    link: &mut [u32],
    stack: &mut [u16],
    marks: &mut [u8],
)
    requires { Sized words.now (length marks.old) × Blank marks.old }
    ensures { AllLose (flow_on words.now) marks.new × IdleTo (flow_on words.now) marks.new (length marks.new) }
{
    let top = begin(words, first, link, marks, stack);
    spread(words, first, link, marks, stack, top);
    let mut changed = true;
    while changed {
        changed = sweep(words, marks);
    }
}

// A call's word with the place after it where SF is known as its next.
fn known_next(word: u64) -> u64
    ensures { result ≡ known_next word }
{
    let other = other_of(word);
    let links = Links {
        next: other,
        other,
        into: into_of(word),
    };
    pack(place_of(word), links, kind_of(word), cost_of(word))
}

// The word, which says where a call goes on: known, if the first place of its routine has no mark.
#[tactic(auto, unfolding(crate::specs::Choosing::chosen_word))]
fn chosen(word: u64, marks: &[u8]) -> u64
    requires { into_in word < length marks.now }
    ensures { result ≡ chosen_word marks.now word }
{
    if kind_of(word) == 3 && marks[into_of(word)] == 0 {
        known_next(word)
    } else {
        word
    }
}

// Has each call's word say where it goes on.
pub fn choose(words: &mut [u64], marks: &[u8])
    requires { Sized words.old (length marks.now) }
    ensures { ChosenTo words.old marks.now (length marks.now) words.new }
{
    for v in 0..marks.len() {
        words[v] = chosen(words[v], marks);
    }
}
