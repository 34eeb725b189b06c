// The nodes of a flow that is unrolled by its counts: where the steps of a place lead from each of its numbers.
ghost use Rattle.std.specs.Prelude.{◌≡◌, ◌+◌, ◌<◌, ◌≤◌, length, get_or};
ghost use Rattle.counts.specs.CountedAnswer.{Given};
ghost use Rattle.routines_numbered.specs.Packed.{nodes_in};
ghost use Rattle.counts.specs.Radix.{size};
ghost use Rattle.counts.specs.Laying.{led_to, first_node};
ghost use Rattle.routines_counted.specs.Counting.{counts_of};
ghost use Rattle.routines_counted.specs.Nodes.{numbering_of, Places, NodeTo, Numbered, Asked, LinkedIs, LaysTo, Apart, LaidAll};

use crate::{MOST_TURNS, NO_STEP, moved_to, size_of};
use routines_numbered::{Links, into_of, kind_of, next_of, other_of, pack, place_of};

// The node to which a step to w leads from the node of v with the numbers d, or NO_STEP.
pub fn node_to(
    words: &[u64],
    counts: &[u32],
    masks: &[u16],
    bases: &[u16],
    v: usize,
    d: u32,
    w: usize,
) -> u32
    requires { Places words.now counts.now masks.now bases.now v × Places words.now counts.now masks.now bases.now w }
    ensures { NodeTo (numbering_of words.now counts.now masks.now bases.now) v d w result }
{
    let r = moved_to(
        counts,
        masks[v],
        masks[w],
        (place_of(words[w]) / 2) as u32,
        d,
    );
    if MOST_TURNS <= r {
        return NO_STEP;
    }
    bases[w] as u32 + r
}

// That node, or that of v itself where no step leads there.
pub fn led_to(
    words: &[u64],
    counts: &[u32],
    masks: &[u16],
    bases: &[u16],
    v: usize,
    d: u32,
    w: usize,
) -> usize
    requires { Places words.now counts.now masks.now bases.now v × Places words.now counts.now masks.now bases.now w
        × (d < size (numbering_of words.now counts.now masks.now bases.now).counts ((numbering_of words.now counts.now masks.now bases.now).mask v)) }
    ensures { (result ≡ led_to (numbering_of words.now counts.now masks.now bases.now) v d w) × (result < 32768) }
{
    let r = node_to(words, counts, masks, bases, v, d, w);
    if MOST_TURNS <= r {
        return node_of(bases, v, d);
    }
    r as usize
}

// The node of the first place w of a routine, or of the handler.
pub fn first_node(words: &[u64], counts: &[u32], masks: &[u16], bases: &[u16], w: usize) -> usize
    requires { Places words.now counts.now masks.now bases.now w × Given (counts_of counts.now) }
    ensures { (result ≡ first_node (numbering_of words.now counts.now masks.now bases.now) w) × (result < 32768) }
{
    let address = (place_of(words[w]) / 2) as u32;
    let r = moved_to(counts, 0, masks[w], address, 0);
    bases[w] as usize + r as usize
}

// The node of v with the numbers d.
pub fn node_of(bases: &[u16], v: usize, d: u32) -> usize
    requires { (v < length bases.now) × (v < 16384) × (get_or bases.now v 0 + d < 32768) }
    ensures { result ≡ get_or bases.now v 0 + d }
{
    bases[v] as usize + d as usize
}

// The node of a fork v with the numbers d, as its steps lead.
fn linked_fork(
    words: &[u64],
    counts: &[u32],
    masks: &[u16],
    bases: &[u16],
    n: usize,
    v: usize,
    d: u32,
) -> u64
    requires { Asked words.now counts.now masks.now bases.now n v d × ((nodes_in words.now v).kind ≡ 1) }
    ensures { LinkedIs words.now counts.now masks.now bases.now v d result }
{
    let word = words[v];
    let links = Links {
        next: led_to(words, counts, masks, bases, v, d, next_of(word)),
        other: led_to(words, counts, masks, bases, v, d, other_of(word)),
        into: 0,
    };
    pack(0, links, 1, 0)
}

// The node of a call v with the numbers d: its routine's first node, and where it goes on. Where SF would be known after it, it leads back to itself.
fn linked_call(
    words: &[u64],
    counts: &[u32],
    masks: &[u16],
    bases: &[u16],
    n: usize,
    v: usize,
    d: u32,
) -> u64
    requires { Asked words.now counts.now masks.now bases.now n v d × ((nodes_in words.now v).kind ≡ 3) }
    ensures { LinkedIs words.now counts.now masks.now bases.now v d result }
{
    let word = words[v];
    let links = Links {
        next: led_to(words, counts, masks, bases, v, d, next_of(word)),
        other: node_of(bases, v, d),
        into: first_node(words, counts, masks, bases, into_of(word)),
    };
    pack(0, links, 3, 0)
}

// The node of v with the numbers d, as its steps lead. An end is a RET at an unknown place.
pub fn linked_word(
    words: &[u64],
    counts: &[u32],
    masks: &[u16],
    bases: &[u16],
    n: usize,
    v: usize,
    d: u32,
) -> u64
    requires { Asked words.now counts.now masks.now bases.now n v d }
    ensures { LinkedIs words.now counts.now masks.now bases.now v d result }
{
    let kind = kind_of(words[v]);
    if kind == 1 {
        return linked_fork(words, counts, masks, bases, n, v, d);
    }
    if kind == 3 {
        return linked_call(words, counts, masks, bases, n, v, d);
    }
    let links = Links {
        next: 0,
        other: 0,
        into: 0,
    };
    pack(0, links, 4, 0)
}

// Lays the nodes of v, each as its steps lead.
pub fn link_place(
    words: &[u64],
    counts: &[u32],
    masks: &[u16],
    bases: &[u16],
    n: usize,
    v: usize,
    linked: &mut [u64],
)
    requires { Numbered words.now counts.now masks.now bases.now n × (v < n) × (32768 ≤ length linked.old) }
    ensures { LaysTo (LinkedIs words.now counts.now masks.now bases.now v) (get_or bases.now v 0)
        (size (counts_of counts.now) (get_or masks.now v 0)) linked.old linked.new }
{
    let size = size_of(counts, masks[v]);
    for d in 0..size {
        let node = node_of(bases, v, d);
        linked[node] = linked_word(words, counts, masks, bases, n, v, d);
    }
}

// Lays the nodes of v, where it is marked.
fn link_marked(
    words: &[u64],
    counts: &[u32],
    masks: &[u16],
    bases: &[u16],
    marks: &[u8],
    v: usize,
    linked: &mut [u64],
)
    requires { Numbered words.now counts.now masks.now bases.now (length marks.now) × (v < length marks.now) × (32768 ≤ length linked.old)
        × Apart counts.now masks.now bases.now marks.now (length marks.now) × LaidAll (LinkedIs words.now counts.now masks.now bases.now) counts.now masks.now bases.now marks.now v linked.old }
    ensures { LaidAll (LinkedIs words.now counts.now masks.now bases.now) counts.now masks.now bases.now marks.now (v + 1) linked.new }
{
    if marks[v] == 0 {
        return;
    }
    link_place(words, counts, masks, bases, marks.len(), v, linked);
}

// Lays the nodes of every place that is marked, each as its steps lead.
pub fn link_all(
    words: &[u64],
    counts: &[u32],
    masks: &[u16],
    bases: &[u16],
    marks: &[u8],
    linked: &mut [u64],
)
    requires { Numbered words.now counts.now masks.now bases.now (length marks.now) × (32768 ≤ length linked.old)
        × Apart counts.now masks.now bases.now marks.now (length marks.now) }
    ensures { LaidAll (LinkedIs words.now counts.now masks.now bases.now) counts.now masks.now bases.now marks.now (length marks.now) linked.new }
{
    for v in 0..marks.len() {
        link_marked(words, counts, masks, bases, marks, v, linked);
    }
}
