// The nodes of a flow that is unrolled, left without the ways that lead to no end.
ghost use Rattle.std.specs.Prelude.{◌≡◌, true, false, ◌+◌, ◌<◌, ◌≤◌, length, get_or};
ghost use Rattle.routines_numbered.specs.Packed.{nodes_in};
ghost use Rattle.counts.specs.Radix.{size};
ghost use Rattle.counts.specs.Laying.{led_to, first_node, Forks};
ghost use Rattle.routines_counted.specs.Counting.{counts_of};
ghost use Rattle.routines_counted.specs.Nodes.{numbering_of, Numbered, Asked, Lives, HasEnd, ForkLinks, LinksFit, Relinked, PrunedIs, LaysTo, Apart, LaidAll};

use crate::nodes::{first_node, led_to, node_of, node_to};
use crate::{MOST_TURNS, size_of};
use routines_numbered::{Links, cost_of, into_of, kind_of, next_of, other_of, pack, place_of};

// Whether an end is reached from the node to which a step leads.
fn lives_at(lives: &[u8], node: u32) -> bool
    requires { 32768 ≤ length lives.now }
    ensures { (result ≡ true → Lives lives.now node) × (result ≡ false → Lives lives.now node → ⊥) }
{
    if MOST_TURNS <= node {
        return false;
    }
    lives[node as usize] != 0
}

// Both ways of a fork, or twice the one that leads to an end.
fn fork_links(lives: &[u8], a: u32, b: u32) -> Links
    requires { 32768 ≤ length lives.now }
    ensures { ForkLinks lives.now a b result × LinksFit result }
{
    if lives_at(lives, a) {
        if lives_at(lives, b) {
            return Links {
                next: a as usize,
                other: b as usize,
                into: 0,
            };
        }
        return Links {
            next: a as usize,
            other: a as usize,
            into: 0,
        };
    }
    if lives_at(lives, b) {
        return Links {
            next: b as usize,
            other: b as usize,
            into: 0,
        };
    }
    Links {
        next: 0,
        other: 0,
        into: 0,
    }
}

// The node of a fork v with the numbers d.
fn pruned_fork(
    words: &[u64],
    counts: &[u32],
    masks: &[u16],
    bases: &[u16],
    lives: &[u8],
    n: usize,
    v: usize,
    d: u32,
) -> Links
    requires { Asked words.now counts.now masks.now bases.now n v d × (32768 ≤ length lives.now) }
    ensures { Forks (numbering_of words.now counts.now masks.now bases.now) (HasEnd lives.now) v d
        (nodes_in words.now v).next (nodes_in words.now v).other result.next result.other × LinksFit result }
{
    let word = words[v];
    let a = node_to(words, counts, masks, bases, v, d, next_of(word));
    let b = node_to(words, counts, masks, bases, v, d, other_of(word));
    fork_links(lives, a, b)
}

// The node of a call v with the numbers d: where it goes on, whatever is known of SF then.
fn pruned_call(
    words: &[u64],
    counts: &[u32],
    masks: &[u16],
    bases: &[u16],
    n: usize,
    v: usize,
    d: u32,
) -> Links
    requires { Asked words.now counts.now masks.now bases.now n v d }
    ensures { (result.next ≡ led_to (numbering_of words.now counts.now masks.now bases.now) v d (nodes_in words.now v).next) × (result.other ≡ result.next)
        × (result.into ≡ first_node (numbering_of words.now counts.now masks.now bases.now) (nodes_in words.now v).into) × LinksFit result }
{
    let word = words[v];
    let on = led_to(words, counts, masks, bases, v, d, next_of(word));
    Links {
        next: on,
        other: on,
        into: first_node(words, counts, masks, bases, into_of(word)),
    }
}

// The word of v with these links.
fn with_links(word: u64, links: Links) -> u64
    requires { LinksFit links }
    ensures { Relinked word links result }
{
    pack(place_of(word), links, kind_of(word), cost_of(word))
}

// The word of the node of v with the numbers d.
pub fn pruned_word(
    words: &[u64],
    counts: &[u32],
    masks: &[u16],
    bases: &[u16],
    lives: &[u8],
    n: usize,
    v: usize,
    d: u32,
) -> u64
    requires { Asked words.now counts.now masks.now bases.now n v d × (32768 ≤ length lives.now) }
    ensures { PrunedIs words.now counts.now masks.now bases.now lives.now v d result }
{
    let word = words[v];
    let kind = kind_of(word);
    if kind == 1 {
        let links = pruned_fork(words, counts, masks, bases, lives, n, v, d);
        return with_links(word, links);
    }
    if kind == 3 {
        let links = pruned_call(words, counts, masks, bases, n, v, d);
        return with_links(word, links);
    }
    let links = Links {
        next: 0,
        other: 0,
        into: 0,
    };
    with_links(word, links)
}

// Lays the nodes of v, left without the ways that lead to no end.
fn prune_place(
    words: &[u64],
    counts: &[u32],
    masks: &[u16],
    bases: &[u16],
    lives: &[u8],
    n: usize,
    v: usize,
    pruned: &mut [u64],
)
    requires { Numbered words.now counts.now masks.now bases.now n × (v < n) × (32768 ≤ length lives.now) × (32768 ≤ length pruned.old) }
    ensures { LaysTo (PrunedIs words.now counts.now masks.now bases.now lives.now v) (get_or bases.now v 0)
        (size (counts_of counts.now) (get_or masks.now v 0)) pruned.old pruned.new }
{
    let size = size_of(counts, masks[v]);
    for d in 0..size {
        let node = node_of(bases, v, d);
        pruned[node] = pruned_word(words, counts, masks, bases, lives, n, v, d);
    }
}

// Lays the nodes of v, where it is marked.
fn prune_marked(
    words: &[u64],
    counts: &[u32],
    masks: &[u16],
    bases: &[u16],
    marks: &[u8],
    lives: &[u8],
    v: usize,
    pruned: &mut [u64],
)
    requires { Numbered words.now counts.now masks.now bases.now (length marks.now) × (v < length marks.now) × (32768 ≤ length lives.now) × (32768 ≤ length pruned.old)
        × Apart counts.now masks.now bases.now marks.now (length marks.now)
        × LaidAll (PrunedIs words.now counts.now masks.now bases.now lives.now) counts.now masks.now bases.now marks.now v pruned.old }
    ensures { LaidAll (PrunedIs words.now counts.now masks.now bases.now lives.now) counts.now masks.now bases.now
        marks.now (v + 1) pruned.new }
{
    if marks[v] == 0 {
        return;
    }
    prune_place(words, counts, masks, bases, lives, marks.len(), v, pruned);
}

// Lays the nodes of every place that is marked, left without the ways that lead to no end.
pub fn prune_all(
    words: &[u64],
    counts: &[u32],
    masks: &[u16],
    bases: &[u16],
    marks: &[u8],
    lives: &[u8],
    pruned: &mut [u64],
)
    requires { Numbered words.now counts.now masks.now bases.now (length marks.now) × (32768 ≤ length lives.now) × (32768 ≤ length pruned.old)
        × Apart counts.now masks.now bases.now marks.now (length marks.now) }
    ensures { LaidAll (PrunedIs words.now counts.now masks.now bases.now lives.now) counts.now masks.now bases.now
        marks.now (length marks.now) pruned.new }
{
    for v in 0..marks.len() {
        prune_marked(words, counts, masks, bases, marks, lives, v, pruned);
    }
}
