// What a node of the joined graph is, and its place in the order by address.
ghost use Rattle.std.specs.Prelude.{◌≡◌, ◌+◌, ◌-◌, ◌*◌, ◌<◌, ◌==◌, length};
ghost use Rattle.laws.specs.Choice.{pick};
ghost use Rattle.routines_numbered.specs.Packed.{map_in};
ghost use Rattle.routines_joined.specs.Words.{joined_at, key_at};
ghost use Rattle.routines_joined.specs.Nodes.{IsNode};

use crate::joined::{ENTRIES, Joined};
use graph_search::Successors;
use routines_numbered::{into_of, kind_of, next_of, other_of, place_of};

// A node of the joined graph: it goes on to one or two others, or ends a routine, or is excluded.
#[derive(Clone, Copy, PartialEq, Eq)]
pub enum Node {
    GoesOn { next: usize, other: usize },
    Ends,
    Excluded,
}

// The number of the first place of the routine at an entry, 0 where it is not found.
#[tactic(auto, unfolding(routines_numbered::specs::Packed::map_in))]
fn first_place(map: &[u16], entry: usize) -> usize
    requires { (length map.now ≡ 16384) × (entry < 2048) }
    ensures { result ≡ map_in map.now (2 * entry) - 1 }
{
    (map[2 * entry] as usize).saturating_sub(1)
}

// The node of number w in the outer routine, where side is 1, or in a called one, where it is 0.
fn beside(w: usize, side: usize) -> usize
    requires { (w < 32768) × (side < 2) }
    ensures { result ≡ 2048 + (2 * w + side) }
{
    ENTRIES + (2 * w + side)
}

// The kind that ends a routine: RTI the outer one, RET a called one.
fn end_at(side: usize) -> u8
    ensures { result ≡ pick (side == 1) 2 4 }
{
    if side == 1 { 2 } else { 4 }
}

impl Joined<'_> {
    // The node x: an entry leads to the first place of its routine, and a call to its entry and to the place after it; RTI ends the outer routine, and RET a called one.
    pub fn node(&self, x: usize) -> Node
        requires { x < 2048 + 2 * self.now.numbers }
        ensures { IsNode (joined_at self.now.words.now self.now.map.now) x result }
    {
        if x < ENTRIES {
            let start = beside(first_place(self.map, x), 0);
            return Node::GoesOn {
                next: start,
                other: start,
            };
        }
        let side = (x - ENTRIES) % 2;
        let word = self.words[(x - ENTRIES) / 2];
        let kind = kind_of(word);
        let on = beside(next_of(word), side);
        if kind == 3 {
            let first = self.words[into_of(word)];
            Node::GoesOn {
                next: place_of(first) / 2,
                other: on,
            }
        } else if kind == 1 {
            Node::GoesOn {
                next: on,
                other: beside(other_of(word), side),
            }
        } else if kind == end_at(side) {
            Node::Ends
        } else {
            Node::Excluded
        }
    }

    // Where the node stands in the order by address: entries first.
    pub fn key(&self, x: usize) -> usize
        requires { x < 34816 }
        ensures { result ≡ key_at self.now.words.now x }
    {
        if x < ENTRIES {
            x
        } else {
            beside(place_of(self.words[(x - ENTRIES) / 2]), (x - ENTRIES) % 2)
        }
    }
}

impl Successors for Joined<'_> {
    ghost use Rattle.std.specs.Prelude.{◌+◌, ◌*◌};
    ghost use Rattle.routines_joined.specs.Words.{joined_at};

    ghost graph = { λ j. joined_at j.words.now j.map.now };

    ghost places = { λ j. 2048 + 2 * j.numbers };

    fn after(&self, x: usize) -> Option<(usize, usize)> {
        match self.node(x) {
            Node::GoesOn { next, other } => Some((next, other)),
            _ => None,
        }
    }
}
