// The moves of a walk that ranks nodes: those that reach one another get the same rank, and along an edge the rank does not rise.
// That is not promised, and whoever relies on it tests it: what is proved here is that the walk stays among the nodes.
// A node that is begun has a high rank, falling from 65,535, and in the end the number of its component, in the order in which they are complete.
// A node of a complete component gives its high rank back, so that for up to 65,535 nodes no rank means two things.
ghost use Rattle.std.specs.Prelude.{◌≡◌, ◌<◌, ◌≤◌, length};
ghost use Rattle.graph.specs.Laid.{most_nodes};

use std::num::{wrapping_add_u16, wrapping_sub_u16};

// The node v that the walk is at; the top of the stack of nodes that wait for their component; the rank of the last node that was begun; and
// how many components are complete. A node that is not one of the nodes stands for none.
#[derive(Clone, Copy)]
pub struct Spot {
    pub v: usize,
    pub top: usize,
    pub index: u16,
    pub complete: u16,
}

// The walk goes on from the node that it is at to w, which is not begun.
pub fn begin(rank: &mut [u16], number: &mut [u16], back: &mut [u16], spot: Spot, w: usize) -> Spot
    requires { (length rank.old ≤ most_nodes) × (length number.old ≡ length rank.old) × (length back.old ≡ length rank.old) × (w < length rank.old) × (spot.v < length rank.old) × (spot.top < 65536) }
    ensures { result.top < 65536 }
{
    let index = wrapping_sub_u16(spot.index, 1);
    rank[w] = index;
    number[w] = index;
    back[w] = spot.v as u16;
    Spot {
        v: w,
        index,
        ..spot
    }
}

// Gives v at least this rank, if it is a node.
pub fn raise(rank: &mut [u16], v: usize, to: u16)
    requires { length rank.old ≤ most_nodes }
{
    if v < rank.len() {
        rank[v] = rank[v].max(to);
    }
}

// Leaves v, whose successors were tried. Where it reaches back to a node begun before it, it waits on the stack; else those that wait above it are of its component.
pub fn leave(rank: &mut [u16], number: &[u16], below: &mut [u16], back: &[u16], spot: Spot) -> Spot
    requires { (length rank.old ≤ most_nodes) × (length number.now ≡ length rank.old) × (length below.old ≡ length rank.old)
        × (length back.now ≡ length rank.old) × (spot.v < length rank.old) × (spot.top < 65536) }
    ensures { result.top < 65536 }
{
    let Spot { v, top, .. } = spot;
    let to = back[v] as usize;
    let high = rank[v];
    if high != number[v] {
        below[v] = top as u16;
        raise(rank, to, high);
        return Spot {
            v: to,
            top: v,
            ..spot
        };
    }
    let index = wrapping_add_u16(spot.index, 1);
    let complete = wrapping_add_u16(spot.complete, 1);
    if top < rank.len() && rank[top] <= high {
        rank[top] = complete;
        return Spot {
            top: below[top] as usize,
            index,
            ..spot
        };
    }
    rank[v] = complete;
    Spot {
        v: to,
        top,
        index,
        complete,
    }
}
