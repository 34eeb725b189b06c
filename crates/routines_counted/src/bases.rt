// The first node of each place: the nodes of the places that are reached stand one after another.
ghost use Rattle.std.specs.Prelude.{◌≡◌, ◌+◌, ◌<◌, ◌≤◌, length, get_or};
ghost use Rattle.routines_counted.specs.Counting.{counts_of};
ghost use Rattle.routines_counted.specs.Bases.{Based, nodes_before};

use crate::{MOST_TURNS, size_of};

// Where the nodes of the next place begin, after those of v, which begin at total: as many on as v has, where it is marked.
fn base_after(counts: &[u32], masks: &[u16], marks: &[u8], v: usize, total: u32) -> u32
    requires { (length counts.now ≤ 16) × (v < length masks.now) × (v < length marks.now) × (length marks.now ≤ 16384) × (total ≤ 32768) × (total ≡ nodes_before (counts_of counts.now) masks.now marks.now v) }
    ensures { (result ≤ 32768 → result ≡ nodes_before (counts_of counts.now) masks.now marks.now (v + 1))
        × (32768 < result → 32768 < nodes_before (counts_of counts.now) masks.now marks.now (v + 1)) }
{
    if marks[v] == 0 {
        return total;
    }
    let size = size_of(counts, masks[v]);
    if MOST_TURNS < size {
        return size;
    }
    total + size
}

// Where the nodes of v begin, 0 where it is not marked.
fn base_of(marks: &[u8], v: usize, total: u32) -> u16
    requires { (v < length marks.now) × (total ≤ 32768) }
    ensures { (0 < get_or marks.now v 0 → result ≡ total) × (get_or marks.now v 0 ≡ 0 → result ≡ 0) }
{
    if marks[v] == 0 {
        return 0;
    }
    total as u16
}

// Lays where the nodes of each place begin. Returns how many there are in all; where they are more than 32,768, only that.
pub fn lay_bases(counts: &[u32], masks: &[u16], marks: &[u8], bases: &mut [u16]) -> u32
    requires { (length counts.now ≤ 16) × (length marks.now ≤ length masks.now) × (length marks.now ≤ length bases.old) × (length marks.now ≤ 16384) }
    ensures { Based (counts_of counts.now) masks.now marks.now bases.new result }
{
    let mut total = 0;
    for v in 0..marks.len() {
        bases[v] = base_of(marks, v, total);
        total = base_after(counts, masks, marks, v, total);
        if MOST_TURNS < total {
            return total;
        }
    }
    total
}
