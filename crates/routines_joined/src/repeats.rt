// The nodes that are excluded, and those that come back to themselves: the lowest of each, by key.
ghost use Rattle.std.specs.Prelude.{◌≡◌, true, ℕ, ◌+◌, ◌*◌, ◌<◌, length, slice_index, Some};
ghost use Rattle.graph.specs.Graph.{ReachPlus, Excluded};
ghost use Rattle.graph_search.specs.Marks.{Places};
ghost use Rattle.routines_joined.specs.Ranks.{Tells, After, NeverRises};
ghost use Rattle.routines_joined.specs.Words.{joined_at, LowerKey, LowestKey};
ghost use Rattle.routines_joined.specs.Refused.{Lists};
ghost use Rattle.routines_joined.specs.Suspects.{Ruled, RuledAll, Better, Suspect};

use crate::joined::Joined;
use crate::node::Node;
use graph_search::{Successors, reach};

impl Joined<'_> {
    // The key of x where x is excluded and that is the lower, else the lowest so far.
    fn lower_excluded(&self, low: Option<usize>, x: usize) -> Option<usize>
        requires { x < 2048 + 2 * self.now.numbers }
        ensures { LowerKey self.now.words.now (Excluded (joined_at self.now.words.now self.now.map.now)) low x result }
    {
        if self.node(x) != Node::Excluded {
            return low;
        }
        let key = self.key(x);
        match low {
            Some(lowest) if lowest <= key => low,
            _ => Some(key),
        }
    }

    // The lowest key of the queue's excluded nodes.
    pub fn lowest_excluded(&self, queue: &[u16]) -> Option<usize>
        requires { Places queue.now (2048 + 2 * self.now.numbers) }
        ensures { LowestKey self.now.words.now (Excluded (joined_at self.now.words.now self.now.map.now)) queue.now (length queue.now) result }
    {
        let mut low = None;
        for &x in queue {
            low = self.lower_excluded(low, x as usize);
        }
        low
    }

    // Whether x is reached from itself in one or more steps.
    fn comes_back(&self, x: usize, marks: &mut [u8], queue: &mut [u16]) -> bool
        requires { (length marks.old ≡ 2048 + 2 * self.now.numbers) × (length queue.old ≡ length marks.old) × (x < length marks.old) }
        ensures { Tells (ReachPlus (joined_at self.now.words.now self.now.map.now) x x) result }
    {
        let Some((next, other)) = self.after(x) else {
            return false;
        };
        reach(self, next, marks, queue);
        if marks[x] != 0 {
            return true;
        }
        reach(self, other, marks, queue);
        marks[x] != 0
    }

    // The higher rank of those that follow x, or 0 where none does.
    fn highest_after(&self, rank: &[u16], x: usize) -> u16
        requires { (length rank.now ≡ 2048 + 2 * self.now.numbers) × (x < length rank.now) }
        ensures { After (joined_at self.now.words.now self.now.map.now) rank.now x result }
    {
        match self.after(x) {
            Some((next, other)) => rank[next].max(rank[other]),
            None => 0,
        }
    }

    // Whether no edge of the queue's nodes leads to a higher rank.
    fn never_rises(&self, rank: &[u16], queue: &[u16]) -> bool
        requires { (length rank.now ≡ 2048 + 2 * self.now.numbers) × Places queue.now (length rank.now) }
        ensures { result ≡ true → NeverRises (joined_at self.now.words.now self.now.map.now) rank.now queue.now (length queue.now) }
    {
        for &x in queue {
            if rank[x as usize] < self.highest_after(rank, x as usize) {
                return false;
            }
        }
        true
    }

    // Whether x may come back to itself: not where no rank rises along an edge and x has a higher rank than those that follow it.
    fn suspect(&self, rank: &[u16], steady: bool, x: usize) -> bool
        requires { (length rank.now ≡ 2048 + 2 * self.now.numbers) × (x < length rank.now) × (steady ≡ true → Ruled (joined_at self.now.words.now self.now.map.now) rank.now x) }
        ensures { ReachPlus (joined_at self.now.words.now self.now.map.now) x x → result ≡ true }
    {
        !steady || rank[x] <= self.highest_after(rank, x)
    }

    // x where its key is from floor on and below that of the best so far, and the ranks do not rule x out; else the best so far.
    fn better(
        &self,
        rank: &[u16],
        steady: bool,
        floor: usize,
        best: Option<usize>,
        x: usize,
    ) -> Option<usize>
        requires { (length rank.now ≡ 2048 + 2 * self.now.numbers) × (x < length rank.now) × (steady ≡ true → Ruled (joined_at self.now.words.now self.now.map.now) rank.now x)
            × ((y : ℕ) → best ≡ Some y → y < 34816) }
        ensures { Better self.now.words.now (λ y. ReachPlus (joined_at self.now.words.now self.now.map.now) y y) floor best x result }
    {
        let key = self.key(x);
        if key < floor {
            return best;
        }
        if let Some(y) = best
            && self.key(y) <= key
        {
            return best;
        }
        if self.suspect(rank, steady, x) {
            Some(x)
        } else {
            best
        }
    }

    // The node of the queue with the lowest key, from a key on, that may come back to itself.
    fn next_suspect(&self, rank: &[u16], queue: &[u16], steady: bool, floor: usize) -> Option<usize>
        requires { (length rank.now ≡ 2048 + 2 * self.now.numbers) × Places queue.now (length rank.now)
            × (steady ≡ true → RuledAll (joined_at self.now.words.now self.now.map.now) rank.now queue.now (length queue.now)) }
        ensures { Suspect self.now.words.now (λ y. ReachPlus (joined_at self.now.words.now self.now.map.now) y y) queue.now (length queue.now) floor result }
    {
        let mut best = None;
        for &x in queue {
            best = self.better(rank, steady, floor, best, x as usize);
        }
        best
    }

    // The lowest key of the queue's nodes that come back to themselves. What the ranks do not rule out is tried, the lowest first: one try where they are right. marks and line are to work in.
    pub fn lowest_loop(
        &self,
        rank: &[u16],
        queue: &[u16],
        steady: bool,
        marks: &mut [u8],
        line: &mut [u16],
    ) -> Option<usize>
        requires { (length rank.now ≡ 2048 + 2 * self.now.numbers) × Places queue.now (length rank.now)
            × (steady ≡ true → RuledAll (joined_at self.now.words.now self.now.map.now) rank.now queue.now (length queue.now))
            × (length marks.old ≡ length rank.now) × (length line.old ≡ length marks.old) }
        ensures { LowestKey self.now.words.now (λ y. ReachPlus (joined_at self.now.words.now self.now.map.now) y y) queue.now (length queue.now) result }
    {
        let mut floor = 0;
        while let Some(x) = self.next_suspect(rank, queue, steady, floor) {
            let key = self.key(x);
            if self.comes_back(x, marks, line) {
                return Some(key);
            }
            floor = key + 1;
        }
        None
    }

    // The same, where the queue lists what is reached from a node.
    pub fn lowest_repetition(
        &self,
        rank: &[u16],
        queue: &[u16],
        marks: &mut [u8],
        line: &mut [u16],
    ) -> Option<usize>
        requires { (length rank.now ≡ 2048 + 2 * self.now.numbers) × Places queue.now (length rank.now)
            × Lists self.now.words.now self.now.map.now queue.now (length queue.now)
            × (length marks.old ≡ length rank.now) × (length line.old ≡ length marks.old) }
        ensures { LowestKey self.now.words.now (λ y. ReachPlus (joined_at self.now.words.now self.now.map.now) y y) queue.now (length queue.now) result }
    {
        let steady = self.never_rises(rank, queue);
        self.lowest_loop(rank, queue, steady, marks, line)
    }
}
