// The places that are reached from a place of a graph, and the lowest of them that is excluded.
#![tactic(auto)]

pub mod arrays;

ghost use Rattle.std.specs.Prelude.{◌≡◌, ℕ, ◌<◌, ◌≤◌, length};
ghost use Rattle.graph.specs.Laid.{most_nodes};
ghost use Rattle.graph.specs.Graph.{Graph, Edge};
ghost use Rattle.graph_search.specs.Marks.{Marked, Blank, Room, Grown, Places, Listed};
ghost use Rattle.graph_search.specs.Search.{Follows, Visited, Reached};
ghost use Rattle.graph_search.specs.Lowest.{Outside, Lower, Lowest};

// A graph that tells what follows each of its places.
pub trait Successors {
    ghost graph: { Self → Graph };

    ghost places: { Self → ℕ };

    // The two places that follow v, if it goes on; the same twice where only one does.
    fn after(&self, v: usize) -> Option<(usize, usize)>
        requires { v < places self.now }
        ensures { Follows (graph self.now) (places self.now) v result };
}

pub fn clear(marks: &mut [u8])
    ensures { Blank marks.new }
{
    marks.fill(0);
}

// Marks w and puts it at the queue's end, unless it is marked already. Returns how many the queue holds.
pub fn mark(marks: &mut [u8], queue: &mut [u16], count: usize, w: usize) -> usize
    requires { Room marks.old queue.old count × (w < length marks.old) }
    ensures { Grown (λ x. x ≡ w) marks.old queue.old count marks.new queue.new result × Marked marks.new w }
{
    if marks[w] != 0 {
        return count;
    }
    marks[w] = 1;
    queue[count] = w as u16;
    count + 1
}

// Marks the successors of v.
fn visit<G: Successors>(
    graph: &G,
    marks: &mut [u8],
    queue: &mut [u16],
    count: usize,
    v: usize,
) -> usize
    requires { (G.places graph.now ≡ length marks.old) × Room marks.old queue.old count × (v < length marks.old) }
    ensures { Grown (Edge (G.graph graph.now) v) marks.old queue.old count marks.new queue.new result
        × Visited (G.graph graph.now) v marks.new }
{
    let Some((next, other)) = graph.after(v) else {
        return count;
    };
    let more = mark(marks, queue, count, next);
    mark(marks, queue, more, other)
}

// Marks exactly the places that are reached from s, and lists them in the queue. Returns how many they are.
pub fn reach<G: Successors>(graph: &G, s: usize, marks: &mut [u8], queue: &mut [u16]) -> usize
    requires { (G.places graph.now ≡ length marks.old) × (length marks.old ≤ most_nodes) × (length queue.old ≡ length marks.old) × (s < length marks.old) }
    ensures { Reached (G.graph graph.now) s marks.new × Listed marks.new queue.new result }
{
    clear(marks);
    let mut count = mark(marks, queue, 0, s);
    let mut head = 0;
    while head < count {
        let v = queue[head] as usize;
        count = visit(graph, marks, queue, count, v);
        head += 1;
    }
    count
}

// v where it is excluded and lower than the lowest so far.
fn lower(kind: &[u8], low: Option<usize>, v: usize) -> Option<usize>
    requires { v < length kind.now }
    ensures { Lower (Outside kind.now) low v result }
{
    if matches!(kind[v], 1 | 2) {
        return low;
    }
    match low {
        Some(lowest) if lowest <= v => low,
        _ => Some(v),
    }
}

// The lowest excluded place of the queue.
pub fn lowest(kind: &[u8], queue: &[u16]) -> Option<usize>
    requires { Places queue.now (length kind.now) }
    ensures { Lowest (Outside kind.now) queue.now (length queue.now) result }
{
    let mut low = None;
    for &v in queue {
        low = lower(kind, low, v as usize);
    }
    low
}
