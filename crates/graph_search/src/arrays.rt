// A graph laid in arrays, a place an index.
ghost use Rattle.std.specs.Prelude.{length};
ghost use Rattle.graph.specs.Laid.{Laid};

use crate::Successors;

#[derive(Clone, Copy)]
pub struct Arrays<'a> {
    pub kind: &'a [u8],
    pub next: &'a [u16],
    pub other: &'a [u16],
    ghost laid: { Laid kind.now next.now other.now (length kind.now) },
}

impl Successors for Arrays<'_> {
    ghost use Rattle.std.specs.Prelude.{length};
    ghost use Rattle.graph.specs.Laid.{graph_of};

    ghost graph = { λ a. graph_of a.kind.now a.next.now a.other.now };

    ghost places = { λ a. length a.kind.now };

    #[tactic(auto, unfolding(graph::specs::Laid::graph_of))]
    fn after(&self, v: usize) -> Option<(usize, usize)> {
        if self.kind[v] == 1 {
            Some((self.next[v] as usize, self.other[v] as usize))
        } else {
            None
        }
    }
}
