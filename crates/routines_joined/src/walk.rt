// A walk that ranks the nodes that are reached from a node.
ghost use Rattle.std.specs.Prelude.{◌≡◌, ◌+◌, ◌*◌, ◌<◌, length};

use crate::components::{Spot, begin, leave, raise};
use crate::joined::Joined;
use graph_search::Successors;

impl Joined<'_> {
    // One move: tries a node that follows the walk's, begins it or learns how far back it reaches; or leaves a node whose successors were tried.
    fn walk_on(
        &self,
        rank: &mut [u16],
        number: &mut [u16],
        below: &mut [u16],
        back: &mut [u16],
        stage: &mut [u8],
        spot: Spot,
    ) -> Spot
        requires { (length rank.old ≡ 2048 + 2 * self.now.numbers) × (length number.old ≡ length rank.old) × (length below.old ≡ length rank.old) × (length back.old ≡ length rank.old)
            × (length stage.old ≡ length rank.old) × (spot.v < length rank.old) × (spot.top < 65536) }
        ensures { result.top < 65536 }
    {
        let v = spot.v;
        let Some((next, other)) = self.after(v) else {
            return leave(rank, number, below, back, spot);
        };
        let w = match stage[v] {
            0 => next,
            1 => other,
            _ => return leave(rank, number, below, back, spot),
        };
        stage[v] += 1;
        let high = rank[w];
        if high == 0 {
            return begin(rank, number, back, spot, w);
        }
        raise(rank, v, high);
        spot
    }

    // Ranks the nodes that are reached from s: a hint, which never_rises tests. rank and stage are of zeros, the others to work in.
    pub fn rank_nodes(
        &self,
        s: usize,
        rank: &mut [u16],
        number: &mut [u16],
        below: &mut [u16],
        back: &mut [u16],
        stage: &mut [u8],
    )
        requires { (length rank.old ≡ 2048 + 2 * self.now.numbers) × (length number.old ≡ length rank.old) × (length below.old ≡ length rank.old) × (length back.old ≡ length rank.old)
            × (length stage.old ≡ length rank.old) × (s < length rank.old) }
    {
        let n = rank.len();
        rank[s] = 65535;
        number[s] = 65535;
        back[s] = n as u16;
        let mut spot = Spot {
            v: s,
            top: n,
            index: 65535,
            complete: 0,
        };
        for _ in 0..4 * n {
            if n <= spot.v {
                return;
            }
            spot = self.walk_on(rank, number, below, back, stage, spot);
        }
    }
}
