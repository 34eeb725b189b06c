// Which counts weigh at each place: a mask, with a bit for each count.
ghost use Rattle.std.specs.Prelude.{◌≡◌, ◌+◌, ◌*◌, ◌<◌, ◌≤◌, length, get_or};
ghost use Rattle.laws.specs.Choice.{pick};
ghost use Rattle.graph_search.specs.Marks.{Marked};
ghost use Rattle.routines_joined.specs.Ranks.{Tells};
ghost use Rattle.routines_known.specs.Marking.{Sized};
ghost use Rattle.routines_counted.specs.Overs.{steps_in, Searches};
ghost use Rattle.routines_counted.specs.Masking.{LeadsTo, WeighsBy, WeighsIn, Halves, BitsTo};

use crate::reached::reach_behind;
use crate::seeded::mark_ahead;
use crate::steps::Steps;
use graph_search::Successors;

// Whether a step from v leads to what is marked.
fn leads_ahead(steps: &Steps, ahead: &[u8], v: usize) -> bool
    requires { (length ahead.now ≡ steps.now.numbers) × (v < length ahead.now) }
    ensures { Tells (LeadsTo (steps_in steps.now.words.now) ahead.now v) result }
{
    match steps.after(v) {
        Some((next, other)) => ahead[next] != 0 || ahead[other] != 0,
        None => false,
    }
}

// Whether a count weighs at v, where behind marks what comes after its address and ahead what comes before.
fn weighs_at(steps: &Steps, behind: &[u8], ahead: &[u8], v: usize) -> bool
    requires { (length ahead.now ≡ steps.now.numbers) × (v < length ahead.now) × (length behind.now ≡ length ahead.now) }
    ensures { Tells (WeighsBy (steps_in steps.now.words.now) behind.now ahead.now v) result }
{
    behind[v] != 0 && leads_ahead(steps, ahead, v)
}

// The mask with one bit more before the others.
fn with_bit(mask: u16, bit: bool) -> u16
    requires { mask < 32768 }
    ensures { result ≡ 2 * mask + pick bit 1 0 }
{
    if bit { 2 * mask + 1 } else { 2 * mask }
}

// Gives the masks one bit more: whether the count weighs.
pub fn weigh_count(steps: &Steps, behind: &[u8], ahead: &[u8], masks: &mut [u16])
    requires { (length ahead.now ≡ steps.now.numbers) × (length behind.now ≡ length ahead.now) × (length ahead.now ≤ length masks.old) × Halves masks.old }
    ensures { BitsTo (WeighsBy (steps_in steps.now.words.now) behind.now ahead.now) masks.old (length ahead.now) masks.new }
{
    for v in 0..ahead.len() {
        masks[v] = with_bit(masks[v], weighs_at(steps, behind, ahead, v));
    }
}

// Gives the masks one bit more: whether the count at the address weighs. The arrays after reached are to work in.
pub fn weigh_at(
    steps: &Steps,
    at: usize,
    reached: &[u8],
    behind: &mut [u8],
    ahead: &mut [u8],
    queue: &mut [u16],
    seeded: &mut [u64],
    first: &mut [u32],
    link: &mut [u32],
    masks: &mut [u16],
)
    requires { (length ahead.old ≡ steps.now.numbers) × Searches reached.now ahead.old queue.old behind.old × (0 < length ahead.old) × (length seeded.old ≡ 16384)
        × (length ahead.old ≤ length masks.old) × Halves masks.old }
    ensures { BitsTo (WeighsIn steps.now.words.now reached.now at) masks.old (length ahead.old) masks.new }
{
    reach_behind(steps, reached, at, ahead, queue, behind);
    first.fill(0);
    mark_ahead(steps, at, seeded, first, link, queue, ahead);
    weigh_count(steps, behind, ahead, masks);
}
