// The names of the interrupt sources.
ghost use Rattle.std.specs.Prelude.{◌≡◌, ◌++◌, ◌+◌, ◌<◌, ◌≤◌, length};
ghost use Rattle.notation.specs.Names.{source_name, name_in, names_of};

use device::{Device, ends_speech};
use text::Text;

// The name of the source of a latch, at most 4 characters.
#[tactic(auto, unfolding(crate::specs::Names::source_name))]
pub fn source_name(d: Device, latch: u8) -> &'static [u8]
    ensures text { result.now ≡ source_name d latch }
    ensures upper_bound { length result.now ≤ 4 }
{
    match latch {
        5 => b"INT0",
        3 => b"TRGA",
        2 => b"TRGB",
        1 => b"TBI",
        _ if ends_speech(d) => b"SPI",
        _ => b"INT1",
    }
}

// The same after a blank, where the set has the source: at most 5 characters.
fn name_in<const N: usize>(out: &mut Text<N>, d: Device, set: u8, latch: u8)
    requires { (latch < 8) × (length out.old + 5 ≤ N) }
    ensures text { out.new ≡ out.old ++ name_in d set latch }
    ensures upper_bound { length out.new ≤ length out.old + 5 }
{
    if bits::bit_at(set, latch) {
        out.put(b' ');
        out.put_text(source_name(d, latch));
    }
}

// The names of a set's sources, each after a blank, in the order of priority: at most 25 characters.
pub fn names_of<const N: usize>(out: &mut Text<N>, d: Device, set: u8)
    requires { length out.old + 25 ≤ N }
    ensures text { out.new ≡ out.old ++ names_of d set }
    ensures upper_bound { length out.new ≤ length out.old + 25 }
{
    name_in(out, d, set, 5);
    name_in(out, d, set, 3);
    name_in(out, d, set, 2);
    name_in(out, d, set, 1);
    name_in(out, d, set, 0);
}
