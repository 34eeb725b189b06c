// The source that is due, by its latch and by the number that the record keeps.
#![tactic(auto)]

ghost use Rattle.std.specs.Prelude.{◌≡◌, ◌<◌};
ghost use Rattle.bits.specs.Bits.{OneOfSix};
ghost use Rattle.due.specs.Due.{due_source, due_number, latch_of_source};

// By its latch: a source's number in the record. IL4 is no source's.
const NUMBERS: [u8; 6] = [5, 4, 3, 2, 0, 1];

// The latch of the first source that is latched and allowed. The pattern has IL5, MASK2 at IL3, MASK1 at IL2 and IL1, MASK0 at IL0.
pub fn due_source(il: u8, mask: u8) -> Option<u8>
    ensures { OneOfSix result (due_source il mask) }
{
    let latches = il % 64;
    let bits = mask % 16;
    let pattern = (bits & 6) << 1 | bits & 3 | 32;
    bits::highest_bit(latches & pattern)
}

// The number of the first source that is due, 0 where none is.
#[tactic(auto, unfolding(crate::specs::Due::due_number))]
pub fn due_number(il: u8, mask: u8) -> u8
    ensures { result ≡ due_number il mask }
{
    match due_source(il, mask) {
        Some(latch) => NUMBERS[latch as usize],
        None => 0,
    }
}

// The latch of a source by its number; 0 is none.
pub fn latch_of(due: u8) -> Option<u8>
    requires { due < 6 }
    ensures { OneOfSix result (latch_of_source due) }
{
    match due {
        1 => Some(5),
        2 => Some(3),
        3 => Some(2),
        4 => Some(1),
        5 => Some(0),
        _ => None,
    }
}
