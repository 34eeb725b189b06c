// The sums, differences, logic and rotations of nibbles that rows make, each with its carry.
#![tactic(auto)]

ghost use Rattle.std.specs.Prelude.{◌≡◌, ◌<◌};
ghost use Rattle.sheet.specs.Operation.Op.{Plus, PlusCF, Minus, MinusCF', And, Or, Xor, RotateLeft, RotateRight};
ghost use Rattle.alu.specs.Making.{made, nibble_of};

// A nibble, and the carry of the operation that made it.
#[derive(Clone, Copy)]
pub struct Made {
    pub value: u8,
    pub carry: bool,
}

fn nibble(total: u8) -> Made
    ensures { result ≡ nibble_of total }
{
    Made {
        value: total % 16,
        carry: 16 <= total,
    }
}

#[tactic(auto, unfolding(crate::specs::Making::made))]
pub fn plus(a: u8, b: u8, cf: bool) -> Made
    requires { (a < 16) × (b < 16) }
    ensures { result ≡ made Plus a b cf }
{
    nibble(a + b)
}

#[tactic(auto, unfolding(crate::specs::Making::made))]
pub fn plus_cf(a: u8, b: u8, cf: bool) -> Made
    requires { (a < 16) × (b < 16) }
    ensures { result ≡ made PlusCF a b cf }
{
    nibble(a + b + u8::from(cf))
}

// No borrow is carry.
#[tactic(auto, unfolding(crate::specs::Making::made))]
pub fn minus(a: u8, b: u8, cf: bool) -> Made
    requires { (a < 16) × (b < 16) }
    ensures { result ≡ made Minus a b cf }
{
    nibble(a + 16 - b)
}

#[tactic(auto, unfolding(crate::specs::Making::made))]
pub fn minus_cf(a: u8, b: u8, cf: bool) -> Made
    requires { (a < 16) × (b < 16) }
    ensures { result ≡ made MinusCF' a b cf }
{
    nibble(a + 15 + u8::from(cf) - b)
}

#[tactic(auto, unfolding(crate::specs::Making::made))]
pub fn and(a: u8, b: u8, cf: bool) -> Made
    ensures { result ≡ made And a b cf }
{
    Made {
        value: a & b,
        carry: false,
    }
}

#[tactic(auto, unfolding(crate::specs::Making::made))]
pub fn or(a: u8, b: u8, cf: bool) -> Made
    ensures { result ≡ made Or a b cf }
{
    Made {
        value: a | b,
        carry: false,
    }
}

#[tactic(auto, unfolding(crate::specs::Making::made))]
pub fn xor(a: u8, b: u8, cf: bool) -> Made
    ensures { result ≡ made Xor a b cf }
{
    Made {
        value: a ^ b,
        carry: false,
    }
}

// The carry comes in at bit 0, and bit 3 leaves.
#[tactic(auto, unfolding(crate::specs::Making::made))]
pub fn rotate_left(a: u8, cf: bool) -> Made
    requires { a < 16 }
    ensures { result ≡ made RotateLeft a 0 cf }
{
    Made {
        value: (a * 2 + u8::from(cf)) % 16,
        carry: 8 <= a,
    }
}

// The carry comes in at bit 3, and bit 0 leaves.
#[tactic(auto, unfolding(crate::specs::Making::made))]
pub fn rotate_right(a: u8, cf: bool) -> Made
    requires { a < 16 }
    ensures { result ≡ made RotateRight a 0 cf }
{
    Made {
        value: a / 2 + 8 * u8::from(cf),
        carry: a % 2 == 1,
    }
}
