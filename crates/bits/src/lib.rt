// Bits of small numbers, each named by its weight, the highest of six by leading zeros, and shifts and masks that take bits out.
#![tactic(auto)]

ghost use Rattle.std.specs.Prelude.{◌≡◌, ◌+◌, ◌/◌, ◌%◌, ◌^◌, ◌<◌};
ghost use Rattle.bits.specs.Bits.{has_bit, with_bit, without_bit, highest_bit, OneOfSix};

pub fn has_bit(n: u8, w: u8) -> bool
    requires { 0 < w }
    ensures { result ≡ has_bit n w }
{
    n / w % 2 == 1
}

pub fn with_bit(n: u8, w: u8) -> u8
    requires { (0 < w) × (n + w < 256) }
    ensures { result ≡ with_bit n w }
{
    if has_bit(n, w) { n } else { n + w }
}

pub fn without_bit(n: u8, w: u8) -> u8
    requires { 0 < w }
    ensures { result ≡ without_bit n w }
{
    if has_bit(n, w) { n - w } else { n }
}

// The number of the highest bit that is set of six, 5 to 0.
#[tactic(auto, using(crate::proofs::Laws::by_zeros_lem, crate::proofs::Laws::zeros_below))]
pub fn highest_bit(allowed: u8) -> Option<u8>
    requires { allowed < 64 }
    ensures { OneOfSix result (highest_bit allowed) }
{
    match allowed.leading_zeros() {
        8 => None,
        zeros => Some(7 - zeros as u8),
    }
}

// The weight of bit k.
pub fn weight(k: u8) -> u8
    requires { k < 8 }
    ensures { result ≡ 2 ^ k }
{
    1 << k
}

// Bit k.
pub fn bit_at(n: u8, k: u8) -> bool
    requires { k < 8 }
    ensures { result ≡ has_bit n (2 ^ k) }
{
    n >> k & 1 == 1
}

// The four bits from bit k up.
pub fn nibble_at(n: u16, k: u16) -> u8
    requires { k < 16 }
    ensures { result ≡ n / 2 ^ k % 16 }
{
    (n >> k & 15) as u8
}
