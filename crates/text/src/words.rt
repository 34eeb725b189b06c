// The words that a program is given: an address, and a number of lines.
ghost use Rattle.std.specs.Prelude.{◌≡◌, ◌<◌, ◌≤◌, IfSome};
ghost use Rattle.text.specs.Hexadecimal.{digit_to};
ghost use Rattle.text.specs.Words.{number_up_to, number_of, word_address};

use crate::hexadecimal::digit;
use numbers::ADDRESSES;

// The value of a digit to a base up to 16.
fn digit_to(base: u64, c: u8) -> Option<u64>
    requires { base ≤ 16 }
    ensures { result ≡ digit_to base c }
{
    let d = u64::from(digit(c)?);
    (d < base).then_some(d)
}

// A number to a base up to 16; and the greatest for each one above it.
#[tactic(auto, unfolding(crate::specs::Words::number_up_to))]
pub fn number_up_to(most: u64, base: u64, word: &[u8]) -> Option<u64>
    requires { (0 < base) × (base ≤ 16) × (most ≤ 1000000000000000000) }
    ensures value { result ≡ number_up_to most base word.now }
    ensures upper_bound { IfSome result (λ v. v ≤ most) }
{
    if word.is_empty() {
        return None;
    }
    let mut value = 0;
    for c in word {
        value = most.min(value * base + digit_to(base, *c)?);
    }
    Some(value)
}

// A number to a base up to 16; and 8192 for each one above it, since no image has more addresses or lines.
pub fn read_number(word: &[u8], base: u32) -> Option<u32>
    requires { (0 < base) × (base ≤ 16) }
    ensures value { result ≡ number_of base word.now }
    ensures upper_bound { IfSome result (λ v. v ≤ 8192) }
{
    let value = number_up_to(u64::from(ADDRESSES), u64::from(base), word)?;
    Some(value as u32)
}

pub fn read_address(word: &[u8]) -> Option<u16>
    ensures { result ≡ word_address word.now }
{
    if word.len() > 4 {
        return None;
    }
    let value = read_number(word, 16)?;
    (value < u32::from(ADDRESSES)).then_some(value as u16)
}
