// Characters, at most N of them, to which more are added at the end: numbers, words and blanks.
ghost use Rattle.std.specs.Prelude.{◌≡◌, [], ◌∷◌, ◌++◌, ◌+◌, ◌-◌, ◌<◌, ◌≤◌, length};
ghost use Rattle.text.specs.Digits.{in_base, places_of};
ghost use Rattle.text.specs.Digits.{digit as digit_of, decimal as decimalOf, blanks as blanksOf};

use std::marker::Model;

const DIGITS: [u8; 16] = *b"0123456789ABCDEF";

#[derive(Drop)]
pub struct Text<const N: usize> {
    chars: [u8; N],
    len: usize,
}

// Clauses see the characters so far.
impl<const N: usize> Model for Text<N> {
    ghost use Rattle.std.specs.Prelude.{ℕ, ◌≤◌, List, take};

    ghost Value = { List ℕ };

    ghost view = { λ t. take t.len t.chars };

    ghost invariant = { λ t. t.len ≤ N };
}

pub(crate) fn digit(d: u32) -> u8
    requires { d < 16 }
    ensures { result ≡ digit_of d }
{
    DIGITS[d as usize]
}

// How many decimal digits v has.
#[tactic(auto, using(crate::proofs::digits::Numbers::places_more, crate::proofs::digits::Numbers::places_one))]
pub fn places(v: u64) -> u64
    ensures value { result ≡ places_of v }
    ensures upper_bound { result ≤ v + 1 }
{
    if v < 10 { 1 } else { 1 + places(v / 10) }
}

impl<const N: usize> Text<N> {
    pub fn new() -> Self
        ensures { result ≡ [] }
    {
        Text {
            chars: [0; N],
            len: 0,
        }
    }

    pub fn len(&self) -> usize
        ensures value { result ≡ length self.now }
        ensures room { result ≤ N }
    {
        self.len
    }

    pub fn as_slice(&self) -> &[u8]
        ensures { result.now ≡ self.now }
    {
        &self.chars[..self.len]
    }

    pub fn clear(&mut self)
        ensures { self.new ≡ [] }
    {
        self.len = 0;
    }

    pub fn put(&mut self, c: u8)
        requires { length self.old < N }
        ensures text { self.new ≡ self.old ++ c ∷ [] }
        ensures size { length self.new ≡ length self.old + 1 }
    {
        self.chars[self.len] = c;
        self.len += 1;
    }

    pub fn put_text(&mut self, text: &[u8])
        requires { length self.old + length text.now ≤ N }
        ensures text { self.new ≡ self.old ++ text.now }
        ensures size { length self.new ≡ length self.old + length text.now }
    {
        let end = self.len + text.len();
        let room = &mut self.chars[..];
        room[self.len..end].copy_from_slice(text);
        self.len = end;
    }

    pub fn blanks(&mut self, n: usize)
        requires { length self.old + n ≤ N }
        ensures text { self.new ≡ self.old ++ blanksOf n }
        ensures size { length self.new ≡ length self.old + n }
    {
        let end = self.len + n;
        let room = &mut self.chars[..];
        room[self.len..end].fill(b' ');
        self.len = end;
    }

    // Blanks up to a length.
    pub fn fill_to(&mut self, len: usize)
        requires { (length self.old ≤ len) × (len ≤ N) }
        ensures text { self.new ≡ self.old ++ blanksOf (len - length self.old) }
        ensures size { length self.new ≡ len }
    {
        self.blanks(len - self.len);
    }

    // The last places digits of v. In 32 bits: a division in 64 takes some processors twice as long.
    pub fn number(&mut self, base: u32, places: u32, v: u32)
        requires { (0 < base) × (base ≤ 16) × (length self.old + places ≤ N) }
        ensures text { self.new ≡ self.old ++ in_base base places v }
        ensures size { length self.new ≡ length self.old + places }
    {
        if places > 0 {
            self.number(base, places - 1, v / base);
            self.put(digit(v % base));
        }
    }

    // The last places decimal digits of a v that may have more than 32 bits: a division by ten is a product.
    fn decimal_digits(&mut self, places: u64, v: u64)
        requires { length self.old + places ≤ N }
        ensures text { self.new ≡ self.old ++ in_base 10 places v }
        ensures size { length self.new ≡ length self.old + places }
    {
        if places > 0 {
            self.decimal_digits(places - 1, v / 10);
            self.put(digit((v % 10) as u32));
        }
    }

    pub fn decimal(&mut self, v: u64)
        requires { length self.old + places_of v ≤ N }
        ensures text { self.new ≡ self.old ++ decimalOf v }
        ensures size { length self.new ≡ length self.old + places_of v }
    {
        self.decimal_digits(places(v), v);
    }
}
