// Hexadecimal digits of either case.
ghost use Rattle.std.specs.Prelude.{◌≡◌};
ghost use Rattle.text.specs.Hexadecimal.{digit_to};

// The value of a digit's character.
#[tactic(auto, unfolding(crate::specs::Hexadecimal::digit_of))]
pub fn digit(c: u8) -> Option<u8>
    ensures { result ≡ digit_to 16 c }
{
    match c {
        b'0'..=b'9' => Some(c - b'0'),
        b'A'..=b'F' => Some(c - b'A' + 10),
        b'a'..=b'f' => Some(c - b'a' + 10),
        _ => None,
    }
}
