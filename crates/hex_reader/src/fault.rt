// Why a text of Intel HEX is refused.
ghost use Rattle.std.specs.Prelude.{◌≡◌};
ghost use Rattle.hex_reader.specs.Fault.{buffer, fault, number_of_refusal, line_of_refusal};

use numbers::Refusal;

// The first fault of a text, and the number of its line.
#[derive(Clone, Copy)]
pub struct HexFault {
    pub refusal: Refusal,
    pub line: usize,
}

// A buffer that is not of the device's size, or the text's first fault.
#[derive(Clone, Copy)]
pub enum HexRefusal {
    Buffer(Refusal),
    Fault(HexFault),
}

impl From<Refusal> for HexRefusal {
    ghost from_gives = { λ refusal r. r ≡ buffer refusal };

    fn from(refusal: Refusal) -> HexRefusal {
        HexRefusal::Buffer(refusal)
    }
}

impl From<HexFault> for HexRefusal {
    ghost from_gives = { λ first r. r ≡ fault first };

    fn from(first: HexFault) -> HexRefusal {
        HexRefusal::Fault(first)
    }
}

impl HexRefusal {
    pub fn number(self) -> u8
        ensures { result ≡ number_of_refusal self }
    {
        match self {
            HexRefusal::Buffer(refusal) => u8::from(refusal),
            HexRefusal::Fault(first) => u8::from(first.refusal),
        }
    }

    // The line of a text's first fault. A buffer has no line, which is 0.
    pub fn line(self) -> usize
        ensures { result ≡ line_of_refusal self }
    {
        match self {
            HexRefusal::Buffer(_) => 0,
            HexRefusal::Fault(first) => first.line,
        }
    }
}
