// Document 01's numbers by name: what comes back, and how many there are of what it counts.
#![tactic(auto)]

ghost use Rattle.std.specs.Prelude.{◌≡◌};
ghost use Rattle.numbers.specs.Numbered.{refusal_number, stop_number};

// "Image: exactly 8,192 bytes."
pub const IMAGE_BYTES: usize = 8192;

// "PC 0 to 8191." PC wraps at 8192.
pub const ADDRESSES: u16 = 8192;

// 20: "address over 8191"
pub const LAST_ADDRESS: u32 = 8191;

// "RAM: 372 nibbles"
pub const RAM_NIBBLES: usize = 372;

// Why a call refuses, in the order of document 01's table "What comes back" and of the requests that add to it.
#[derive(Clone, Copy, PartialEq, Eq)]
pub enum Refusal {
    ImageOfAnotherSize,
    RecordOutsideTheRanges,
    NoFrame,
    MoreThan65536Frames,
    DisplayBufferUnder40Bytes,
    NotToBeWritten,
    AddressOver8191,
    ExcludedInstructionReachable,
    RepetitionReachable,
    PathBufferTooShort,
    RecursionReachable,
    BoundOver65535,
    UnassignedCode,
    PastEnd,
    MalformedOrEndWithBytes,
    RecordSum,
    RecordType,
    Past1FFF,
    GivenTwice,
    EndMissingOrTextAfter,
    OutputBufferUnder22540Bytes,
    WorkBufferIsNot9216Bytes,
    PulsesOverTheLimit,
    TfOfZeroWhileOn,
}

// Why a step stops.
#[derive(Clone, Copy, PartialEq, Eq)]
pub enum Stop {
    UnassignedCode,
    AbsentRamAddress,
    StackLevel,
    AbsentPort,
    ReservedValue,
    PastEnd,
}

impl From<Refusal> for u8 {
    ghost from_gives = { λ refusal number. number ≡ refusal_number refusal };

    fn from(refusal: Refusal) -> u8 {
        match refusal {
            Refusal::ImageOfAnotherSize => 1,
            Refusal::RecordOutsideTheRanges => 2,
            Refusal::NoFrame => 3,
            Refusal::MoreThan65536Frames => 4,
            Refusal::DisplayBufferUnder40Bytes => 5,
            Refusal::NotToBeWritten => 11,
            Refusal::AddressOver8191 => 20,
            Refusal::ExcludedInstructionReachable => 21,
            Refusal::RepetitionReachable => 22,
            Refusal::PathBufferTooShort => 23,
            Refusal::RecursionReachable => 24,
            Refusal::BoundOver65535 => 25,
            Refusal::UnassignedCode => 30,
            Refusal::PastEnd => 35,
            Refusal::MalformedOrEndWithBytes => 40,
            Refusal::RecordSum => 41,
            Refusal::RecordType => 42,
            Refusal::Past1FFF => 43,
            Refusal::GivenTwice => 44,
            Refusal::EndMissingOrTextAfter => 45,
            Refusal::OutputBufferUnder22540Bytes => 46,
            Refusal::WorkBufferIsNot9216Bytes => 47,
            Refusal::PulsesOverTheLimit => 48,
            Refusal::TfOfZeroWhileOn => 49,
        }
    }
}

impl From<Stop> for u8 {
    ghost from_gives = { λ stop number. number ≡ stop_number stop };

    fn from(stop: Stop) -> u8 {
        match stop {
            Stop::UnassignedCode => 30,
            Stop::AbsentRamAddress => 31,
            Stop::StackLevel => 32,
            Stop::AbsentPort => 33,
            Stop::ReservedValue => 34,
            Stop::PastEnd => 35,
        }
    }
}
