// The handler bound: the most cycles that any path of the flow rules takes from an address to RTI, the greatest depth of its calls, and a path for each.
#![tactic(auto)]

ghost use Rattle.std.specs.Prelude.{◌≡◌, ◌+◌, ◌*◌, ◌%◌, ◌<◌, ◌≤◌, length, Err};
ghost use Rattle.device.specs.Device.{rom_of, window_end};
ghost use Rattle.graph_search.specs.Marks.{Blank};
ghost use Rattle.reader.specs.Answer.{p3_given};
ghost use Rattle.routines.specs.Answer.{Answer};
ghost use Rattle.routines_bound.specs.Handler.{found_of};
ghost use Rattle.bound_flow.specs.Flow.{address_of};
ghost use Rattle.bound_calls.specs.CallFlow.{call_flow, call_cycles};
ghost use Rattle.bound_calls.specs.CallAnswer.{CallAnswer};
ghost use Rattle.bound.specs.declared.Refused.{Refused};
ghost use Rattle.bound.specs.Answer.{paper_of};
ghost use Rattle.bound.specs.Numbers.{OfBound};
ghost use Rattle.numbers.specs.ComesBack.{value_at};
ghost use Rattle.numbers.specs.Numbered.{refusal_number};

use bound_numbered::explore;
use device::{Device, image_size, is_banked};
use graph::PLACES;
use numbers::{LAST_ADDRESS, Refusal};
use reader::p3_given;
use routines_bound::{Greatest, Unbounded, bound_words};

// Why the call refuses; specs/Answer.antt gives the paper's number and values for each.
#[derive(Clone, Copy, PartialEq, Eq)]
pub enum Refused {
    ImageSize,
    P3Range,
    AddressRange,
    Unbounded(Unbounded),
}

impl From<Unbounded> for Refused {
    ghost from_gives = { λ unbounded refused. refused ≡ Refused.Unbounded unbounded };

    fn from(unbounded: Unbounded) -> Refused {
        Refused::Unbounded(unbounded)
    }
}

// The bound from an address of the image.
fn found(
    d: Device,
    image: &[u8],
    p3: u8,
    address: usize,
    path: &mut [u8],
    deep: &mut [u8],
) -> Result<Greatest, Unbounded>
    requires { (window_end p3 ≤ length image.now) × (address < 8192) }
    ensures { Answer (call_flow d (rom_of image.now p3) address) (call_cycles d (rom_of image.now p3)) address_of
        path.old path.new deep.old deep.new (found_of result) }
{
    let mut map = [0u16; PLACES];
    let mut words = [0u64; PLACES];
    let n = explore(d, image, p3, address, &mut map, &mut words);
    bound_words(&mut words, &map, n, path, deep)
}

// The bound in the window of a P3 that the device has: N's path in the first buffer, depth's in the second.
fn bound_shown(
    d: Device,
    image: &[u8],
    p3: u32,
    address: u32,
    path: &mut [u8],
    deep: &mut [u8],
) -> Result<Greatest, Refused>
    ensures { CallAnswer d image.now p3 address path.old path.new deep.old deep.new (paper_of result) }
{
    if image.len() != image_size(d) {
        return Err(Refused::ImageSize);
    }
    if !is_banked(d, p3) {
        return Err(Refused::P3Range);
    }
    if LAST_ADDRESS < address {
        return Err(Refused::AddressRange);
    }
    Ok(found(d, image, p3 as u8, address as usize, path, deep)?)
}

// The public bound.
pub fn bound(
    d: Device,
    image: &[u8],
    p3: u32,
    address: u32,
    path: &mut [u8],
    deep: &mut [u8],
) -> Result<Greatest, Refused>
    ensures { CallAnswer d image.now (p3_given d p3) address path.old path.new deep.old deep.new (paper_of result) }
{
    bound_shown(d, image, p3_given(d, p3), address, path, deep)
}

// The paper's number of a refusal.
impl From<Refused> for Refusal {
    ghost from_gives = { λ refused refusal. refusal_number refusal ≡ (paper_of (Err refused)).number };

    fn from(refused: Refused) -> Refusal {
        match refused {
            Refused::ImageSize => Refusal::ImageOfAnotherSize,
            Refused::P3Range => Refusal::RecordOutsideTheRanges,
            Refused::AddressRange => Refusal::AddressOver8191,
            Refused::Unbounded(Unbounded::Recursion(_)) => Refusal::RecursionReachable,
            Refused::Unbounded(Unbounded::Excluded(_)) => Refusal::ExcludedInstructionReachable,
            Refused::Unbounded(Unbounded::Repeats(_)) => Refusal::RepetitionReachable,
            Refused::Unbounded(Unbounded::TooLarge) => Refusal::BoundOver65535,
            Refused::Unbounded(Unbounded::Short(_)) => Refusal::PathBufferTooShort,
        }
    }
}

// What comes with a refusal: an entry, an address, bytes, or 0.
fn named_by(refused: Refused) -> usize
    ensures { result ≡ value_at (paper_of (Err refused)) 0 }
{
    match refused {
        Refused::Unbounded(Unbounded::Recursion(entry)) => entry,
        Refused::Unbounded(Unbounded::Excluded(at)) => at,
        Refused::Unbounded(Unbounded::Repeats(at)) => at,
        Refused::Unbounded(Unbounded::Short(bytes)) => bytes,
        _ => 0,
    }
}

// The paper's number of an answer, 0 where nothing is refused, and the values that come with it: N and the depth, or what comes with a refusal.
#[derive(Clone, Copy)]
pub struct BoundNumbers {
    pub number: u8,
    pub value: usize,
    pub depth: usize,
}

impl From<Result<Greatest, Refused>> for BoundNumbers {
    ghost from_gives = { λ answer numbers. OfBound (paper_of answer) numbers };

    fn from(answer: Result<Greatest, Refused>) -> BoundNumbers {
        match answer {
            Ok(greatest) => BoundNumbers {
                number: 0,
                value: greatest.cycles,
                depth: greatest.depth,
            },
            Err(refused) => BoundNumbers {
                number: u8::from(Refusal::from(refused)),
                value: named_by(refused),
                depth: 0,
            },
        }
    }
}
