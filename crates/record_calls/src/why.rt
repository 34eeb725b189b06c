// Why an interrupt was taken or not, on numbers and byte buffers, for C and for whatever calls C: include/em73862.h and include/em73p982.h declare the calls.
// Two answers to the same inputs are equal: proofs/OneAnswer.antt.
ghost use Rattle.std.specs.Prelude.{◌≡◌};
ghost use Rattle.numbers.specs.ComesBack.{answered};
ghost use Rattle.record_calls.specs.Calls.{options_of};
ghost use Rattle.step_why.specs.Answers.{values_of, paper_of};
ghost use Rattle.record_calls.specs.Why.{OfWhy, WhyCall};

use crate::{options_of, unheld};
use device::Device;
use numbers::Refusal;
use record_bytes::unpack;
use step_why::{Reason, Taken, why};

// Document 01's number, which of the six holds, the source that is accepted, and the set of sources.
#[derive(Clone, Copy)]
pub struct WhyNumbers {
    pub number: u8,
    pub holds: u8,
    pub source: u8,
    pub sources: u8,
}

// Of an answer that refuses nothing.
fn which(holds: u8, source: u8, sources: u8) -> WhyNumbers
    ensures { result ≡ record { number = 0; holds = holds; source = source; sources = sources } }
{
    WhyNumbers {
        number: 0,
        holds,
        source,
        sources,
    }
}

impl From<Reason> for WhyNumbers {
    ghost from_gives = { λ reason numbers. OfWhy (answered (values_of reason)) numbers };

    fn from(reason: Reason) -> WhyNumbers {
        match reason {
            Reason::Waiting => which(1, 0, 0),
            Reason::Disabled => which(2, 0, 0),
            Reason::Nothing => which(3, 0, 0),
            Reason::Masked(latched) => which(4, 0, latched),
            Reason::Level(due) => which(5, 0, due),
            Reason::Accepted(Taken { source, waiting }) => which(6, source, waiting),
        }
    }
}

impl From<Result<Reason, Refusal>> for WhyNumbers {
    ghost from_gives = { λ answer numbers. OfWhy (paper_of answer) numbers };

    fn from(answer: Result<Reason, Refusal>) -> WhyNumbers {
        match answer {
            Ok(reason) => WhyNumbers::from(reason),
            Err(refusal) => WhyNumbers {
                number: u8::from(refusal),
                holds: 0,
                source: 0,
                sources: 0,
            },
        }
    }
}

// The answer by the device, which em73862_why and em73p982_why hand on to.
pub fn why_numbers(
    d: Device,
    image: &[u8],
    wake: u8,
    sound: u8,
    bytes: &[u8],
    frame: &[u8],
) -> WhyNumbers
    ensures { WhyCall image.now (options_of d wake sound) bytes.now frame.now result }
{
    let answer = match unpack(bytes) {
        Some(m) => why(image, options_of(d, wake, sound), m, frame),
        None => Err(unheld(d, image)),
    };
    WhyNumbers::from(answer)
}
