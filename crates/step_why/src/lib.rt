// Why an interrupt was taken or not: for any image, options, record and frame which of six reasons holds for that step, or a refusal.
#![tactic(auto)]

ghost use Rattle.std.specs.Prelude.{◌≡◌, ◌<◌};
ghost use Rattle.frame.specs.Frame.{PinsInRange};
ghost use Rattle.record.specs.Valid.{ValidInterrupts, ValidCore};
ghost use Rattle.step_why.specs.Why.{due_set, why_seen, why_of};
ghost use Rattle.step_why.specs.Answers.{paper_of, WhyAnswer};

use bits::{weight, without_bit};
use device::Options;
use due::due_source;
use frame::{Pins, frame_of};
use numbers::Refusal;
use record::stack::can_push;
use record::{Core, Interrupts, Machine};
use step::judged;
use step_look::{is_running, seen};

// The source that is accepted, by its latch's number, and the due ones that must wait.
#[derive(Clone, Copy)]
pub struct Taken {
    pub source: u8,
    pub waiting: u8,
}

// Which of the request's six holds, in its order; a set of sources has bit n where the source of ILn is in it.
#[derive(Clone, Copy)]
pub enum Reason {
    Waiting,
    Disabled,
    Nothing,
    Masked(u8),
    Level(u8),
    Accepted(Taken),
}

// The latches that their mask bits allow: IL5, MASK2 at IL3, MASK1 at IL2 and IL1, MASK0 at IL0.
fn due_set(il: u8, mask: u8) -> u8
    requires { (il < 64) × (mask < 16) }
    ensures { result ≡ due_set il mask }
{
    il & ((mask & 6) << 1 | mask & 3 | 32)
}

// Of a running record that has seen the frame.
fn why_seen(m: Core) -> Reason
    requires { ValidInterrupts m.ints }
    ensures { result ≡ why_seen m }
{
    let Interrupts {
        ei,
        il,
        mask,
        due: _,
    } = m.ints;
    if !ei {
        return Reason::Disabled;
    }
    if il == 0 {
        return Reason::Nothing;
    }
    let due = due_set(il, mask);
    match due_source(il, mask) {
        None => Reason::Masked(il),
        Some(source) => {
            if can_push(m) {
                Reason::Accepted(Taken {
                    source,
                    waiting: without_bit(due, weight(source)),
                })
            } else {
                Reason::Level(due)
            }
        }
    }
}

// Of a record and the frame that it is about to see.
pub fn why_of(options: Options, m: Core, new: Pins) -> Reason
    requires { (ValidCore options.device m) × (PinsInRange options.device new) }
    ensures { result ≡ why_of options m new }
{
    if is_running(m.mode) {
        why_seen(seen(options.device, m, new))
    } else {
        Reason::Waiting
    }
}

// The public call.
pub fn why(image: &[u8], options: Options, m: Machine, frame: &[u8]) -> Result<Reason, Refusal>
    ensures { WhyAnswer image.now options m frame.now (paper_of result) }
{
    judged(image, options.device, m)?;
    let pins = frame_of(options.device, frame).ok_or(Refusal::NoFrame)?;
    Ok(why_of(options, m.core, pins))
}
