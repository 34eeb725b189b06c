// One step: for any image, options, record and frame the record, the stop and the cycles that document 01 says, or a refusal that changes nothing.
#![tactic(auto)]

pub mod apart;

ghost use Rattle.std.specs.Prelude.{◌≡◌, MatchResult, length};
ghost use Rattle.device.specs.Device.{image_size, rom_of};
ghost use Rattle.frame.specs.Frame.{PinsInRange};
ghost use Rattle.record.specs.Valid.{Valid, ValidCore, Nibbles};
ghost use Rattle.step.specs.Step.{step_of};
ghost use Rattle.step.specs.Advance.{acted, Advances};
ghost use Rattle.step.specs.Answers.{paper_of, Refuses, StepOf};

use device::{Device, Options, image_size};
use frame::{Pins, frame_of};
use numbers::{Refusal, Stop};
use record::valid::is_valid;
use record::{Core, Machine, Ram};
use row::Turn;
use step_act::act;
use step_act::board::Board;
use step_look::{Looked, is_running, seen, waited};

// What a step gives: why it stops, where it does, the cycles and the record.
#[derive(Clone, Copy)]
pub struct Stepped {
    pub stop: Option<Stop>,
    pub cycles: u16,
    pub machine: Machine,
}

// The same where RAM is lent.
#[derive(Clone, Copy)]
pub struct Advanced {
    pub stop: Option<Stop>,
    pub cycles: u16,
    pub core: Core,
}

// What acting gives of the scalars that it was given: "A stop now leaves the record as the first call left it".
fn acted(m: Core, turn: Result<Turn, Stop>) -> Advanced
    ensures { result ≡ acted m turn }
{
    match turn {
        Ok(Turn { cycles, core }) => Advanced {
            stop: None,
            cycles,
            core,
        },
        Err(stop) => Advanced {
            stop: Some(stop),
            cycles: 0,
            core: m,
        },
    }
}

// A step on the RAM that is lent: the record looks at the frame and then, where it ran before, acts.
pub fn advance(image: &[u8], options: Options, m: Core, ram: &mut Ram, pins: Pins) -> Advanced
    requires { (ValidCore options.device m) × (Nibbles ram.old) × (length image.now ≡ image_size options.device) × (PinsInRange options.device pins) }
    ensures { Advances (step_of (rom_of image.now) options (record { core = m; ram = ram.old }) pins) ram.new result }
{
    if is_running(m.mode) {
        let core = seen(options.device, m, pins);
        acted(core, act(Board { options, image }, core, ram))
    } else {
        let Looked { core, cycles } = waited(options.wake, m, pins);
        Advanced {
            stop: None,
            cycles,
            core: Core {
                mark: false,
                ..core
            },
        }
    }
}

// What the calls on an image and a record refuse first.
pub fn judged(image: &[u8], d: Device, m: Machine) -> Result<(), Refusal>
    ensures { MatchResult result (λ _. (length image.now ≡ image_size d) × (Valid d m)) (λ refusal. Refuses image.now d m refusal) }
{
    if image.len() != image_size(d) {
        Err(Refusal::ImageOfAnotherSize)
    } else if !is_valid(d, m) {
        Err(Refusal::RecordOutsideTheRanges)
    } else {
        Ok(())
    }
}

// The public step.
pub fn step(image: &[u8], options: Options, m: Machine, frame: &[u8]) -> Result<Stepped, Refusal>
    ensures { StepOf image.now options m frame.now (paper_of m result) }
{
    judged(image, options.device, m)?;
    let pins = frame_of(options.device, frame).ok_or(Refusal::NoFrame)?;
    let mut ram = m.ram;
    let Advanced { stop, cycles, core } = advance(image, options, m.core, &mut ram, pins);
    Ok(Stepped {
        stop,
        cycles,
        machine: Machine { core, ram },
    })
}
