// A step as two calls, looking and doing apart: for any input the record, the stop and the cycles that request Q-4 says, or a refusal that changes nothing.
ghost use Rattle.std.specs.Prelude.{◌≡◌};
ghost use Rattle.device.specs.Device.{rom_of};
ghost use Rattle.record.specs.Valid.{ValidCore, Nibbles};
ghost use Rattle.step.specs.Step.{act_step};
ghost use Rattle.step.specs.Advance.{Advances};
ghost use Rattle.step.specs.Answers.{paper_of};
ghost use Rattle.step.specs.Apart.{LookOf, ActOf};

use crate::{Advanced, Stepped, acted, judged};
use device::Options;
use frame::frame_of;
use numbers::Refusal;
use record::valid::is_valid;
use record::{Core, Machine, Ram};
use step_act::board::Board;
use step_look::{Looked, is_running};

// The second call on the RAM that is lent: after a look that was the whole step it "does nothing, spends 0 and clears the mark".
fn act_on(board: Board, m: Core, ram: &mut Ram) -> Advanced
    requires { (ValidCore board.options.device m) × (Nibbles ram.old) }
    ensures { Advances (act_step (rom_of board.entry.image.now) board.entry.options (record { core = m; ram = ram.old })) ram.new result }
{
    if is_running(m.mode) && !m.mark {
        acted(m, step_act::act(board, m, ram))
    } else {
        Advanced {
            stop: None,
            cycles: 0,
            core: Core { mark: false, ..m },
        }
    }
}

// The first call: edges, event counts and waking.
pub fn look(options: Options, m: Machine, frame: &[u8]) -> Result<Stepped, Refusal>
    ensures { LookOf options m frame.now (paper_of m result) }
{
    if !is_valid(options.device, m) {
        return Err(Refusal::RecordOutsideTheRanges);
    }
    let pins = frame_of(options.device, frame).ok_or(Refusal::NoFrame)?;
    let Looked { core, cycles } = step_look::look(options, m.core, pins);
    let ram = m.ram;
    Ok(Stepped {
        stop: None,
        cycles,
        machine: Machine { core, ram },
    })
}

// The second call: it accepts an interrupt or executes one row, and time passes.
pub fn act(image: &[u8], options: Options, m: Machine) -> Result<Stepped, Refusal>
    ensures { ActOf image.now options m (paper_of m result) }
{
    judged(image, options.device, m)?;
    let mut ram = m.ram;
    let Advanced { stop, cycles, core } = act_on(Board { options, image }, m.core, &mut ram);
    Ok(Stepped {
        stop,
        cycles,
        machine: Machine { core, ram },
    })
}
