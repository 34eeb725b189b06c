// What a running record does once it has seen the frame: it accepts an interrupt or executes one row, then time passes.
#![tactic(auto)]

pub mod board;

ghost use Rattle.std.specs.Prelude.{◌≡◌, ◌<◌};
ghost use Rattle.numbers.specs.Sizes.{addresses};
ghost use Rattle.bits.specs.Bits.{OneOfSix};
ghost use Rattle.device.specs.Device.{rom_of};
ghost use Rattle.record.specs.Valid.{ValidInterrupts, ValidTimers, ValidCore, Nibbles};
ghost use Rattle.step_act.specs.Act.{source_of, accept_of, run_one, accept_or_run, core_after, timed, act_of};
ghost use Rattle.step_act.specs.Runs.{Runs};
ghost use Rattle.row.specs.Turns.{Gives};

use crate::board::Board;
use bits::has_bit;
use clock::Rates;
use device::image::Window;
use due::latch_of;
use numbers::Stop;
use ports::Mode;
use reader::read_at;
use record::stack::can_push;
use record::{Core, Ram};
use row::{Turn, held, moved_on};
use row_dispatch::perform;
use step_look::{time_of, with_time};

// "A call or acceptance lowers SP first, so SP must be 1 to 13."
fn accept(m: Core, ram: &mut Ram, source: u8) -> Result<Turn, Stop>
    requires { (m.pc < addresses) × (source < 6) }
    ensures { Gives (accept_of (record { core = m; ram = ram.old }) source) m ram.new result }
{
    if can_push(m) {
        Ok(moved_on(held(m, ram).accept(source), ram))
    } else {
        Err(Stop::StackLevel)
    }
}

// The row at PC, or the stop of what is no row.
fn run_one(board: Board, m: Core, ram: &mut Ram) -> Result<Turn, Stop>
    requires { (ValidCore board.options.device m) × (Nibbles ram.old) }
    ensures { Gives (run_one (rom_of board.entry.image.now) board.entry.options (record { core = m; ram = ram.old })) m ram.new result }
{
    let window = Window {
        bytes: board.image,
        p3: m.ports.p3,
    };
    let read = read_at(window, m.pc);
    let Ok(insn) = read else {
        return Err(Stop::from(read.unwrap_err()));
    };
    perform(window, board.options, m, ram, insn)
}

// The latch of the source that is due, where EI is set.
fn source(m: Core) -> Option<u8>
    requires { ValidInterrupts m.ints }
    ensures { OneOfSix result (source_of m) }
{
    if m.ints.ei {
        latch_of(m.ints.due)
    } else {
        None
    }
}

fn turn(board: Board, m: Core, ram: &mut Ram) -> Result<Turn, Stop>
    requires { (ValidCore board.options.device m) × (Nibbles ram.old) }
    ensures { Gives (accept_or_run (rom_of board.entry.image.now) board.entry.options (record { core = m; ram = ram.old })) m ram.new result }
{
    match source(m) {
        Some(source) => accept(m, ram, source),
        None => run_one(board, m, ram),
    }
}

// Time for so many cycles, with the settings that the scalars have.
fn pass(m: Core, n: u16) -> Core
    requires { (ValidInterrupts m.ints) × (ValidTimers m.timers) × (m.ports.p25 < 16) }
    ensures { result ≡ timed n m }
{
    let rates = Rates {
        p25: m.ports.p25,
        p28: m.ports.p28,
        p29: m.ports.p29,
        p83: has_bit(m.pins.p8, 8),
        p81: has_bit(m.pins.p8, 2),
    };
    with_time(m, clock::pass(time_of(m), rates, n))
}

// "phase 3 is left out" on entering sleep or hold.
#[tactic(auto, unfolding(crate::specs::Act::core_after))]
fn after(m: Core, n: u16) -> Core
    requires { (ValidInterrupts m.ints) × (ValidTimers m.timers) × (m.ports.p25 < 16) }
    ensures { result ≡ core_after n m }
{
    match m.mode {
        Mode::Running => pass(m, n),
        Mode::Sleep | Mode::Hold => m,
    }
}

// A running record acts. "A stop now leaves the record as the first call left it" (Q-4).
pub fn act(board: Board, m: Core, ram: &mut Ram) -> Result<Turn, Stop>
    requires { (Runs board.options.device m) × (Nibbles ram.old) }
    ensures { Gives (act_of (rom_of board.entry.image.now) board.entry.options (record { core = m; ram = ram.old })) m ram.new result }
{
    let Turn { cycles, core } = turn(board, m, ram)?;
    Ok(Turn {
        cycles,
        core: after(core, cycles),
    })
}
