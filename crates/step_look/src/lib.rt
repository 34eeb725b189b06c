// What a step sees of its frame, before it acts.
#![tactic(auto)]

ghost use Rattle.std.specs.Prelude.{◌≡◌, true, ◌<◌};
ghost use Rattle.ports.specs.declared.Mode.{Mode};
ghost use Rattle.record.specs.Valid.{ValidInterrupts, ValidTimers};
ghost use Rattle.step_look.specs.Look.{edges_counted, is_running, raises_il0, edges_latched, edges_timed, seen, time_of, with_time, waking_cycles, waited, looked};

use bits::has_bit;
use clock::{Time, events, latched};
use device::{Device, Options, ends_speech};
use edges::{fell, rose, wakes};
use frame::Pins;
use ports::Mode;
use record::{Core, Timers, with_latches};

// The scalars then, and the cycles of a step that only looks.
#[derive(Clone, Copy)]
pub struct Looked {
    pub core: Core,
    pub cycles: u16,
}

// "for sleep 32,768, 2,048 or 8,192 (bits 1..0 = 0, 1, 2)": by bits 1..0 of P16, of which sleep never has 3.
const WAKING: [u16; 4] = [32768, 2048, 8192, 0];

// What sets IL0: P8.0's falling edge, or the digit that says that speech ends.
fn raises_il0(d: Device, last: Pins, new: Pins) -> bool
    ensures { result ≡ raises_il0 d last new }
{
    if ends_speech(d) {
        new.speech == 1
    } else {
        fell(last.p8, new.p8, 1)
    }
}

// "A falling edge on P8.2 sets IL5", and what sets IL0.
fn edges_latched(d: Device, last: Pins, new: Pins, il: u8) -> u8
    requires { il < 64 }
    ensures { result ≡ edges_latched d last new il }
{
    let by_int0 = latched(fell(last.p8, new.p8, 4), 32, il);
    latched(raises_il0(d, last, new), 1, by_int0)
}

// The time base, the timers and the latches of a record.
pub fn time_of(m: Core) -> Time
    ensures { result ≡ time_of m }
{
    let Timers { base, ta, tb } = m.timers;
    Time {
        base,
        ta,
        tb,
        il: m.ints.il,
    }
}

// A record with others.
pub fn with_time(m: Core, t: Time) -> Core
    requires { ValidInterrupts m.ints }
    ensures { result ≡ with_time m t }
{
    let Time { base, ta, tb, il } = t;
    Core {
        timers: Timers { base, ta, tb },
        ints: with_latches(m.ints, il),
        ..m
    }
}

// The time base, the timers, and the latches with those that edges set.
fn edges_timed(d: Device, m: Core, new: Pins) -> Time
    requires { m.ints.il < 64 }
    ensures { result ≡ edges_timed d m new }
{
    Time {
        il: edges_latched(d, m.pins, new, m.ints.il),
        ..time_of(m)
    }
}

// "A rising edge on P8.3 (P8.1) adds one to TA (TB) in event mode."
#[tactic(auto, using(crate::proofs::Ranges::edges_in_range), unfolding(crate::specs::Look::edges_counted))]
fn counted(d: Device, m: Core, new: Pins) -> Time
    requires { (ValidInterrupts m.ints) × (ValidTimers m.timers) }
    ensures { result ≡ edges_counted d m new }
{
    let rose_a = rose(m.pins.p8, new.p8, 8);
    let rose_b = rose(m.pins.p8, new.p8, 2);
    events(
        edges_timed(d, m, new),
        m.ports.p28,
        m.ports.p29,
        rose_a,
        rose_b,
    )
}

// What a running record sees, and no mark. Most frames end no speech and leave P8 as it was: nothing is latched or counted then.
pub fn seen(d: Device, m: Core, new: Pins) -> Core
    requires { (ValidInterrupts m.ints) × (ValidTimers m.timers) }
    ensures { result ≡ seen d m new }
{
    let timed = if new.speech == 0 && new.p8 == m.pins.p8 {
        m
    } else {
        with_time(m, counted(d, m, new))
    };
    Core {
        pins: new,
        mark: false,
        ..timed
    }
}

// The cycles of waking: none for hold.
fn waking_cycles(mode: Mode, p16: u8) -> u16
    ensures { result ≡ waking_cycles mode p16 }
{
    match mode {
        Mode::Sleep => WAKING[(p16 % 4) as usize],
        Mode::Running | Mode::Hold => 0,
    }
}

// "In sleep or hold a step only looks for" the pin that wakes: by its level with P16 bit 3 set, else by its falling edge.
// That is the whole step, and the mark says so. One that wakes is "running again", and no latch is set.
#[tactic(auto, unfolding(crate::specs::Look::waited))]
pub fn waited(enabled: u8, m: Core, new: Pins) -> Looked
    ensures { result ≡ waited enabled m new }
{
    let by_level = has_bit(m.ports.p16, 8);
    let seen = Core {
        pins: new,
        mark: true,
        ..m
    };
    if wakes(by_level, enabled, m.pins, new) {
        Looked {
            core: Core {
                mode: Mode::Running,
                ..seen
            },
            cycles: waking_cycles(m.mode, m.ports.p16),
        }
    } else {
        Looked {
            core: seen,
            cycles: 0,
        }
    }
}

pub fn is_running(mode: Mode) -> bool
    ensures { result ≡ is_running mode }
{
    matches!(mode, Mode::Running)
}

// What the look at a frame makes of any record.
#[tactic(auto, unfolding(crate::specs::Look::looked))]
pub fn look(options: Options, m: Core, new: Pins) -> Looked
    requires { (ValidInterrupts m.ints) × (ValidTimers m.timers) }
    ensures { result ≡ looked options m new }
{
    if is_running(m.mode) {
        Looked {
            core: seen(options.device, m, new),
            cycles: 0,
        }
    } else {
        waited(options.wake, m, new)
    }
}
