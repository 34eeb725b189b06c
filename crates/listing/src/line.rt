// The lines of the runner's listing.
ghost use Rattle.std.specs.Prelude.{◌≡◌, ◌++◌, ◌+◌, ◌<◌, ◌≤◌, length};
ghost use Rattle.step.specs.Advance.{stop_or_0};
ghost use Rattle.text.specs.Digits.{in_base};
ghost use Rattle.listing.specs.Lines.{flags_text, registers_text, end_text, step_line};
ghost use Rattle.listing.specs.Lines.{column as columnOf, header as headerText};

use numbers::Stop;
use record::{Core, Registers};
use text::Text;

// Of 19 characters.
pub fn header<const N: usize>(out: &mut Text<N>)
    requires { length out.old + 19 ≤ N }
    ensures text { out.new ≡ out.old ++ headerText }
    ensures size { length out.new ≡ length out.old + 19 }
{
    out.put_text(b"PC A H L S CZS C X\n");
}

// The last places digits of v to a base, and a blank.
fn column<const N: usize>(out: &mut Text<N>, base: u32, places: u32, v: u32)
    requires { (0 < base) × (base ≤ 16) × (length out.old + places < N) }
    ensures text { out.new ≡ out.old ++ columnOf (in_base base places v) }
    ensures size { length out.new ≡ length out.old + places + 1 }
{
    out.number(base, places, v);
    out.put(b' ');
}

fn flags<const N: usize>(out: &mut Text<N>, r: Registers)
    requires { length out.old + 4 ≤ N }
    ensures text { out.new ≡ out.old ++ columnOf (flags_text r) }
    ensures size { length out.new ≡ length out.old + 4 }
{
    out.number(2, 1, u32::from(r.cf));
    out.number(2, 1, u32::from(r.zf));
    out.number(2, 1, u32::from(r.sf));
    out.put(b' ');
}

fn registers<const N: usize>(out: &mut Text<N>, pc: u16, r: Registers, sp: u8)
    requires { length out.old + 13 ≤ N }
    ensures text { out.new ≡ out.old ++ registers_text pc r sp }
    ensures size { length out.new ≡ length out.old + 13 }
{
    column(out, 16, 4, u32::from(pc));
    column(out, 16, 1, u32::from(r.acc));
    column(out, 16, 1, u32::from(r.hr));
    column(out, 16, 1, u32::from(r.lr));
    column(out, 16, 1, u32::from(sp));
}

// The cycles of a step and its stop, 00 where it does not stop.
#[tactic(auto, using(crate::proofs::Cycles::places_of_cycles))]
fn spent<const N: usize>(out: &mut Text<N>, cycles: u16, stop: Option<Stop>)
    requires { length out.old + 9 ≤ N }
    ensures text { out.new ≡ out.old ++ end_text cycles (stop_or_0 stop) }
    ensures upper_bound { length out.new ≤ length out.old + 9 }
{
    out.decimal(u64::from(cycles));
    out.put(b' ');
    out.number(10, 2, u32::from(stop.map_or(0, u8::from)));
    out.put(b'\n');
}

// What a step left of the record, its cycles and its stop: at most 26 characters.
#[tactic(auto, unfolding(crate::specs::Lines::step_line))]
pub fn line<const N: usize>(out: &mut Text<N>, m: Core, cycles: u16, stop: Option<Stop>)
    requires { length out.old + 26 ≤ N }
    ensures text { out.new ≡ out.old ++ step_line m cycles (stop_or_0 stop) }
    ensures upper_bound { length out.new ≤ length out.old + 26 }
{
    registers(out, m.pc, m.regs, m.ptrs.sp);
    flags(out, m.regs);
    spent(out, cycles, stop);
}
