// The ends of rows by what they change: a register or none, and the flags by the marks C Z S, which each name's comment has. n and t are the row's bytes and cycles.
#![tactic(auto)]

ghost use Rattle.std.specs.Prelude.{◌≡◌, ◌<◌};
ghost use Rattle.numbers.specs.Sizes.{addresses};
ghost use Rattle.row_ends.specs.Ends.{held, loaded_with, given, goes_past, loaded, acc_loaded, exchanged, summed, lessened, logical, acc_carried, acc_borrowed, compared, tested, cf_tested, went_on, nothing, jumped};

use alu::Made;
use numbers::ADDRESSES;
use record::{Core, Registers};

// What a row that touches the registers alone leaves: its cycles, PC and the registers.
#[derive(Clone, Copy)]
pub struct Act {
    pub cycles: u16,
    pub pc: u16,
    pub regs: Registers,
}

// A register of a nibble.
#[derive(Clone, Copy)]
pub enum Register {
    Acc,
    Hr,
    Lr,
}

fn held(r: Registers, from: Register) -> u8
    ensures { result ≡ held r from }
{
    match from {
        Register::Acc => r.acc,
        Register::Hr => r.hr,
        Register::Lr => r.lr,
    }
}

fn loaded_with(r: Registers, to: Register, v: u8) -> Registers
    ensures { result ≡ loaded_with r to v }
{
    match to {
        Register::Acc => Registers { acc: v, ..r },
        Register::Hr => Registers { hr: v, ..r },
        Register::Lr => Registers { lr: v, ..r },
    }
}

// The registers where one of them is given v, or none is.
fn given(r: Registers, to: Option<Register>, v: u8) -> Registers
    ensures { result ≡ given r to v }
{
    match to {
        Some(to) => loaded_with(r, to, v),
        None => r,
    }
}

fn past(m: Core, r: Registers, n: u8, t: u16) -> Act
    requires { m.pc < addresses }
    ensures { result ≡ goes_past m r n t }
{
    Act {
        cycles: t,
        pc: (m.pc + n as u16) % ADDRESSES,
        regs: r,
    }
}

// - - 1
pub fn loaded(m: Core, to: Register, v: u8, n: u8, t: u16) -> Act
    requires { m.pc < addresses }
    ensures { result ≡ loaded m to v n t }
{
    let r = Registers {
        sf: true,
        ..loaded_with(m.regs, to, v)
    };
    past(m, r, n, t)
}

// - Z 1
pub fn acc_loaded(m: Core, v: u8, n: u8, t: u16) -> Act
    requires { m.pc < addresses }
    ensures { result ≡ acc_loaded m v n t }
{
    let r = Registers {
        acc: v,
        zf: v == 0,
        sf: true,
        ..m.regs
    };
    past(m, r, n, t)
}

// - Z 1: ACC and another register change places, and Z speaks of what ACC receives.
pub fn exchanged(m: Core, with: Register, n: u8, t: u16) -> Act
    requires { m.pc < addresses }
    ensures { result ≡ exchanged m with n t }
{
    let v = held(m.regs, with);
    let r = Registers {
        acc: v,
        zf: v == 0,
        sf: true,
        ..loaded_with(m.regs, with, m.regs.acc)
    };
    past(m, r, n, t)
}

// - Z C'
pub fn summed(m: Core, to: Option<Register>, x: Made, n: u8, t: u16) -> Act
    requires { m.pc < addresses }
    ensures { result ≡ summed m to x n t }
{
    let r = Registers {
        zf: x.value == 0,
        sf: !x.carry,
        ..given(m.regs, to, x.value)
    };
    past(m, r, n, t)
}

// - Z C
pub fn lessened(m: Core, to: Option<Register>, x: Made, n: u8, t: u16) -> Act
    requires { m.pc < addresses }
    ensures { result ≡ lessened m to x n t }
{
    let r = Registers {
        zf: x.value == 0,
        sf: x.carry,
        ..given(m.regs, to, x.value)
    };
    past(m, r, n, t)
}

// - Z Z'
pub fn logical(m: Core, to: Option<Register>, x: Made, n: u8, t: u16) -> Act
    requires { m.pc < addresses }
    ensures { result ≡ logical m to x n t }
{
    let zero = x.value == 0;
    let r = Registers {
        zf: zero,
        sf: !zero,
        ..given(m.regs, to, x.value)
    };
    past(m, r, n, t)
}

// C Z C'
pub fn acc_carried(m: Core, x: Made, n: u8, t: u16) -> Act
    requires { m.pc < addresses }
    ensures { result ≡ acc_carried m x n t }
{
    let r = Registers {
        acc: x.value,
        cf: x.carry,
        zf: x.value == 0,
        sf: !x.carry,
        ..m.regs
    };
    past(m, r, n, t)
}

// C Z C
pub fn acc_borrowed(m: Core, x: Made, n: u8, t: u16) -> Act
    requires { m.pc < addresses }
    ensures { result ≡ acc_borrowed m x n t }
{
    let r = Registers {
        acc: x.value,
        cf: x.carry,
        zf: x.value == 0,
        sf: x.carry,
        ..m.regs
    };
    past(m, r, n, t)
}

// C Z Z'
pub fn compared(m: Core, x: Made, n: u8, t: u16) -> Act
    requires { m.pc < addresses }
    ensures { result ≡ compared m x n t }
{
    let zero = x.value == 0;
    let r = Registers {
        cf: x.carry,
        zf: zero,
        sf: !zero,
        ..m.regs
    };
    past(m, r, n, t)
}

// - - *, of a test
pub fn tested(m: Core, answer: bool, n: u8, t: u16) -> Act
    requires { m.pc < addresses }
    ensures { result ≡ tested m answer n t }
{
    let r = Registers {
        sf: answer,
        ..m.regs
    };
    past(m, r, n, t)
}

// 0 - * and 1 - *, of a test of CF
pub fn cf_tested(m: Core, cf: bool, answer: bool, n: u8, t: u16) -> Act
    requires { m.pc < addresses }
    ensures { result ≡ cf_tested m cf answer n t }
{
    let r = Registers {
        cf,
        sf: answer,
        ..m.regs
    };
    past(m, r, n, t)
}

// - - 1
pub fn went_on(m: Core, n: u8, t: u16) -> Act
    requires { m.pc < addresses }
    ensures { result ≡ went_on m n t }
{
    tested(m, true, n, t)
}

// - - -
pub fn nothing(m: Core, n: u8, t: u16) -> Act
    requires { m.pc < addresses }
    ensures { result ≡ nothing m n t }
{
    past(m, m.regs, n, t)
}

// A branch that is taken.
pub fn jumped(m: Core, pc: u16, t: u16) -> Act
    ensures { result ≡ jumped m pc t }
{
    Act {
        cycles: t,
        pc,
        regs: Registers { sf: true, ..m.regs },
    }
}
