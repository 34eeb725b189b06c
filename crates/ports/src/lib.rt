// The ports: what reading one gives, what writing one leaves in its latch, and what writing P16 does to the mode.
#![tactic(auto)]

ghost use Rattle.std.specs.Prelude.{◌≡◌, ◌<◌};
ghost use Rattle.device.specs.Device.{limit_of};
ghost use Rattle.ports.specs.Ports.{enters, latch_of, with_latch, is_writable, read_port, read_as, p27_after, write_port, written_as, mode_after};

use bits::has_bit;
use device::{Device, also_writable, p4_pins, reserved};
use frame::Pins;
use numbers::Stop;

// The latches. P0 has none, and that of a port that the device does not have holds 0.
#[derive(Clone, Copy)]
pub struct Ports {
    pub p3: u8,
    pub p4: u8,
    pub p5: u8,
    pub p6: u8,
    pub p8: u8,
    pub p9: u8,
    pub p16: u8,
    pub p17: u8,
    pub p23: u8,
    pub p24: u8,
    pub p25: u8,
    pub p27: u8,
    pub p28: u8,
    pub p29: u8,
    pub p30: u8,
}

#[derive(Clone, Copy, PartialEq, Eq)]
pub enum Mode {
    Running,
    Sleep,
    Hold,
}

// The value read, and the latches then.
#[derive(Clone, Copy)]
pub struct PortRead {
    pub value: u8,
    pub ports: Ports,
}

// What a latch holds, 0 for a port that has none.
#[tactic(auto, unfolding(crate::specs::Ports::latch_of))]
pub fn latch(p: Ports, n: u8) -> u8
    requires { n < 32 }
    ensures { result ≡ latch_of p n }
{
    match n {
        3 => p.p3,
        4 => p.p4,
        5 => p.p5,
        6 => p.p6,
        8 => p.p8,
        9 => p.p9,
        16 => p.p16,
        17 => p.p17,
        23 => p.p23,
        24 => p.p24,
        25 => p.p25,
        27 => p.p27,
        28 => p.p28,
        29 => p.p29,
        30 => p.p30,
        _ => 0,
    }
}

// The latches with another value in one of them.
#[tactic(auto, unfolding(crate::specs::Ports::with_latch))]
fn with_latch(p: Ports, n: u8, v: u8) -> Ports
    requires { n < 32 }
    ensures { result ≡ with_latch p n v }
{
    match n {
        3 => Ports { p3: v, ..p },
        4 => Ports { p4: v, ..p },
        5 => Ports { p5: v, ..p },
        6 => Ports { p6: v, ..p },
        8 => Ports { p8: v, ..p },
        9 => Ports { p9: v, ..p },
        16 => Ports { p16: v, ..p },
        17 => Ports { p17: v, ..p },
        23 => Ports { p23: v, ..p },
        24 => Ports { p24: v, ..p },
        25 => Ports { p25: v, ..p },
        27 => Ports { p27: v, ..p },
        28 => Ports { p28: v, ..p },
        29 => Ports { p29: v, ..p },
        30 => Ports { p30: v, ..p },
        _ => p,
    }
}

// Reading or testing a port.
#[tactic(auto, unfolding(crate::specs::Ports::read_port))]
pub fn read_port(d: Device, sound: bool, pins: Pins, ports: Ports, n: u8) -> Result<PortRead, Stop>
    requires { (n < 32) × (pins.p4 < limit_of d 2) }
    ensures { read_as ports result ≡ read_port d sound pins ports n }
{
    match n {
        0 => Ok(PortRead {
            value: pins.p0,
            ports,
        }),
        4 => Ok(PortRead {
            value: p4_pins(d, sound, pins.p4),
            ports: with_latch(ports, 4, 15),
        }),
        8 => Ok(PortRead {
            value: pins.p8,
            ports: with_latch(ports, 8, 15),
        }),
        9 => Ok(PortRead {
            value: ports.p9,
            ports,
        }),
        _ => Err(Stop::AbsentPort),
    }
}

fn is_writable(d: Device, n: u8) -> bool
    requires { n < 32 }
    ensures { result ≡ is_writable d n }
{
    matches!(n, 4 | 8 | 9 | 16 | 23 | 24 | 25 | 27 | 28 | 29 | 30) || also_writable(d, n)
}

// "Writing P16 with bit 2 set enters hold .. or sleep"
pub fn enters(n: u8, v: u8) -> bool
    ensures { result ≡ enters n v }
{
    n == 16 && has_bit(v, 4)
}

// What writing a port puts into P27: sleep clears it.
fn p27_after(p27: u8, n: u8, v: u8) -> u8
    ensures { result ≡ p27_after p27 n v }
{
    if enters(n, v) && v % 4 != 3 { 0 } else { p27 }
}

// Writing a port: the latches then.
#[tactic(auto, unfolding(crate::specs::Ports::write_port, crate::specs::Ports::write_stop))]
pub fn write_port(d: Device, ports: Ports, n: u8, v: u8) -> Result<Ports, Stop>
    requires { n < 32 }
    ensures { written_as ports result ≡ write_port d ports n v }
{
    if !is_writable(d, n) {
        return Err(Stop::AbsentPort);
    }
    if reserved(d, n, v) {
        return Err(Stop::ReservedValue);
    }
    let p27 = p27_after(ports.p27, n, v);
    Ok(with_latch(Ports { p27, ..ports }, n, v))
}

// The mode after writing a port: P16 with bit 2 set enters hold or sleep.
pub fn mode_after(mode: Mode, n: u8, v: u8) -> Mode
    ensures { result ≡ mode_after mode n v }
{
    if enters(n, v) {
        if v % 4 == 3 { Mode::Hold } else { Mode::Sleep }
    } else {
        mode
    }
}
