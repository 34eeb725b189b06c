// The ends of the rows of ports: a port written, or the latches that reading one leaves.
ghost use Rattle.std.specs.Prelude.{◌≡◌, ◌<◌};
ghost use Rattle.numbers.specs.Sizes.{addresses};
ghost use Rattle.ports.specs.Ports.{write_port};
ghost use Rattle.row.specs.Places.{base_after};
ghost use Rattle.row_ports.specs.Ends.{Tells, wrote, written, left};

use device::Device;
use numbers::{ADDRESSES, Stop};
use ports::{Ports, enters, mode_after, write_port};
use record::{Core, Registers, Timers};
use row::Turn;
use row_ends::Act;

// "Writing P16 with bit 2 set enters hold .. or sleep; the time base becomes 0"
fn base_after(base: u32, n: u8, v: u8) -> u32
    ensures { result ≡ base_after base n v }
{
    if enters(n, v) { 0 } else { base }
}

// v written to port n, which leaves these latches, by a row of so many bytes.
fn wrote(d: Device, m: Core, n: u8, v: u8, bytes: u8, ports: Ports) -> Core
    requires { (m.pc < addresses) × (ports ≡ (write_port d m.ports n v).ports) }
    ensures { result ≡ wrote d m n v bytes }
{
    Core {
        regs: Registers { sf: true, ..m.regs },
        pc: (m.pc + bytes as u16) % ADDRESSES,
        timers: Timers {
            base: base_after(m.timers.base, n, v),
            ..m.timers
        },
        ports,
        mode: mode_after(m.mode, n, v),
        ..m
    }
}

// - - 1: v to port n, or the port's stop, by a row of so many bytes. Every row of ports takes two cycles.
#[tactic(auto, using(crate::proofs::Stops::named), unfolding(crate::specs::Ends::written))]
pub(crate) fn written(d: Device, m: Core, n: u8, v: u8, bytes: u8) -> Result<Turn, Stop>
    requires { (m.pc < addresses) × (n < 32) }
    ensures { Tells m (written d m n v bytes) result }
{
    let ports = write_port(d, m.ports, n, v)?;
    Ok(Turn {
        cycles: 2,
        core: wrote(d, m, n, v, bytes, ports),
    })
}

// "Reading or testing P4 or P8 .. sets the latch to 15": PC and the registers that the row leaves, and the latches that reading leaves.
pub(crate) fn left(m: Core, act: Act, ports: Ports) -> Turn
    ensures { result ≡ left m act ports }
{
    Turn {
        cycles: act.cycles,
        core: Core {
            regs: act.regs,
            pc: act.pc,
            ports,
            ..m
        },
    }
}
