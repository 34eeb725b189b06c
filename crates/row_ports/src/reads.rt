// The rows that read or test a port, and leave ACC or SF by it.
ghost use Rattle.std.specs.Prelude.{◌≡◌, ◌<◌};
ghost use Rattle.row_ports.specs.Ends.{Tells, bit_answer, port_tested, port_loaded};
ghost use Rattle.row_ports.specs.Ported.{Reads, ReadFits, Readable};

use crate::ends::left;
use alu::Made;
use bits::has_bit;
use device::Options;
use numbers::Stop;
use ports::read_port;
use record::Core;
use row::Turn;
use row_ends::Register::Acc;
use row_ends::{logical, tested};
use row_registers::weight;
use sheet::rows;

// TTP asks whether the bit is 1, TFP and TFPL whether it is 0.
fn answered(one: bool, v: u8, w: u8) -> bool
    requires { 0 < w }
    ensures { result ≡ bit_answer one v w }
{
    has_bit(v, w) == one
}

// - - *, by a row of so many bytes.
#[tactic(auto, using(crate::proofs::Stops::named), unfolding(crate::specs::Ends::after_read))]
fn port_tested(options: Options, m: Core, n: u8, w: u8, one: bool, bytes: u8) -> Result<Turn, Stop>
    requires { (Readable options.device m n) × (0 < w) }
    ensures { Tells m (port_tested options m n w one bytes) result }
{
    let read = read_port(options.device, options.sound, m.pins, m.ports, n)?;
    let act = tested(m, answered(one, read.value, w), bytes, 2);
    Ok(left(m, act, read.ports))
}

// INA: - Z Z'
#[tactic(auto, using(crate::proofs::Stops::named), unfolding(crate::specs::Ends::after_read))]
fn port_loaded(options: Options, m: Core, n: u8) -> Result<Turn, Stop>
    requires { Readable options.device m n }
    ensures { Tells m (port_loaded options m n) result }
{
    let read = read_port(options.device, options.sound, m.pins, m.ports, n)?;
    let moved = Made {
        value: read.value,
        carry: false,
    };
    Ok(left(m, logical(m, Some(Acc), moved, 2, 2), read.ports))
}

// TFPL names port LR 3..2 + 4 and bit LR 1..0. The row that is none of those named is INA.
#[tactic(auto, using(crate::proofs::Stops::alone), unfolding(sheet::specs::Table::line_at, sheet::specs::Table::lines, row::specs::Rows::work_of, row::specs::Steps::put_step, alu::specs::Making::made, alu::specs::Flags::flag_after, crate::specs::Ends::after_read))]
pub fn read_row(options: Options, m: Core, row: u8, a: u8, b: u8) -> Result<Turn, Stop>
    requires { ReadFits options.device m row b }
    ensures { Reads options m row a b result }
{
    let lr = m.regs.lr;
    match row {
        rows::TFP => port_tested(options, m, b, weight(a), false, 2),
        rows::TFPL => port_tested(options, m, lr / 4 + 4, weight(lr), false, 1),
        rows::TTP => port_tested(options, m, b, weight(a), true, 2),
        _ => port_loaded(options, m, b),
    }
}
