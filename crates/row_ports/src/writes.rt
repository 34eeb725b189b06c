// The rows that write a port, whole or a bit of it.
ghost use Rattle.std.specs.Prelude.{◌≡◌, ◌<◌};
ghost use Rattle.row_ports.specs.Ends.{Tells, bit_set, bit_cleared};
ghost use Rattle.row_ports.specs.Ported.{Writes, WriteFits, NibbleLatches, Held, Names};

use crate::ends::written;
use bits::{with_bit, without_bit};
use device::{Device, Options};
use numbers::Stop;
use ports::{Ports, latch};
use record::Core;
use row::Turn;
use row_registers::weight;
use sheet::rows;

// What the latch of a port holds.
fn held(p: Ports, n: u8) -> u8
    requires { (NibbleLatches p) × (n < 32) }
    ensures { Held p n result }
{
    latch(p, n)
}

// "Set and clear use the latch." A bit is named by its weight.
fn bit_set(d: Device, m: Core, n: u8, w: u8, bytes: u8) -> Result<Turn, Stop>
    requires { Names m n w }
    ensures { Tells m (bit_set d m n w bytes) result }
{
    written(d, m, n, with_bit(held(m.ports, n), w), bytes)
}

fn bit_cleared(d: Device, m: Core, n: u8, w: u8, bytes: u8) -> Result<Turn, Stop>
    requires { Names m n w }
    ensures { Tells m (bit_cleared d m n w bytes) result }
{
    written(d, m, n, without_bit(held(m.ports, n), w), bytes)
}

// CLPL and SEPL name port LR 3..2 + 4 and bit LR 1..0. The row that is none of those named is OUTA.
#[tactic(auto, unfolding(sheet::specs::Table::line_at, sheet::specs::Table::lines, row::specs::Rows::work_of, row::specs::Steps::put_step, alu::specs::Making::made, alu::specs::Flags::flag_after, crate::specs::Ends::written))]
pub fn write_row(options: Options, m: Core, row: u8, a: u8, b: u8) -> Result<Turn, Stop>
    requires { WriteFits m row b }
    ensures { Writes options m row a b result }
{
    let d = options.device;
    let lr = m.regs.lr;
    match row {
        rows::CLP => bit_cleared(d, m, b, weight(a), 2),
        rows::CLPL => bit_cleared(d, m, lr / 4 + 4, weight(lr), 1),
        rows::SEP => bit_set(d, m, b, weight(a), 2),
        rows::SEPL => bit_set(d, m, lr / 4 + 4, weight(lr), 1),
        rows::OUT => written(d, m, b, a, 2),
        _ => written(d, m, b, m.regs.acc, 2),
    }
}
