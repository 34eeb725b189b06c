// INM and OUTM: a port and the nibble of RAM by HL. Of two stops it is the first by "the order is the table's": 31 before 33 and 34.
ghost use Rattle.row_ports.specs.Ported.{ToCell, FromCell, ToCellFits, FromCellFits};

use crate::ends::{left, written};
use device::Options;
use numbers::Stop;
use ports::read_port;
use record::ram::{at_hl, peek, poke};
use record::{Core, Ram};
use row::Turn;
use row_ends::tested;

// INM: - - Z'
pub fn read_to_cell(options: Options, m: Core, ram: &mut Ram, b: u8) -> Result<Turn, Stop>
    requires { ToCellFits options.device m b }
    ensures { ToCell options m b ram.old ram.new result }
{
    let at = at_hl(m)?;
    let read = read_port(options.device, options.sound, m.pins, m.ports, b)?;
    poke(ram, at, read.value);
    Ok(left(m, tested(m, read.value != 0, 2, 2), read.ports))
}

// OUTM: - - 1
pub fn write_from_cell(options: Options, m: Core, ram: &Ram, b: u8) -> Result<Turn, Stop>
    requires { FromCellFits m b ram.now }
    ensures { FromCell options m b ram.now result }
{
    let v = peek(ram, at_hl(m)?);
    written(options.device, m, b, v, 2)
}
