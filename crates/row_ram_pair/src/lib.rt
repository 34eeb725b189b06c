// LDHL and EXHL: LR and the nibble by x, HR and the nibble beside it. "Direct x: same bank."
#![tactic(auto)]

ghost use Rattle.std.specs.Prelude.{◌≡◌, ◌<◌};
ghost use Rattle.numbers.specs.Sizes.{addresses};
ghost use Rattle.row_ram.specs.Cells.{Does, Fits};
ghost use Rattle.row_ram_pair.specs.Groups.{loads, exchanges};
ghost use Rattle.row_ram_pair.specs.Ends.{hl_loaded};

use numbers::{ADDRESSES, Stop};
use record::ram::{at_x, peek, poke};
use record::{Core, Ram, Registers};
use row_ends::Act;
use sheet::Insn;

// - - 1
fn hl_loaded(m: Core, hr: u8, lr: u8) -> Act
    requires { m.pc < addresses }
    ensures { result ≡ hl_loaded m hr lr }
{
    Act {
        cycles: 2,
        pc: (m.pc + 2) % ADDRESSES,
        regs: Registers {
            hr,
            lr,
            sf: true,
            ..m.regs
        },
    }
}

// LDHL on the RAM that is lent.
pub fn load_pair(m: Core, ram: &Ram, i: Insn) -> Result<Act, Stop>
    requires { Fits loads 256 m i ram.now }
    ensures { Does m i.row i.a i.b ram.now ram.now result }
{
    let at = at_x(m, i.a)?;
    let beside = at_x(m, i.a + 1)?;
    Ok(hl_loaded(m, peek(ram, beside), peek(ram, at)))
}

// EXHL on the RAM that is lent: nothing is stored before both places are known to be there.
pub fn exchange_pair(m: Core, ram: &mut Ram, i: Insn) -> Result<Act, Stop>
    requires { Fits exchanges 256 m i ram.old }
    ensures { Does m i.row i.a i.b ram.old ram.new result }
{
    let at = at_x(m, i.a)?;
    let beside = at_x(m, i.a + 1)?; // RAM as it was
    let lr = peek(ram, at);
    poke(ram, at, m.regs.lr);
    let hr = peek(ram, beside);
    poke(ram, beside, m.regs.hr);
    Ok(hl_loaded(m, hr, lr))
}
