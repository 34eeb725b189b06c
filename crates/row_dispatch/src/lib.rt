// Executing one row: the arm is found by the row's group. What it gives is what the definition of crate row says.
#![tactic(auto)]

mod groups;

ghost use Rattle.std.specs.Prelude.{◌≡◌, ◌+◌, ◌<◌};
ghost use Rattle.device.specs.Device.{rom_of};
ghost use Rattle.row_dispatch.specs.Performs.{Ready, Performs, turn_of, turn_by};

use device::Options;
use device::image::Window;
use groups::{Group, group_of};
use numbers::Stop;
use record::{Core, Ram};
use row::Turn;
use row_control::calls::call;
use row_control::latches::latch;
use row_control::returns::come_back;
use row_ends::Act;
use row_pointers::Pointed;
use row_pointers::loads::{load_pointer, load_timer};
use row_pointers::rom::{load_high, load_low};
use row_pointers::stores::{store_pointer, store_timer};
use row_ports::memory::{read_to_cell, write_from_cell};
use row_ports::reads::read_row;
use row_ports::writes::write_row;
use row_ram::read_hl::read_by_hl;
use row_ram::read_x::read_by_x;
use row_ram::read_y::read_by_y;
use row_ram::write_hl::write_by_hl;
use row_ram::write_x::write_by_x;
use row_ram::write_y::write_by_y;
use row_ram_pair::{exchange_pair, load_pair};
use row_registers::asks::asked;
use row_registers::branches::branched;
use row_registers::makes::made;
use row_registers::moves::moved;
use sheet::Insn;

// The scalars with what a row changed of them.
fn with_act(m: Core, x: Act) -> Turn
    ensures { result ≡ turn_of m x }
{
    Turn {
        cycles: x.cycles,
        core: Core {
            regs: x.regs,
            pc: x.pc,
            ..m
        },
    }
}

fn with_pointed(m: Core, x: Pointed) -> Turn
    ensures { result ≡ turn_by m x }
{
    Turn {
        cycles: x.act.cycles,
        core: Core {
            regs: x.act.regs,
            pc: x.act.pc,
            ptrs: x.ptrs,
            timers: x.timers,
            ..m
        },
    }
}

// The byte at 1000h + DP.
fn rom_byte(window: Window, m: Core) -> u8
    requires { m.ptrs.dp < 4096 }
    ensures { result ≡ rom_of window.entry.bytes.now window.entry.p3 (0x1000 + m.ptrs.dp) }
{
    window.byte(0x1000 + m.ptrs.dp)
}

pub fn perform(
    window: Window,
    options: Options,
    m: Core,
    ram: &mut Ram,
    i: Insn,
) -> Result<Turn, Stop>
    requires { Ready options.device m ram.old i }
    ensures { Performs (rom_of window.entry.bytes.now window.entry.p3) options m i ram.old ram.new result }
{
    match group_of(i) {
        Group::Moves => Ok(with_act(m, moved(m, i.row, i.a as u8))),
        Group::Makes => Ok(with_act(m, made(m, i.row, i.a as u8))),
        Group::Asks => Ok(with_act(m, asked(m, i.row, i.a as u8))),
        Group::Branches => Ok(with_act(m, branched(m, i.row, i.a))),
        Group::GetPointer => Ok(with_act(m, load_pointer(m, i.row)?)),
        Group::GetTimer => Ok(with_act(m, load_timer(m, i.row)?)),
        Group::ReadByHl => Ok(with_act(m, read_by_hl(m, ram, i)?)),
        Group::ReadByX => Ok(with_act(m, read_by_x(m, ram, i)?)),
        Group::ReadByY => Ok(with_act(m, read_by_y(m, ram, i)?)),
        Group::LoadPair => Ok(with_act(m, load_pair(m, ram, i)?)),
        Group::WriteByHl => Ok(with_act(m, write_by_hl(m, ram, i)?)),
        Group::WriteByX => Ok(with_act(m, write_by_x(m, ram, i)?)),
        Group::WriteByY => Ok(with_act(m, write_by_y(m, ram, i)?)),
        Group::SwapPair => Ok(with_act(m, exchange_pair(m, ram, i)?)),
        Group::SetPointer => Ok(with_pointed(m, store_pointer(m, i.row)?)),
        Group::SetTimer => Ok(with_pointed(m, store_timer(m, i.row)?)),
        Group::RomLow => Ok(with_pointed(m, load_low(m, rom_byte(window, m)))),
        Group::RomHigh => Ok(with_pointed(m, load_high(m, rom_byte(window, m)))),
        Group::Latches => Ok(latch(m, i.row, i.a as u8)),
        Group::Returns => come_back(m, ram, i.row),
        Group::Calls => call(m, ram, i.row, i.a),
        Group::WritePort => write_row(options, m, i.row, i.a as u8, i.b),
        Group::ReadPort => read_row(options, m, i.row, i.a as u8, i.b),
        Group::PortToCell => read_to_cell(options, m, ram, i.b),
        Group::CellToPort => write_from_cell(options, m, ram, i.b),
    }
}
