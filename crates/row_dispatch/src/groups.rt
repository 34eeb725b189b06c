// Which function executes a row: its group's.
ghost use Rattle.std.specs.Prelude.{◌≡◌, ◌<◌};
ghost use Rattle.sheet.specs.Fields.{InFields};
ghost use Rattle.row_dispatch.specs.Groups.{InGroup, Packs, place_of};

use Group::*;
use sheet::Insn;

#[derive(Clone, Copy)]
pub enum Group {
    Moves,
    Makes,
    Asks,
    Branches,
    GetPointer,
    GetTimer,
    ReadByHl,
    ReadByX,
    ReadByY,
    LoadPair,
    WriteByHl,
    WriteByX,
    WriteByY,
    SwapPair,
    SetPointer,
    SetTimer,
    RomLow,
    RomHigh,
    Latches,
    Returns,
    Calls,
    WritePort,
    ReadPort,
    PortToCell,
    CellToPort,
}

// The groups of the eight rows from row 8n on, by their places in the enum, a byte a row from the lowest up, and 25 for what is no row. An array of groups for sixteen rows takes 80 instructions more a step, of 340: LLVM makes each of its elements anew.
fn groups_from(n: u8) -> u64
    requires { n < 14 }
    ensures { Packs n result }
{
    match n {
        0 => 0x00_09_00_11_10_06_07_19,
        1 => 0x00_0A_0C_0A_0A_0A_0B_00,
        2 => 0x01_06_01_0C_06_01_01_00,
        3 => 0x0A_01_01_0A_01_01_0A_01,
        4 => 0x06_01_0A_06_01_0A_06_01,
        5 => 0x03_0D_0A_00_00_0B_06_0A,
        6 => 0x02_02_02_06_07_08_03_03,
        7 => 0x0C_15_15_0A_0C_15_15_0A,
        8 => 0x14_16_08_16_16_06_02_08,
        9 => 0x02_18_15_15_17_16_13_14,
        10 => 0x02_13_12_12_12_12_02_02,
        11 => 0x05_05_05_05_04_04_04_04,
        12 => 0x0F_0F_0E_0E_0E_0E_05_05,
        _ => 0x19_19_19_19_0F_0F_0F_0F,
    }
}

fn group_at(place: u8) -> Group
    requires { place < 25 }
    ensures { place_of result ≡ place }
{
    match place {
        0 => Moves,
        1 => Makes,
        2 => Asks,
        3 => Branches,
        4 => GetPointer,
        5 => GetTimer,
        6 => ReadByHl,
        7 => ReadByX,
        8 => ReadByY,
        9 => LoadPair,
        10 => WriteByHl,
        11 => WriteByX,
        12 => WriteByY,
        13 => SwapPair,
        14 => SetPointer,
        15 => SetTimer,
        16 => RomLow,
        17 => RomHigh,
        18 => Latches,
        19 => Returns,
        20 => Calls,
        21 => WritePort,
        22 => ReadPort,
        23 => PortToCell,
        _ => CellToPort,
    }
}

pub fn group_of(i: Insn) -> Group
    requires { InFields i }
    ensures { InGroup result i }
{
    let eight = groups_from(i.row / 8);
    group_at(((eight >> (8 * (i.row % 8))) % 256) as u8)
}
