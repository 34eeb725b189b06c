// The rows that store ACC in DP, SP, TA or TB.
ghost use Rattle.std.specs.Prelude.{Ok, ◌≡◌, ◌<◌};
ghost use Rattle.sheet.specs.Operation.Part.{low, middle, high};
ghost use Rattle.record.specs.Ram.{bank_of};
ghost use Rattle.row.specs.Places.{part_put};
ghost use Rattle.row_ends.specs.Ends.{went_on};
ghost use Rattle.row_pointers.specs.Groups.{store_pointer, store_timer};
ghost use Rattle.row_pointers.specs.Pointed.{Leaves, Asks};

use crate::{Pointed, in_bank_0};
use numbers::Stop;
use record::{Core, Pointers, Timers};
use row_ends::went_on;
use sheet::rows;

fn low_put(n: u16, v: u8) -> u16
    requires { (n < 4096) × (v < 16) }
    ensures { result ≡ part_put low n v }
{
    n / 16 * 16 + v as u16
}

fn middle_put(n: u16, v: u8) -> u16
    requires { (n < 4096) × (v < 16) }
    ensures { result ≡ part_put middle n v }
{
    n / 256 * 256 + (v as u16) * 16 + n % 16
}

fn high_put(n: u16, v: u8) -> u16
    requires { (n < 4096) × (v < 16) }
    ensures { result ≡ part_put high n v }
{
    (v as u16) * 256 + n % 256
}

// The row that is none of those named is STADPL.
#[tactic(auto, unfolding(sheet::specs::Table::line_at, sheet::specs::Table::lines, row::specs::Rows::work_of, row::specs::Steps::put_step, alu::specs::Making::made, alu::specs::Flags::flag_after))]
fn into_pointer(m: Core, row: u8) -> Pointers
    requires { (Asks store_pointer m row) × (bank_of m ≡ 0) }
    ensures { Leaves m row (Ok (record { act = went_on m 2 2; ptrs = result; timers = m.timers })) }
{
    let v = m.regs.acc;
    let dp = m.ptrs.dp;
    match row {
        rows::STADPM => Pointers {
            dp: middle_put(dp, v),
            ..m.ptrs
        },
        rows::STADPH => Pointers {
            dp: high_put(dp, v),
            ..m.ptrs
        },
        rows::STASP => Pointers { sp: v, ..m.ptrs },
        _ => Pointers {
            dp: low_put(dp, v),
            ..m.ptrs
        },
    }
}

// The row that is none of those named is STATAL.
#[tactic(auto, unfolding(sheet::specs::Table::line_at, sheet::specs::Table::lines, row::specs::Rows::work_of, row::specs::Steps::put_step, alu::specs::Making::made, alu::specs::Flags::flag_after))]
fn into_timer(m: Core, row: u8) -> Timers
    requires { (Asks store_timer m row) × (bank_of m ≡ 0) }
    ensures { Leaves m row (Ok (record { act = went_on m 2 2; ptrs = m.ptrs; timers = result })) }
{
    let v = m.regs.acc;
    let Timers { ta, tb, .. } = m.timers;
    match row {
        rows::STATAM => Timers {
            ta: middle_put(ta, v),
            ..m.timers
        },
        rows::STATAH => Timers {
            ta: high_put(ta, v),
            ..m.timers
        },
        rows::STATBL => Timers {
            tb: low_put(tb, v),
            ..m.timers
        },
        rows::STATBM => Timers {
            tb: middle_put(tb, v),
            ..m.timers
        },
        rows::STATBH => Timers {
            tb: high_put(tb, v),
            ..m.timers
        },
        _ => Timers {
            ta: low_put(ta, v),
            ..m.timers
        },
    }
}

pub fn store_pointer(m: Core, row: u8) -> Result<Pointed, Stop>
    requires { Asks store_pointer m row }
    ensures { Leaves m row result }
{
    in_bank_0(m)?;
    Ok(Pointed {
        act: went_on(m, 2, 2),
        ptrs: into_pointer(m, row),
        timers: m.timers,
    })
}

pub fn store_timer(m: Core, row: u8) -> Result<Pointed, Stop>
    requires { Asks store_timer m row }
    ensures { Leaves m row result }
{
    in_bank_0(m)?;
    Ok(Pointed {
        act: went_on(m, 2, 2),
        ptrs: m.ptrs,
        timers: into_timer(m, row),
    })
}
