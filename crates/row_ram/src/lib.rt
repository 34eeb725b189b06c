// Rows that read or write one nibble of RAM: an arm a row, on the scalars and the nibble, each proved to be its line of the table.
#![tactic(auto)]

pub mod read_hl;
pub mod read_x;
pub mod read_y;
pub mod write_hl;
pub mod write_x;
pub mod write_y;

use row_ends::Act;

// The nibble that a row stores, and what it leaves besides.
#[derive(Clone, Copy)]
pub struct Stored {
    pub value: u8,
    pub act: Act,
}
