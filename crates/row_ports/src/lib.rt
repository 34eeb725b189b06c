// The rows of the ports: an arm a row, on the scalars and, for INM and OUTM, a nibble of RAM, each proved to be its line of the table.
#![tactic(auto)]

mod ends;
pub mod memory;
pub mod reads;
pub mod writes;
