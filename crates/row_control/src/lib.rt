// Rows that move more of the scalars than PC and the registers: calls, returns, and the interrupt bits. An arm a row, each proved to be its line of the table.
#![tactic(auto)]

pub mod calls;
pub mod latches;
pub mod returns;
