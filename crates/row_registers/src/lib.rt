// Rows that touch the registers alone: an arm a row, on the scalars, each proved to be its line of the table.
#![tactic(auto)]

pub mod asks;
pub mod branches;
pub mod makes;
pub mod moves;

ghost use Rattle.row_registers.specs.Weighs.{Weighs};

// The weight of the bit that an operand names.
pub fn weight(number: u8) -> u8
    ensures { Weighs number result }
{
    bits::weight(number % 4)
}
