// The lowest layer: cells are numbers modulo p = 2^64 - 2^32 + 1.
#![tactic(auto)]

pub mod cell;
pub mod felt;
pub mod inverse;
mod table;
