// The index of a trace's blocks: one built beside a finished trace, and the way from a row to the block it belongs to.
// The index is lent as C lends it, three numbers a block; nothing is allocated, so that lists have fixed room.
#![tactic(auto)]

pub mod build;
mod change;
pub mod enclosing;
mod fill;
