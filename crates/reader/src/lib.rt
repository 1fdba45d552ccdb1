// The reader: which buffers are traces, the depth of each row, and a row's own cells.
// Cells and depths are lent as C lends them, rows by stride; nothing is allocated, so that a list of kinds is an array of fixed room.
#![tactic(auto)]

mod depths;
mod grammar;
pub mod kept;
pub mod refused;
mod scan;
pub mod token;
pub mod trace;
pub mod view;
