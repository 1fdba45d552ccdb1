// Traces as value change dumps: writing one, and reading those back that are written here.
// Cells are lent as C lends them, rows by stride; nothing is allocated, so that a row's values are an array of fixed room.
#![tactic(auto)]

mod header;
mod lengths;
mod lent_row;
mod lines;
mod numeral;
mod read;
mod read_rows;
pub mod read_text;
mod scan;
mod text;
pub mod write;
