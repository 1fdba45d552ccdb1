// What the programs that run lists of vectors share: a list read from a text file, its numbers from a place on, the runner of its vectors,
// copies of lists, changes to them, and what calls are given (rows, a profile, helper registers).
#![tactic(auto)]

pub mod changes;
pub mod copies;
pub mod given;
pub mod numbers;
pub mod registers;
pub mod runner;
pub mod text;
