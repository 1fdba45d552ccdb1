// The replay of a list of calls.
pub mod calls;
mod directory;
mod pairs;
