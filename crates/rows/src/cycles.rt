// The tracer, a cycle, and what a continuation makes.
pub mod cycle;
pub mod live;
pub(crate) mod made;
pub(crate) mod scan;
mod tally;
pub mod tracer;
