// Groups in a block: the batches that a block lends, batch flags, the group of an operation, and how many groups are left.
// Batches are lent as C lends them, numbers by stride.
#![tactic(auto)]

pub mod batch;
pub mod constants;
pub mod context;
pub mod flags;
pub mod group;
pub mod helpers;
pub mod refusal;
pub mod sum;
pub mod word;
