// Rows and passes: the records that rows are made from, rows one by one, replay, the finishing passes over a buffer of rows.
// Records, queues and buffers are lent as C lends them, numbers by stride; nothing is allocated, so that tables have fixed room.
#![tactic(auto)]

pub mod cycles;
pub mod passes;
pub mod records;
pub mod replay;
mod sorted;
