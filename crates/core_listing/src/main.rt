// Document 01's `core-listing`, C10: makes the run of a loop with the library's calls, finishes it, reads it back and writes the listing of
// its rows. Where a call refuses, its number is all that is written.
#![tactic(auto)]

mod listing;
mod run;

use listing::{write_listing, write_refusal};
use reader::trace::read_trace;
use run::{PROFILE, write_trace};
use std::io;

// The buffer and the list of depths have fixed room, since no heap is used.
fn main(rt: HostRuntime) -> io::Result<()> {
    let mut cells = [0u64; 490];
    let mut depths = [0u32; 10];
    if let Err(number) = write_trace(PROFILE, &mut cells) {
        return write_refusal(&rt, number);
    }
    if let Err(refused) = read_trace(PROFILE, &cells, &mut depths) {
        return write_refusal(&rt, u32::from(refused.refusal));
    }
    write_listing(&rt, PROFILE, &cells)
}
