// Nothing but definitions (specs/) and theorems (proofs/): change request N2, what comes of cells from p on, and that what is written is below p.
#![tactic(auto)]
