// Nothing but definitions (specs/) and theorems (proofs/): document 01's cases C1 to C10, and the limit of 2^24 rows.
#![tactic(auto)]
