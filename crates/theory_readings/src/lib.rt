// Nothing but definitions (specs/) and theorems (proofs/): what a trace is, its reading, and the right answer of a reader.
#![tactic(auto)]
