// Nothing but definitions (specs/) and theorems (proofs/): inputs that were answered before change request N2 get the same cells. Nothing stands on it.
#![tactic(auto)]
