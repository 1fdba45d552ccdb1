// Nothing but definitions (specs/) and theorems (proofs/): demand 3 in one place, that no SYSCALL is written and the overflow rule beside it.
#![tactic(auto)]
