// Theory without code: the index of a reading's blocks.
#![tactic(auto)]
