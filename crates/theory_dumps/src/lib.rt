// Theory, no code: traces as value change dumps.
#![tactic(auto)]
