// What a state says and why a path is right; no code.
#![tactic(auto)]
