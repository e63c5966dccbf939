// The machine of a list of filters; no code.
#![tactic(auto)]
