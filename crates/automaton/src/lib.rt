// The states that a machine meets, depth first; no code.
#![tactic(auto)]
