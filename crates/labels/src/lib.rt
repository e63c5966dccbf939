// Tables whose records can be given states, and what a walk through one tells; no code.
#![tactic(auto)]
