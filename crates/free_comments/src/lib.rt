// That comments change nothing of what a patch does, as theorems on the model (proofs/), with no code.
#![tactic(auto)]
