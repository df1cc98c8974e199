// What a patch file and its ops say of each other, as theorems on the definitions of ops (proofs/), with no code.
#![tactic(auto)]
