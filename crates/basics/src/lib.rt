// What any crate may use: the limits and the choice of specs/, and the general laws of proofs/, with no code.
#![tactic(auto)]
