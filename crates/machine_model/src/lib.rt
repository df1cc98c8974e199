// The machine as definitions (specs/) and theorems on them (proofs/), with no code: what the code of the machine is proved to meet.
#![tactic(auto)]
