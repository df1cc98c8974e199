// What the exported operations promise together, as theorems on their contracts (proofs/), with no code.
#![tactic(auto)]
