// One step of the machine over what it is lent: the op at the position is found, its lanes are tested, and its family works it.
#![tactic(auto)]

pub mod columns; // a patch as it is lent
pub mod step; // the op at the position
