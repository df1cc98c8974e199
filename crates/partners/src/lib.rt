// The partner of each bracket of a patch and the places of its marks, all found in one pass over its ops; and the patch as it is read, with them.
#![tactic(auto)]

pub mod scan; // the pass
pub mod patch; // the patch as it is read
