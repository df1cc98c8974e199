// Flattening: each function's own ops, then main.
#![tactic(auto)]

pub mod body; // an entry of the caller's list
mod numbering; // the body that each op is in
mod bodies; // the records of the bodies, one body after another
pub mod numbers; // a whole file, with the entries of the bodies in three lists of numbers
pub mod flatten; // a whole file, with the entries in the caller's list
pub mod export; // the same for callers in C and Rust
pub mod handed; // the same, with the written patch handed on
