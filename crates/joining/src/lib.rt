// Joining: each op of a patch pushed on the ops before it.
#![tactic(auto)]

mod entry; // an op of the file, and what is looked at of it
mod source; // the patch file, as it was read
mod met; // what two ops make of each other
mod stack; // the push of an op on the ops before it
mod write; // the ops left, as a file
pub mod join; // a whole file
pub mod handed; // the same, with the written patch handed on
