// The readers of a patch file.
#![tactic(auto)]

pub mod record_reader; // the reader that holds the patch bytes and its place
pub mod reader; // the whole file
