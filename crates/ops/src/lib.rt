// Ops, and their records in a patch file.
#![tactic(auto)]

pub mod op; // how Get reads and how Put writes, and what FFI Call calls
pub mod writer; // one record to bytes
pub mod refusals; // why a file is refused
pub mod records; // the record at a place
