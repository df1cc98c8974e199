// The table of the 62 kinds, and the names of its rows and of what stands in its columns.
#![tactic(auto)]

pub mod row; // the rows
pub mod bracket; // those of the brackets, as places
pub mod shape; // the payloads
pub mod need; // the lanes needed
pub mod known; // the lanes known after
pub mod kinds; // the table
