// Little-endian numbers in bytes.
#![tactic(auto)]

pub mod read; // a number, or a Set's values
pub mod write; // bytes, or a number
