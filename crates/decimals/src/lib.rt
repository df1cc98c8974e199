// Numbers in the input: where spaces and digits end, and the float that a decimal writes.
#![tactic(auto)]

pub mod chars; // spaces and digits
pub mod float; // the whole number of digits, and its quotient by a power of ten
