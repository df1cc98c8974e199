// The rows of the brackets, as places of the table; by `as`, since a constant's value may hold no call.
use crate::row;

pub const FUNCTION: usize = row::FUNCTION as usize;

pub const WHILE: usize = row::WHILE as usize;

pub const IF: usize = row::IF as usize;

pub const ELSE: usize = row::ELSE as usize;

pub const END: usize = row::END as usize;
