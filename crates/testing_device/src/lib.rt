// The testing device: input values, output values and the channel, over lent slices.
#![tactic(auto)]

pub mod channel;
pub mod device;
pub mod input;
pub mod output;
