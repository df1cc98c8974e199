// The standard device's functions, which FFI Call calls through the channel.
#![tactic(auto)]

pub mod root; // the nearest square root on 64-bit patterns
pub mod bindings; // the call
