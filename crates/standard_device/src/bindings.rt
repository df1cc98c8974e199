// FFI Call: a function takes its values from the front of the channel, oldest first, and its result goes to the back.
ghost use Rattle.std.specs.Prelude.{◌≡◌, true, ◌≤◌};
ghost use Rattle.testing_device.specs.Device.{ring};
ghost use Rattle.testing_device.specs.Channel.{is_ring};
ghost use Rattle.standard_device.specs.Bindings.{inputs, result_of, call_left, call_in};

use crate::root::square_root;
use lanes::lane::{CellOp, cell_rule};
use ops::op::Binding;
use testing_device::channel::is_ring;
use testing_device::device::Peeked;

// What FFI Call gives: the ring's first place and count after it.
#[derive(Clone, Copy, PartialEq, Eq, Debug)]
pub struct Sent {
    pub first: usize,
    pub waiting: usize,
}

// Why it calls nothing. NotARing is the public form of 37.
#[derive(Clone, Copy, PartialEq, Eq, Debug)]
pub enum CallError {
    TooFew,
    NotARing,
}

// How many values a function takes.
fn inputs_of(binding: Binding) -> usize
    ensures { result ≡ inputs binding }
{
    match binding {
        Binding::SquareRoot => 1,
        Binding::Add => 2,
    }
}

// What a function makes of the oldest values of a ring.
fn result_of(binding: Binding, channel: &[u64], first: usize, waiting: usize) -> u64
    requires waiting_value { is_ring channel.now first waiting ≡ true }
    requires binding_bound { inputs binding ≤ waiting }
    ensures { result ≡ result_of binding (ring channel.now first waiting) }
{
    let a = channel[first];
    match binding {
        Binding::SquareRoot => square_root(a),
        Binding::Add => {
            let second = (first + 1) % Peeked::CHANNEL;
            cell_rule(CellOp::FloatAdd, a, channel[second])
        }
    }
}

pub fn ffi_call(
    binding: Binding,
    channel: &mut [u64],
    first: usize,
    waiting: usize,
) -> Result<Sent, CallError>
    ensures { call_left result channel.new ≡ call_in binding channel.old first waiting }
{
    if !is_ring(channel, first, waiting) {
        return Err(CallError::NotARing);
    }
    let n = inputs_of(binding);
    if waiting < n {
        return Err(CallError::TooFew);
    }
    let back = (first + waiting) % Peeked::CHANNEL;
    channel[back] = result_of(binding, channel, first, waiting);
    Ok(Sent {
        first: (first + n) % Peeked::CHANNEL,
        waiting: waiting - n + 1,
    })
}
