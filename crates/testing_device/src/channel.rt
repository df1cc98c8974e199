// Peek and Poke: the oldest value taken from a ring of 256 places, and a value sent to its end.
ghost use Rattle.std.specs.Prelude.{◌≡◌};
ghost use Rattle.testing_device.specs.Channel.{is_ring, poke_left, peek_of, poke_in};

use crate::device::{PeekError, Peeked, PokeError};

pub fn is_ring(channel: &[u64], first: usize, waiting: usize) -> bool
    ensures { result ≡ is_ring channel.now first waiting }
{
    Peeked::CHANNEL <= channel.len() && first < Peeked::CHANNEL && waiting <= Peeked::CHANNEL
}

pub fn peek(channel: &[u64], first: usize, waiting: usize) -> Result<Peeked, PeekError>
    ensures { result ≡ peek_of channel.now first waiting }
{
    if !is_ring(channel, first, waiting) {
        return Err(PeekError::NotARing);
    }
    if waiting == 0 {
        return Err(PeekError::Empty);
    }
    Ok(Peeked {
        value: channel[first],
        first: (first + 1) % Peeked::CHANNEL,
        waiting: waiting - 1,
    })
}

// The ring's count after the value.
pub fn poke(
    value: u64,
    channel: &mut [u64],
    first: usize,
    waiting: usize,
) -> Result<usize, PokeError>
    ensures { poke_left result channel.new ≡ poke_in value channel.old first waiting }
{
    if !is_ring(channel, first, waiting) {
        return Err(PokeError::NotARing);
    }
    if Peeked::CHANNEL <= waiting {
        return Err(PokeError::Full);
    }
    channel[(first + waiting) % Peeked::CHANNEL] = value;
    Ok(waiting + 1)
}
