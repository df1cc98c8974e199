// What the device answers: a value taken or given, or why there is none.

// What Get takes: the value, and the input place after what it took.
#[derive(Clone, Copy, PartialEq, Eq, Debug)]
pub struct Taken {
    pub value: u64,
    pub at: usize,
}

// What Peek takes: the value, and the ring's first place and count after it.
#[derive(Clone, Copy, PartialEq, Eq, Debug)]
pub struct Peeked {
    pub value: u64,
    pub first: usize,
    pub waiting: usize,
}

impl Peeked {
    // The values that may wait in the channel, the last count accepted: it is a ring of so many places.
    pub const CHANNEL: usize = 256;
}

// Why Peek takes nothing. NotARing is the public form of 37.
#[derive(Clone, Copy, PartialEq, Eq, Debug)]
pub enum PeekError {
    Empty,
    NotARing,
}

// Why Poke sends nothing.
#[derive(Clone, Copy, PartialEq, Eq, Debug)]
pub enum PokeError {
    Full,
    NotARing,
}
