// The lanes known after an op: as before, its own count, or one.
#[derive(Clone, Copy, PartialEq, Eq, Debug)]
pub enum Known {
    AsBefore,
    OwnCount,
    OneKnown,
}
