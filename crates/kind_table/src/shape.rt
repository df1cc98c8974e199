// The payloads: none, text, values of 8 bytes, a lane count, an i64, an i64 and a lane count, a mode; the kinds that are left out; and a binding (02, ask 9).
#[derive(Clone, Copy, PartialEq, Eq, Debug)]
pub enum Shape {
    Empty,
    Text,
    Values,
    LaneCount,
    Amount,
    AmountAndLanes,
    Mode,
    LeftOut,
    Binding,
}
