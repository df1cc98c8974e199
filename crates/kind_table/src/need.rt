// The lanes that an op needs: none, one, its own count, or one in the check and none in a run.
#[derive(Clone, Copy, PartialEq, Eq, Debug)]
pub enum Need {
    NoLane,
    OneLane,
    OwnLanes,
    OneInCheck,
}
