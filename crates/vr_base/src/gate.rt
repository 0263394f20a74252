/// A place in the making of a call.
#[derive(Clone, Copy, Debug, PartialEq, Eq)]
pub enum Point {
    /// Before the call is handed in.
    BeforeAsk,
    /// A run was made, and its changes are not kept yet.
    RunMade,
    /// Before the changes of a run are kept.
    BeforeCommit,
}

/// Holds calls up at chosen places, so that a test can bring about an order of them.
pub trait Gate {
    fn pause(&self, point: Point);
}

/// Holds nothing up.
#[derive(Clone, Copy, Debug)]
pub struct NoGate;

impl Gate for NoGate {
    fn pause(&self, _point: Point) {}
}
