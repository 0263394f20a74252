ghost use Rattle.std.specs.Thread.{IsSend};

/// That values of a type may go to another thread. A call does nothing: it is made for what it
/// ensures, which is found once then of a large type, and not again of each type that holds it.
pub(crate) fn may_cross<T: Send>()
    ensures { IsSend T.row }
{}
