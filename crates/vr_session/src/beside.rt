ghost use Rattle.std.specs.Prelude.{◌≡◌};

use std::thread::{Threads, join};

/// A part of some work, done at a seat.
pub(crate) trait Part {
    type Seat;

    /// At which seats the part can be done.
    ghost ready: { Self → Self.Seat → Type 0 };

    /// What is known of the seat when it is done.
    ghost done: { Self → Self.Seat → Self.Seat → Type 0 };

    fn work(&self, seat: Self::Seat) -> Self::Seat
        requires ready { ready self.now seat }
        ensures done { done self.now seat result };
}

/// Does a part in a thread of its own, and beside it in this one what the others do. Where no
/// thread can be made, the part is done in this one, after theirs.
pub(crate) fn beside<R: Threads + Sync, P: Part + Sync, T, F: FnOnce() -> T>(
    rt: &R,
    part: &P,
    seat: P::Seat,
    others: F,
) -> (P::Seat, T)
where
    P::Seat: Send + Drop,
    requires ready { P.ready part.now seat }
    requires others { F.pre others }
    ensures done { P.done part.now seat result.0 }
    ensures others { F.post others result.1 }
{
    let worker = move || -> P::Seat
        requires { P.ready part.now seat }
        ensures { P.done part.entry.now seat result }
    { part.work(seat) };
    join(rt, worker, others)
}
