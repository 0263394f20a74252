ghost use Rattle.std.specs.Prelude.{◌≡◌, ◌≤◌, ◌⊎◌, ℕ, List, Option, Ok, Some, IfSome, IsSome, OnOk};
ghost use Rattle.vr_base.specs.Causes.{HasCause, HasCauseOf, Rose};
ghost use Rattle.vr_base.specs.Links.{EndedLink, IsFresh, IsGivenBack};
ghost use Rattle.vr_face.specs.Doors.{Attends, Counts, GivesBack, IsOver, IsServed, Lowers, desk_state, is_want, says_want, unless_wanted};

use crate::keys::Keys;
use crate::sessions::{SessionEnd, serve_session};
use std::alloc::Global;
use vr_base::{Desk, Failed, Link};

/// Hands out a bounded number of connections and takes back those that were served.
pub trait Door {
    type Conn: Link;

    /// How many connections it may still hand out.
    ghost left: { Self → ℕ };

    /// The connections that were given back, where the door tells them.
    ghost ended: { Self → Option (List EndedLink) };

    /// How many connections were handed out, where the door tells that.
    ghost handed_out: { Self → Option ℕ };

    /// How often a call has failed.
    ghost faults: { Self → ℕ };

    /// Waits for the next connection, where one more may be handed out.
    fn next(&mut self) -> Result<Option<Self::Conn>, Failed>
        ensures fresh { (conn : Self.Conn) → result ≡ Ok (Some conn) →
            IsFresh (Self.Conn.input conn) (Self.Conn.left conn)
            (Self.Conn.written conn) (Self.Conn.Source.faults conn) }
        ensures told { (conn : Self.Conn) → result ≡ Ok (Some conn) → IfSome (ended self.old)
            (λ _. IsSome (Self.Conn.input conn) × IsSome (Self.Conn.written conn)) }
        ensures left { Lowers (left self.old) (left self.new) result }
        ensures handed_out { Counts (handed_out self.old) (handed_out self.new) result }
        ensures over { IsOver (handed_out self.old) (left self.old) result }
        ensures ended { ended self.new ≡ ended self.old }
        ensures cause { HasCause (faults self.old) (faults self.new) result };

    /// Takes back a connection that was served with this end.
    fn back(&mut self, conn: Self::Conn, end: SessionEnd)
        requires { IsServed (Self.Conn.input conn) (Self.Conn.written conn)
            (Self.Conn.Source.faults conn) end }
        ensures ended { IsGivenBack (ended self.old) (ended self.new) (Self.Conn.input conn)
            (Self.Conn.written conn) (Self.Conn.Source.faults conn) }
        ensures left { left self.new ≡ left self.old }
        ensures handed_out { handed_out self.new ≡ handed_out self.old }
        ensures later { faults self.old ≤ faults self.new };
}

/// What kept connections of a door from being served whole, beside the faults of their links.
#[derive(Clone, Copy, Debug, PartialEq, Eq)]
pub enum AttendFault {
    /// A session wanted memory. Those after it were served all the same.
    OutOfMemory,
    /// The door failed, and counted it.
    Failed,
}

pub(crate) fn is_want(end: SessionEnd) -> bool
    ensures { result ≡ is_want end }
{
    matches!(end, SessionEnd::WantOfMemory)
}

/// The answer, unless a session wanted memory.
fn unless_wanted(wanted: bool, answer: Result<(), AttendFault>) -> Result<(), AttendFault>
    ensures { result ≡ unless_wanted wanted answer }
{
    if wanted {
        Err(AttendFault::OutOfMemory)
    } else {
        answer
    }
}

/// Serves a connection and gives it back, and answers whether its session wanted memory.
fn serve_conn<D: Desk, P: Door>(
    alloc: Global,
    desk: &mut D,
    keys: &Keys,
    door: &mut P,
    mut conn: P::Conn,
) -> bool
    requires { IsFresh (P.Conn.input conn) (P.Conn.left conn)
        (P.Conn.written conn) (P.Conn.Source.faults conn) }
    ensures given_back { IfSome (P.ended door.new) (λ list. GivesBack keys.now (D.seat desk.old)
        (P.ended door.old) list (desk_state (D.seen desk.old) (D.faults desk.old))
        (desk_state (D.seen desk.new) (D.faults desk.new)) result) }
    ensures left { P.left door.new ≡ P.left door.old }
    ensures handed_out { P.handed_out door.new ≡ P.handed_out door.old }
    ensures later { P.faults door.old ≤ P.faults door.new }
    ensures seat { D.seat desk.new ≡ D.seat desk.old }
    ensures origin { D.origin desk.new ≡ D.origin desk.old }
{
    let end = serve_session(alloc, desk, keys, &mut conn);
    door.back(conn, end);
    is_want(end)
}

/// Serves each connection that the door hands out, and gives it back, until there are no more or
/// the door fails. A fault of a session ends that session alone.
pub fn attend<D: Desk, P: Door>(
    alloc: Global,
    desk: &mut D,
    keys: &Keys,
    door: &mut P,
) -> Result<(), AttendFault>
    ensures attends { IfSome (P.ended door.new) (λ list. Attends keys.now (D.seat desk.old)
        (P.ended door.old) list (P.handed_out door.old) (P.handed_out door.new)
        (desk_state (D.seen desk.old) (D.faults desk.old))
        (desk_state (D.seen desk.new) (D.faults desk.new)) (says_want result)) }
    ensures over { OnOk result (IfSome (P.handed_out door.new) (λ _. P.left door.new ≡ 0)) }
    ensures all { IfSome (P.handed_out door.new) (λ _.
        (P.left door.new ≡ 0) ⊎ Rose (P.faults door.old) (P.faults door.new)) }
    ensures seat { D.seat desk.new ≡ D.seat desk.old }
    ensures origin { D.origin desk.new ≡ D.origin desk.old }
    ensures cause { HasCauseOf AttendFault.Failed (P.faults door.old) (P.faults door.new) result }
{
    let mut wanted = false;
    loop {
        match door.next() {
            Ok(Some(conn)) => wanted |= serve_conn(alloc, desk, keys, door, conn),
            Ok(None) => return unless_wanted(wanted, Ok(())),
            Err(Failed) => return unless_wanted(wanted, Err(AttendFault::Failed)),
        }
    }
}
