ghost use Rattle.std.specs.Prelude.{◌≡◌, ◌≤◌, ◌+◌, IfSome, OnOk};
ghost use Rattle.vr_base.specs.Causes.{HasCauseOf};
ghost use Rattle.vr_face.specs.Doors.{Attends, desk_state, says_want};
ghost use Rattle.vr_session.specs.Workers.{IsSeatOf, Regains, Stays};

use crate::beside::{Part, beside};
use crate::crossing::may_cross;
use crate::locked_door::LockedDoor;
use crate::shared::Shared;
use crate::shared_book::SharedBook;
use crate::worker_desk::WorkerDesk;
use std::alloc::Global;
use std::sync::{Mutex, Wait};
use std::thread::Threads;
use vr_base::{Gate, Listener, NoMemory};
use vr_face::{AttendFault, Door, Keys, Opening, Porch, attend};
use vr_keeper::Keeper;
use vr_policy_check::CheckedPolicy;
use vr_turn::TurnSeat;

/// Serves at a seat each connection that the door hands out.
pub(crate) fn serve_at<R: Wait, K: Keeper, G: Gate, P: Door>(
    rt: &R,
    alloc: Global,
    shared: &Shared<K, G>,
    keys: &Keys,
    door: &mut P,
    seat: TurnSeat<SharedBook<K>>,
) -> (Result<(), AttendFault>, TurnSeat<SharedBook<K>>)
    requires seat { IsSeatOf shared.now.turn seat }
    ensures seat { IsSeatOf shared.now.turn result.1 }
    ensures stays { Stays seat.knows result.1.knows }
    ensures attends { IfSome (P.ended door.new) (λ list. Attends keys.now seat.knows.number
        (P.ended door.old) list (P.handed_out door.old) (P.handed_out door.new)
        (desk_state seat.knows.seen seat.knows.faults)
        (desk_state result.1.knows.seen result.1.knows.faults) (says_want result.0)) }
    ensures over { OnOk result.0 (IfSome (P.handed_out door.new) (λ _. P.left door.new ≡ 0)) }
    ensures cause { HasCauseOf AttendFault.Failed (P.faults door.old) (P.faults door.new)
        result.0 }
{
    let mut desk = WorkerDesk::new(rt, shared, seat);
    let answer = attend(alloc, &mut desk, keys, door);
    (answer, desk.into_seat())
}

/// What a worker needs beside its seat: the book and the porch that it shares with the others, the
/// keys, and how many connections it may take.
#[derive(Drop)]
pub(crate) struct Worker<'a, R: Wait, L: Listener + Drop, O: Opening, K: Keeper, G: Gate> {
    pub(crate) rt: &'a R,
    pub(crate) alloc: Global,
    pub(crate) shared: &'a Shared<K, G>,
    pub(crate) keys: &'a Keys,
    pub(crate) porch: &'a Mutex<Porch<L, O>>,
    pub(crate) sessions: u32,
}

impl<'a, R: Wait, L: Listener + Drop, O: Opening, K: Keeper, G: Gate> Part
    for Worker<'a, R, L, O, K, G> {
    ghost use Rattle.vr_session.specs.Workers.{IsSeatOf, Stays};

    type Seat = TurnSeat<SharedBook<K>>;

    ghost ready = { λ worker seat. IsSeatOf worker.shared.now.turn seat };

    ghost done = { λ worker old new.
        IsSeatOf worker.shared.now.turn new × Stays old.knows new.knows };

    /// Serves what the porch hands out to this worker. What came of it the porch keeps in mind.
    fn work(&self, seat: TurnSeat<SharedBook<K>>) -> TurnSeat<SharedBook<K>> {
        let mut door = LockedDoor::new(self.rt, self.porch, self.sessions);
        let (_answer, seat) = serve_at(
            self.rt,
            self.alloc,
            self.shared,
            self.keys,
            &mut door,
            seat,
        );
        seat
    }
}

/// Does a worker's part in a thread of its own, and beside it in this one what the others do.
fn work_beside<
    R: Threads + Wait + Sync,
    L: Listener + Send + Drop,
    O: Opening + Send,
    K: Keeper + Send,
    G: Gate + Sync + Drop,
    T,
    F: FnOnce() -> T,
>(
    worker: &Worker<R, L, O, K, G>,
    seat: TurnSeat<SharedBook<K>>,
    others: F,
) -> (TurnSeat<SharedBook<K>>, T)
where
    L::Conn: Send,
    requires seat { IsSeatOf worker.now.shared.now.turn seat }
    requires others { F.pre others }
    ensures seat { IsSeatOf worker.now.shared.now.turn result.0 }
    ensures stays { Stays seat.knows result.0.knows }
    ensures others { F.post others result.1 }
{
    may_cross::<CheckedPolicy>();
    beside(worker.rt, worker, seat, others)
}

/// Serves by so many workers, each at a seat of its own, which the seat splits off and takes in
/// again. Each has a thread of its own, or where none can be made, works in this one after the
/// others.
#[cycle(workers)]
pub(crate) fn serve_by_workers<
    R: Threads + Wait + Sync,
    L: Listener + Send + Drop,
    O: Opening + Send,
    K: Keeper + Send,
    G: Gate + Sync + Drop,
>(
    worker: &Worker<R, L, O, K, G>,
    seat: TurnSeat<SharedBook<K>>,
    workers: u32,
) -> TurnSeat<SharedBook<K>>
where
    L::Conn: Send,
    requires seat { IsSeatOf worker.now.shared.now.turn seat }
    requires room { seat.knows.next + workers ≤ seat.knows.end }
    ensures seat { IsSeatOf worker.now.shared.now.turn result }
    ensures regains { Regains seat.knows result.knows }
{
    if workers == 0 {
        return seat;
    }
    let mut seat = seat;
    let own = match worker.shared.split(&mut seat) {
        Ok(own) => own,
        Err(NoMemory) => return seat,
    };
    let left = workers - 1;
    let others = move || -> TurnSeat<SharedBook<K>>
        requires { IsSeatOf worker.now.shared.now.turn seat
            × (seat.knows.next + left ≤ seat.knows.end) }
        ensures { IsSeatOf worker.entry.now.shared.now.turn result
            × Regains seat.knows result.knows }
    { serve_by_workers(worker, seat, left) };
    let (own, mut seat) = work_beside(worker, own, others);
    worker.shared.join(&mut seat, own);
    seat
}
