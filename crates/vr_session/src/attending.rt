//! A book that a listener's connections are served from, by workers, and what comes back of both.
ghost use Rattle.std.specs.Prelude.{◌≡◌, ◌≤◌, ◌+◌, ◌<◌, [], Err, IfSome, OnOk};
ghost use Rattle.vr_base.specs.Causes.{Rose};
ghost use Rattle.vr_session.specs.Attendings.{ComesBack, IsAttended, ServesByOne, ServesPorch, told};
ghost use Rattle.vr_session.specs.Workers.{AttendsAlone, IsSeatOf, joint_answer};

use crate::shared::Shared;
use crate::shared_book::SharedBook;
use crate::workers::{Worker, serve_at, serve_by_workers};
use std::alloc::Global;
use std::marker::Brand;
use std::sync::{Mutex, Wait};
use std::thread::Threads;
use vr_base::{Gate, Listener, NoMemory};
use vr_core::Book;
use vr_face::{AttendFault, Keys, Opening, Porch};
use vr_keeper::Keeper;
use vr_turn::TurnSeat;

/// The answer for all sessions of a porch, of which the last ones came to this answer.
fn joint_answer(
    wanted: bool,
    failed: bool,
    last: Result<(), AttendFault>,
) -> Result<(), AttendFault>
    ensures { result ≡ joint_answer wanted failed last }
{
    if wanted {
        return Err(AttendFault::OutOfMemory);
    }
    last?;
    if failed {
        return Err(AttendFault::Failed);
    }
    Ok(())
}

/// Ends a porch whose last sessions came to this answer: the answer for all, and the listener.
fn settle<L: Listener + Drop, O: Opening>(
    porch: Porch<L, O>,
    last: Result<(), AttendFault>,
) -> (Result<(), AttendFault>, L)
    requires over { OnOk last (porch.left ≡ 0) }
    requires risen { last ≡ Err AttendFault.Failed → Rose O.faults (L.faults porch.listener) }
    ensures listener { result.1 ≡ porch.listener }
    ensures memory { last ≡ Err AttendFault.OutOfMemory
        → result.0 ≡ Err AttendFault.OutOfMemory }
    ensures attended { IsAttended O.left result.0
        (told O.listens O.handed_out O.ended O.faults)
        (told (L.listens result.1) (L.handed_out result.1) (L.ended result.1) (L.faults result.1)) }
{
    let answer = joint_answer(porch.wanted(), porch.failed(), last);
    (answer, porch.into_listener())
}

/// Serves all that the porch may hand out, by one worker, in this thread. The seat splits the
/// worker's off and takes it in again.
fn serve_alone<R: Wait, L: Listener + Drop, O: Opening, K: Keeper, G: Gate + Drop>(
    rt: &R,
    alloc: Global,
    shared: &Shared<K, G>,
    keys: &Keys,
    porch: Porch<L, O>,
    seat: TurnSeat<SharedBook<K>>,
) -> (
    Result<(), AttendFault>,
    Porch<L, O>,
    TurnSeat<SharedBook<K>>,
)
    requires seat { IsSeatOf shared.now.turn seat }
    requires room { seat.knows.next < seat.knows.end }
    requires first { (seat.knows.next ≡ 1) × (seat.knows.seen ≡ []) }
    ensures porch { ServesPorch shared.now.turn seat result.2 result.0 result.1.left
        O.faults (L.faults result.1.listener) }
    ensures one { ServesByOne keys.now seat.knows result.2.knows result.0
        (L.ended porch.listener) (L.ended result.1.listener)
        (L.handed_out porch.listener) (L.handed_out result.1.listener) }
{
    let mut porch = porch;
    let mut seat = seat;
    let own = match shared.split(&mut seat) {
        Ok(own) => own,
        Err(NoMemory) => return (Err(AttendFault::OutOfMemory), porch, seat),
    };
    let (answer, own) = serve_at(rt, alloc, shared, keys, &mut porch, own);
    shared.join(&mut seat, own);
    (answer, porch, seat)
}

/// Serves all that the porch may hand out, by so many workers in threads, and what they leave in
/// this one, unless one of their sessions wanted memory.
fn serve_together<
    R: Threads + Wait + Sync,
    L: Listener + Send + Drop,
    O: Opening + Send,
    K: Keeper + Send,
    G: Gate + Sync + Drop,
>(
    rt: &R,
    alloc: Global,
    shared: &Shared<K, G>,
    keys: &Keys,
    porch: Porch<L, O>,
    seat: TurnSeat<SharedBook<K>>,
    workers: u32,
    sessions: u32,
) -> (
    Result<(), AttendFault>,
    Porch<L, O>,
    TurnSeat<SharedBook<K>>,
)
where
    L::Conn: Send,
    requires seat { IsSeatOf shared.now.turn seat }
    requires room { seat.knows.next + workers ≤ seat.knows.end }
    ensures porch { ServesPorch shared.now.turn seat result.2 result.0 result.1.left
        O.faults (L.faults result.1.listener) }
{
    let porch = Mutex::new(porch);
    let worker = Worker {
        rt,
        alloc,
        shared,
        keys,
        porch: &porch,
        sessions,
    };
    let seat = serve_by_workers(&worker, seat, workers);
    let mut porch = porch.into_inner();
    if porch.wanted() {
        return (Err(AttendFault::OutOfMemory), porch, seat);
    }
    let (answer, seat) = serve_at(rt, alloc, shared, keys, &mut porch, seat);
    (answer, porch, seat)
}

/// Serves all that the porch may hand out, by so many workers.
fn serve_porch<
    R: Threads + Wait + Sync,
    L: Listener + Send + Drop,
    O: Opening + Send,
    K: Keeper + Send,
    G: Gate + Sync + Drop,
>(
    rt: &R,
    alloc: Global,
    shared: &Shared<K, G>,
    keys: &Keys,
    porch: Porch<L, O>,
    seat: TurnSeat<SharedBook<K>>,
    workers: u32,
    sessions: u32,
) -> (
    Result<(), AttendFault>,
    Porch<L, O>,
    TurnSeat<SharedBook<K>>,
)
where
    L::Conn: Send,
    requires seat { IsSeatOf shared.now.turn seat }
    requires room { seat.knows.next + workers ≤ seat.knows.end }
    requires first { (seat.knows.next ≡ 1) × (seat.knows.seen ≡ []) }
    ensures porch { ServesPorch shared.now.turn seat result.2 result.0 result.1.left
        O.faults (L.faults result.1.listener) }
    ensures one { workers ≡ 1 → ServesByOne keys.now seat.knows result.2.knows result.0
        (L.ended porch.listener) (L.ended result.1.listener)
        (L.handed_out porch.listener) (L.handed_out result.1.listener) }
{
    if workers == 1 {
        serve_alone(rt, alloc, shared, keys, porch, seat)
    } else {
        serve_together(rt, alloc, shared, keys, porch, seat, workers, sessions)
    }
}

/// As `attend_all`, with what the listener told at the opening.
fn attend_from<
    R: Threads + Wait + Sync,
    L: Listener + Send + Drop,
    O: Opening + Send,
    K: Keeper + Send,
    G: Gate + Sync + Drop,
>(
    rt: &R,
    alloc: Global,
    book: Book<K>,
    gate: G,
    keys: &Keys,
    listener: L,
    workers: u32,
    sessions: u32,
) -> (Result<(), AttendFault>, L, Book<K>)
where
    L::Conn: Send,
    requires empty { book.journal ≡ [] }
    requires workers { (1 ≤ workers) × (workers ≤ 16) }
    requires left { sessions ≡ O.left }
    requires handed_out { L.handed_out listener ≡ O.handed_out }
    requires faults { L.faults listener ≡ O.faults }
    requires listens { L.listens listener ≡ O.listens }
    requires ended { L.ended listener ≡ O.ended }
    ensures book { ComesBack K.rows K.is_loaded K.faults workers book result.2 }
    ensures listener { IsAttended O.left result.0
        (told O.listens O.handed_out O.ended O.faults)
        (told (L.listens result.1) (L.handed_out result.1) (L.ended result.1) (L.faults result.1)) }
    ensures one { workers ≡ 1 → IfSome (L.ended result.1) (λ list. AttendsAlone keys.now
        O.ended list O.handed_out (L.handed_out result.1)
        (K.faults book.keeper) (K.faults result.2.keeper) result.2.journal result.0) }
{
    let (shared, seat) = match Shared::new(alloc, book, gate, workers + 1) {
        Ok(made) => made,
        Err((NoMemory, book, _gate)) => {
            return (Err(AttendFault::OutOfMemory), listener, book);
        }
    };
    let porch = Porch::<L, O>::new(listener, sessions);
    let (last, porch, seat) = serve_porch(rt, alloc, &shared, keys, porch, seat, workers, sessions);
    let (answer, listener) = settle(porch, last);
    (answer, listener, shared.close(seat))
}

/// Serves connections of the listener from a book without calls, and gives both back once no
/// session runs any more. So many workers, each at a seat of its own, serve in threads of their
/// own, with `sessions` connections together; one worker serves in this thread. The work of a
/// thread that can't be started is done here, and so is what the workers leave, unless a session
/// wanted memory. After an accept that failed no more are served. If memory runs out before the
/// first session, none is served. It may wait, for connections, for the book and for its threads.
pub fn attend_all<
    R: Threads + Wait + Sync,
    L: Listener + Send + Drop,
    K: Keeper + Send,
    G: Gate + Sync + Drop,
>(
    rt: &R,
    alloc: Global,
    book: Book<K>,
    gate: G,
    keys: &Keys,
    listener: L,
    workers: u32,
    sessions: u32,
) -> (Result<(), AttendFault>, L, Book<K>)
where
    L::Conn: Send,
    requires empty { book.journal ≡ [] }
    requires workers { (1 ≤ workers) × (workers ≤ 16) }
    ensures book { ComesBack K.rows K.is_loaded K.faults workers book result.2 }
    ensures listener { IsAttended sessions result.0
        (told (L.listens listener) (L.handed_out listener) (L.ended listener) (L.faults listener))
        (told (L.listens result.1) (L.handed_out result.1) (L.ended result.1) (L.faults result.1)) }
    ensures one { workers ≡ 1 → IfSome (L.ended result.1) (λ list. AttendsAlone keys.now
        (L.ended listener) list (L.handed_out listener) (L.handed_out result.1)
        (K.faults book.keeper) (K.faults result.2.keeper) result.2.journal result.0) }
{
    attend_from::<R, L, Brand, K, G>(rt, alloc, book, gate, keys, listener, workers, sessions)
}
