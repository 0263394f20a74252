ghost use Rattle.std.specs.Prelude.{◌≡◌};
ghost use Rattle.vr_session.specs.Workers.{IsSeatOf, Stays};

use crate::shared::Shared;
use crate::shared_book::SharedBook;
use crate::shared_desk::SharedDesk;
use std::snapshot::Snapshot;
use std::sync::Wait;
use vr_base::{Call, Desk, Front, Gate, Reply};
use vr_keeper::Keeper;
use vr_turn::TurnSeat;

/// A shared desk that also tells its turn and the seat with which it began. No call changes these,
/// and the seat has the numbers that it began with.
#[derive(Drop)]
pub(crate) struct WorkerDesk<'a, R: Wait, K: Keeper, G: Gate> {
    desk: SharedDesk<'a, R, K, G>,
    opening: Snapshot<TurnSeat<SharedBook<K>>>,
    ghost stays: { Stays opening.value.knows desk.seat.knows },
}

impl<'a, R: Wait, K: Keeper, G: Gate> WorkerDesk<'a, R, K, G> {
    pub(crate) fn new(
        rt: &'a R,
        shared: &'a Shared<K, G>,
        seat: TurnSeat<SharedBook<K>>,
    ) -> WorkerDesk<'a, R, K, G>
        requires seat { IsSeatOf shared.now.turn seat }
        ensures seat { result.desk.seat ≡ seat }
        ensures opening { result.opening.value ≡ seat }
        ensures shared { result.desk.shared.now ≡ shared.now }
    {
        let opening = Snapshot::of(&seat);
        WorkerDesk {
            desk: SharedDesk::new(rt, shared, seat),
            opening,
        }
    }

    pub(crate) fn into_seat(self) -> TurnSeat<SharedBook<K>>
        ensures same { result ≡ self.entry.desk.seat }
        ensures seat { IsSeatOf self.entry.desk.shared.now.turn result }
        ensures stays { Stays self.entry.opening.value.knows result.knows }
    {
        let WorkerDesk { desk, opening: _ } = self;
        desk.into_seat()
    }
}

impl<'a, R: Wait, K: Keeper, G: Gate> Desk for WorkerDesk<'a, R, K, G> {
    ghost use Rattle.vr_turn.specs.Turns.{SeatState, TurnState};
    ghost use Rattle.vr_session.specs.declared.shared_book.SharedBook.{SharedBook};

    ghost Origin = { TurnState (SharedBook K) × SeatState };

    ghost origin = { λ worker. (worker.desk.shared.now.turn, worker.opening.value) };

    ghost seat = { λ worker. worker.desk.seat.knows.number };

    ghost seen = { λ worker. worker.desk.seat.knows.seen };

    ghost faults = { λ worker. worker.desk.seat.knows.faults };

    ghost found = { λ worker. worker.desk.seat.knows.found };

    fn ask(&mut self, who: u32, call: Call) -> (Reply, Front) {
        self.desk.ask(who, call)
    }
}
