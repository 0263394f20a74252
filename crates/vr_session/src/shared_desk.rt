ghost use Rattle.std.specs.Prelude.{◌≡◌};
ghost use Rattle.vr_core.specs.History.{IsLegal};
ghost use Rattle.vr_core.specs.Machine.{Origin};
ghost use Rattle.vr_session.specs.SharedBooks.{TakesCall};
ghost use Rattle.vr_session.specs.Workers.{IsSeatOf};

use crate::shared::Shared;
use crate::shared_book::SharedBook;
use std::sync::Wait;
use vr_base::{Call, Desk, Front, Gate, Point, Reply};
use vr_keeper::Keeper;
use vr_turn::TurnSeat;

/// A desk from which calls of a shared book are made, in turn with other desks. What its seat has
/// seen is legal and isolated from the book's origin on.
#[derive(Drop)]
pub struct SharedDesk<'a, R: Wait, K: Keeper, G: Gate> {
    rt: &'a R,
    shared: &'a Shared<K, G>,
    seat: TurnSeat<SharedBook<K>>,
    ghost of_turn: { IsSeatOf shared.now.turn seat },
}

impl<'a, R: Wait, K: Keeper, G: Gate> SharedDesk<'a, R, K, G> {
    /// A desk at a seat of the book's turn. A thread that waits for its turn waits by `rt`.
    pub fn new(
        rt: &'a R,
        shared: &'a Shared<K, G>,
        seat: TurnSeat<SharedBook<K>>,
    ) -> SharedDesk<'a, R, K, G>
        requires of_turn { IsSeatOf shared.now.turn seat }
        ensures seat { result.seat ≡ seat }
        ensures shared { result.shared.now ≡ shared.now }
    {
        SharedDesk { rt, shared, seat }
    }

    /// Gives the seat back, with what it has seen.
    pub fn into_seat(self) -> TurnSeat<SharedBook<K>>
        ensures seat { result ≡ self.entry.seat }
        ensures of_turn { IsSeatOf self.entry.shared.now.turn result }
    {
        let SharedDesk {
            rt: _,
            shared: _,
            seat,
        } = self;
        seat
    }
}

impl<'a, R: Wait, K: Keeper, G: Gate> Desk for SharedDesk<'a, R, K, G> {
    ghost use Rattle.std.specs.Prelude.{◌≤◌, length};
    ghost use Rattle.vr_base.specs.Desks.{IsLicensed, Sees};
    ghost use Rattle.vr_core.specs.Isolation.{IsIsolatedHistory};
    ghost use Rattle.vr_session.specs.SharedBooks.{Asks};

    ghost Origin = { Origin };

    ghost origin = { λ desk. desk.shared.now.turn.first.book.origin };

    ghost seat = { λ desk. desk.seat.knows.number };

    ghost seen = { λ desk. desk.seat.knows.seen };

    ghost faults = { λ desk. desk.seat.knows.faults };

    ghost found = { λ desk. desk.seat.knows.found };

    /// As the trait says. What the seat has seen then is legal and isolated from the book's origin
    /// on, and before the call's own entry the seat's numbers have no entry that it hadn't seen.
    fn ask(&mut self, who: u32, call: Call) -> (Reply, Front)
        ensures shared { self.new.shared.now ≡ self.old.shared.now }
        ensures seat { self.new.seat.knows.number ≡ self.old.seat.knows.number }
        ensures origin { self.new.shared.now.turn.first.book.origin
            ≡ self.old.shared.now.turn.first.book.origin }
        ensures seen { Sees self.old.seat.knows.number who call result.0
            self.old.seat.knows.seen self.new.seat.knows.seen }
        ensures front { result.1.entries ≡ length self.new.seat.knows.seen }
        ensures asks { Asks K.faults self.old.shared.now.turn.first.book.origin
            self.old.seat.knows who call result.0 self.new.seat.knows }
        ensures legal { IsLegal self.old.shared.now.turn.first.book.origin
            self.new.seat.knows.seen }
        ensures isolated { IsIsolatedHistory self.old.shared.now.turn.first.book.origin
            self.new.seat.knows.seen }
        ensures later { self.old.seat.knows.faults ≤ self.new.seat.knows.faults }
        ensures licensed { result.0 ≡ Reply.Unavailable
            → IsLicensed self.old.seat.knows.faults self.new.seat.knows.found
            self.new.seat.knows.faults }
    {
        self.shared.gate.pause(Point::BeforeAsk);
        let number = self.seat.number();
        let (reply, entries) = self.shared.turn.with_turn(
            self.rt,
            &mut self.seat,
            |book: &mut SharedBook<K>| -> (Reply, u64)
                ensures { TakesCall K.faults number who call book.old.book book.new.book
                    result.0 result.1 }
            { book.call(number, who, call) },
        );
        (reply, Front { entries })
    }
}
