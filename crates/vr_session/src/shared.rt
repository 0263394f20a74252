ghost use Rattle.std.specs.Prelude.{◌≡◌, ◌≤◌, ◌<◌, [], IfOk, IfErr};
ghost use Rattle.vr_core.specs.History.{IsBook};
ghost use Rattle.vr_turn.specs.Seats.{first_knowledge, gave, given};
ghost use Rattle.vr_turn.specs.Turns.{Closes, HasAll, IsJoined};
ghost use Rattle.vr_session.specs.Workers.{IsSeatOf};

use crate::shared_book::SharedBook;
use std::alloc::Global;
use vr_base::{Gate, NoMemory};
use vr_core::Book;
use vr_keeper::Keeper;
use vr_turn::{Chronicle, Turn, TurnSeat};

/// One book, of which several threads make calls in turn, and the gate that may hold them up.
#[derive(Drop)]
pub struct Shared<K: Keeper, G: Gate> {
    pub(crate) turn: Turn<SharedBook<K>>,
    pub(crate) gate: G,
}

impl<K: Keeper, G: Gate + Drop> Shared<K, G> {
    /// The turn over a book without calls, and its first seat, which has number 0 and may give all
    /// other numbers below `most`. If memory runs out, the book and the gate come back.
    pub fn new(
        alloc: Global,
        book: Book<K>,
        gate: G,
        most: u32,
    ) -> Result<(Shared<K, G>, TurnSeat<SharedBook<K>>), (NoMemory, Book<K>, G)>
        requires empty { book.journal ≡ [] }
        requires most { 1 ≤ most }
        ensures ok { IfOk result (λ s. (s.0.turn.most ≡ most) × (s.0.turn.first.book ≡ book)
            × (s.1.turn ≡ s.0.turn.id) × (s.0.gate ≡ gate)
            × (s.1.knows ≡ first_knowledge most (K.faults book.keeper))) }
        ensures first { IfOk result (λ s. IsSeatOf s.0.turn s.1) }
        ensures err { IfErr result (λ e. (e.1 ≡ book) × (e.2 ≡ gate)) }
    {
        match Turn::new(alloc, SharedBook { book }, most) {
            Ok((turn, seat)) => Ok((Shared { turn, gate }, seat)),
            Err((refusal, SharedBook { book })) => Err((refusal, book, gate)),
        }
    }

    /// A new seat, with the least number that the seat may still give.
    pub fn split(
        &self,
        seat: &mut TurnSeat<SharedBook<K>>,
    ) -> Result<TurnSeat<SharedBook<K>>, NoMemory>
        requires seat { seat.old.turn ≡ self.now.turn.id }
        requires room { seat.old.knows.next < seat.old.knows.end }
        ensures turn { seat.new.turn ≡ seat.old.turn }
        ensures ok { IfOk result (λ new. (new.turn ≡ seat.old.turn)
            × (new.knows ≡ given seat.old.knows) × (seat.new.knows ≡ gave seat.old.knows)) }
        ensures err { IfErr result (λ _. seat.new.knows ≡ seat.old.knows) }
    {
        self.turn.split(seat)
    }

    /// Takes the other seat in, with all numbers that it had. The longer of the two histories is
    /// left.
    pub fn join(&self, seat: &mut TurnSeat<SharedBook<K>>, other: TurnSeat<SharedBook<K>>)
        requires seat { seat.old.turn ≡ self.now.turn.id }
        requires other { other.turn ≡ self.now.turn.id }
        ensures turn { seat.new.turn ≡ seat.old.turn }
        ensures joins { IsJoined seat.old.knows other.knows seat.new.knows }
    {
        self.turn.join(seat, other);
    }

    /// Ends the turn and gives the book, by a seat that has every number below `most`.
    pub fn close(self, seat: TurnSeat<SharedBook<K>>) -> Book<K>
        requires seat { seat.turn ≡ self.turn.id }
        requires all { HasAll self.turn.most seat.knows }
        ensures closes { Closes ⟦<SharedBook<K> as Chronicle>⟧.account self.turn seat.knows
            record { book = result } }
    {
        let Shared { turn, gate: _ } = self;
        let SharedBook { book } = turn.close(seat);
        book
    }
}
