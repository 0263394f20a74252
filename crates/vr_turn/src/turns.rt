ghost use Rattle.std.specs.Prelude.{◌≡◌, ◌≤◌, ◌<◌, [], IfOk, IfErr};
ghost use Rattle.std.specs.Fn.{FnOnceReturnsAtMut, FnOnceTakesAtMut};
ghost use Rattle.vr_turn.specs.Accounts.{Works};
ghost use Rattle.vr_turn.specs.Seats.{first_knowledge, gave, given};
ghost use Rattle.vr_turn.specs.Turns.{Closes, Finds, HasAll, IsJoined, TakesTurn};

use crate::chronicle::Chronicle;
use crate::rule::{Opening, Ruled};
use crate::seat::TurnSeat;
use crate::steps::{give_number, take_in, try_turn};
use crate::views::View;
use crate::work::work_in_turn;
use atomic_table::{Refused, Table};
use std::alloc::Global;
use std::marker::Model;
use std::snapshot::Snapshot;
use std::sync::Wait;
use std::thread;
use vr_base::NoMemory;

/// One value, which the seats use in turn. Contracts see which turn it is, how many numbers its
/// seats have together, and the value with which it was made.
#[derive(Drop)]
pub struct Turn<T: Chronicle> {
    table: Table<Option<T>, View, Opening<T>, Ruled<T>, Global>,
}

impl<T: Chronicle> Model for Turn<T> {
    ghost use Rattle.std.specs.Prelude.{◌≡◌};
    ghost use Rattle.vr_turn.specs.Turns.{TurnState};

    ghost Value = { TurnState T };

    ghost view = { λ t. record {
      id = t.table.shared.table_id;
      most = t.table.shared.key.most;
      first = t.table.shared.key.first.value;
    } };

    ghost invariant = { λ t.
        (t.table.shared.table_id.words ≡ 2) × (t.table.shared.table_id.slots ≡ 1) };
}

impl<T: Chronicle> Turn<T> {
    /// The turn over a value without entries, and its first seat, which has number 0, may give all
    /// other numbers below `most`, and has seen the value's count of faults. If memory runs out,
    /// the value comes back.
    pub fn new(alloc: Global, value: T, most: u32) -> Result<(Turn<T>, TurnSeat<T>), (NoMemory, T)>
        requires empty { (T.account value).history ≡ [] }
        requires most { 1 ≤ most }
        ensures ok { IfOk result (λ t. (t.0.most ≡ most) × (t.0.first ≡ value) × (t.1.turn ≡ t.0.id)
            × (t.1.knows ≡ first_knowledge most (T.account value).faults)) }
        ensures err { IfErr result (λ e. e.1 ≡ value) }
    {
        let mut slots = Vec::new(alloc);
        let opening = Opening {
            most,
            first: Snapshot::of(&value),
        };
        if let Err(failed) = slots.push(Some(value)) {
            slots.destroy_empty();
            return match failed.value {
                Some(value) => Err((NoMemory, value)),
                None => unreachable!(),
            };
        }
        match Table::new(alloc, &[0, 0], slots, &opening) {
            Ok((table, place)) => Ok((
                Turn { table },
                TurnSeat {
                    number: 0,
                    next: 1,
                    place,
                },
            )),
            Err(refused) => {
                let Refused { mut slots } = refused;
                match slots.pop() {
                    Some(Some(value)) => {
                        slots.destroy_empty();
                        Err((NoMemory, value))
                    }
                    _ => unreachable!(),
                }
            }
        }
    }

    /// Does the work while the seat holds the turn, for which it waits. The work has to take each
    /// value that the seat may find, and adds at most one entry, with the number of the seat.
    pub fn with_turn<W: Wait, R, F: FnOnce(&mut T) -> R>(
        &self,
        rt: &W,
        seat: &mut TurnSeat<T>,
        work: F,
    ) -> R
        requires seat { seat.old.turn ≡ self.now.id }
        requires callable { (found : T) → Finds T.account self.now.first seat.old.knows found
            → FnOnceTakesAtMut F.FnOnce work found }
        requires works { (found left : T) (answer : R)
            → Finds T.account self.now.first seat.old.knows found
            → FnOnceReturnsAtMut F.FnOnce work found answer left
            → Works T.account seat.old.knows.number found left }
        ensures turn { seat.new.turn ≡ seat.old.turn }
        ensures took { TakesTurn T.account self.now.first
            (λ found left. FnOnceReturnsAtMut F.FnOnce work found result left)
            seat.old.knows seat.new.knows }
    {
        for _ in rt.forever() {
            if try_turn(&self.table.shared, &mut seat.place) {
                return work_in_turn(&self.table.shared, &mut seat.place, work);
            }
            thread::yield_now();
        }
        unreachable!()
    }

    /// A new seat, with the least number that the seat may still give. It knows what the seat
    /// knows, and may give none. No memory is taken.
    pub fn split(&self, seat: &mut TurnSeat<T>) -> Result<TurnSeat<T>, NoMemory>
        requires seat { seat.old.turn ≡ self.now.id }
        requires room { seat.old.knows.next < seat.old.knows.end }
        ensures turn { seat.new.turn ≡ seat.old.turn }
        ensures ok { IfOk result (λ new. (new.turn ≡ seat.old.turn)
            × (new.knows ≡ given seat.old.knows) × (seat.new.knows ≡ gave seat.old.knows)) }
        ensures err { IfErr result (λ _. seat.new.knows ≡ seat.old.knows) }
    {
        let number = seat.next;
        let place = give_number(&self.table.shared, &mut seat.place);
        seat.next = number + 1;
        Ok(TurnSeat {
            number,
            next: 0,
            place,
        })
    }

    /// Takes the other seat in, with all numbers that it had. The longer of the two histories is
    /// left.
    pub fn join(&self, seat: &mut TurnSeat<T>, other: TurnSeat<T>)
        requires seat { seat.old.turn ≡ self.now.id }
        requires other { other.turn ≡ self.now.id }
        ensures turn { seat.new.turn ≡ seat.old.turn }
        ensures joins { IsJoined seat.old.knows other.knows seat.new.knows }
    {
        let TurnSeat { place, .. } = other;
        take_in(&self.table.shared, &mut seat.place, place);
    }

    /// Ends the turn and gives its value, by a seat that has every number below `most`.
    pub fn close(self, seat: TurnSeat<T>) -> T
        requires seat { seat.turn ≡ self.id }
        requires all { HasAll self.most seat.knows }
        ensures { Closes T.account self seat.knows result }
    {
        let Turn { table } = self;
        let TurnSeat { place, .. } = seat;
        let mut closed = table.close_with(place);
        let value = match closed.take(0) {
            Some(value) => value,
            None => unreachable!(),
        };
        closed.free();
        value
    }
}
