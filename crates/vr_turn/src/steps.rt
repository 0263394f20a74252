//! The steps on the table, each with what the seat knows after it.
ghost use Rattle.std.specs.Prelude.{◌≡◌, ◌<◌, ◌≤◌, true, false, [], ◌∷◌, ◌++◌, length, Some, None};
ghost use Rattle.vr_turn.specs.Accounts.{AddsAtMostOne};
ghost use Rattle.vr_turn.specs.Plays.{IsAt, TakesValue, recorded};
ghost use Rattle.vr_turn.specs.Seats.{holding, resting, gave, given, turned};
ghost use Rattle.vr_turn.specs.Turns.{IsFrom, IsJoined};
ghost use Rattle.vr_turn.specs.declared.views.Held.{Held};
ghost use Rattle.vr_turn.specs.declared.views.Knowledge.{Knowledge};

use crate::chronicle::Chronicle;
use crate::rule::{Fact, Free, GiveNumber, Look, Note, Opening, Record, Ruled, TakeIn, Try};
use crate::views::View;
use atomic_table::{Seat, Shared};
use std::marker::Brand;

pub(crate) type Top<T> = Shared<Option<T>, View, Opening<T>, Ruled<T>>;

pub(crate) type Place<T> = Seat<Option<T>, View>;

/// Tries to take the turn, with a value that comes from where it should.
pub(crate) fn try_from<T: Chronicle, O: Fact<T>>(top: &Top<T>, seat: &mut Place<T>) -> bool
    requires table { IsAt top.now.table_id seat.old.table_id }
    requires rests { seat.old.me ≡ (resting seat.old.me.0.knows, []) }
    requires source { (y : T) → IsFrom T.account top.now.key.first.value y → O.holds y }
    ensures same { (seat.new.table_id ≡ seat.old.table_id) × (seat.new.id ≡ seat.old.id) }
    ensures won { result ≡ true → TakesValue T.account O.holds seat.old.me.0.knows seat.new.me }
    ensures lost { result ≡ false → seat.new.me ≡ seat.old.me }
{
    top.compare_exchange::<Try<T, O>>(seat, 0, 0, 1) == 0
}

/// Tries to take the turn.
pub(crate) fn try_turn<T: Chronicle>(top: &Top<T>, seat: &mut Place<T>) -> bool
    requires table { IsAt top.now.table_id seat.old.table_id }
    requires rests { seat.old.me ≡ (resting seat.old.me.0.knows, []) }
    ensures same { (seat.new.table_id ≡ seat.old.table_id) × (seat.new.id ≡ seat.old.id) }
    ensures won { result ≡ true →
        TakesValue T.account (IsFrom T.account top.now.key.first.value)
        seat.old.me.0.knows seat.new.me }
    ensures lost { result ≡ false → seat.new.me ≡ seat.old.me }
{
    try_from::<T, Brand>(top, seat)
}

/// Takes the value out of the slot.
pub(crate) fn take_value<T: Chronicle>(top: &Top<T>, seat: &mut Place<T>) -> T
    requires table { IsAt top.now.table_id seat.old.table_id }
    requires full { (y : T) × (seat.old.me.1 ≡ (0, Some y) ∷ []) }
    ensures same { (seat.new.table_id ≡ seat.old.table_id) × (seat.new.id ≡ seat.old.id) }
    ensures value { seat.old.me.1 ≡ (0, Some result) ∷ [] }
    ensures me { seat.new.me ≡ (seat.old.me.0, (0, None) ∷ []) }
{
    match top.exchange(seat, 0, None) {
        Some(value) => value,
        None => unreachable!(),
    }
}

/// Puts the value back into the slot.
pub(crate) fn give_value<T: Chronicle>(top: &Top<T>, seat: &mut Place<T>, value: T)
    requires table { IsAt top.now.table_id seat.old.table_id }
    requires empty { seat.old.me.1 ≡ (0, None) ∷ [] }
    ensures same { (seat.new.table_id ≡ seat.old.table_id) × (seat.new.id ≡ seat.old.id) }
    ensures me { seat.new.me ≡ (seat.old.me.0, (0, Some value) ∷ []) }
{
    match top.exchange(seat, 0, Some(value)) {
        Some(_) => unreachable!(),
        None => {}
    }
}

/// Records one entry, by which the value's history is longer than what is held.
pub(crate) fn record_entry<T: Chronicle, N: Note>(top: &Top<T>, seat: &mut Place<T>, value: &T)
    requires table { IsAt top.now.table_id seat.old.table_id }
    requires holds { (held : Held) × (seat.old.me.0 ≡ holding seat.old.me.0.knows held)
        × ((T.account value.now).history ≡ held.history ++ N.entry ∷ []) }
    requires number { N.entry.seat ≡ seat.old.me.0.knows.number }
    ensures same { (seat.new.table_id ≡ seat.old.table_id) × (seat.new.id ≡ seat.old.id) }
    ensures me { (held : Held) → seat.old.me.0 ≡ holding seat.old.me.0.knows held
        → seat.new.me ≡ (recorded seat.old.me.0.knows held N.entry, seat.old.me.1) }
{
    let _length = value.entries();
    top.fetch_add::<Record<N>>(seat, 1, 1);
}

/// Gives the turn back, with the value in the slot.
pub(crate) fn free_turn<T: Chronicle>(top: &Top<T>, seat: &mut Place<T>)
    requires table { IsAt top.now.table_id seat.old.table_id }
    requires holds { (held : Held) × (y : T)
        × (seat.old.me ≡ (holding seat.old.me.0.knows held, (0, Some y) ∷ []))
        × IsFrom T.account top.now.key.first.value y
        × ((T.account y).history ≡ held.history) × (held.faults ≤ (T.account y).faults) }
    ensures same { (seat.new.table_id ≡ seat.old.table_id) × (seat.new.id ≡ seat.old.id) }
    ensures me { (held : Held) (y : T)
        → seat.old.me ≡ (holding seat.old.me.0.knows held, (0, Some y) ∷ [])
        → seat.new.me ≡ (
          resting
              (turned seat.old.me.0.knows held.history (T.account y).faults held.faults),
          [],
        ) }
{
    top.store::<Free<T>>(seat, 0, 0);
}

/// A new seat, with the next number that the seat may give.
pub(crate) fn give_number<T: Chronicle>(top: &Top<T>, seat: &mut Place<T>) -> Place<T>
    requires table { IsAt top.now.table_id seat.old.table_id }
    requires rests { seat.old.me ≡ (resting seat.old.me.0.knows, []) }
    requires room { seat.old.me.0.knows.next < seat.old.me.0.knows.end }
    ensures same { (seat.new.table_id ≡ seat.old.table_id) × (seat.new.id ≡ seat.old.id) }
    ensures old { seat.new.me ≡ (resting (gave seat.old.me.0.knows), []) }
    ensures new { (result.table_id ≡ seat.old.table_id)
        × (result.me ≡ (resting (given seat.old.me.0.knows), [])) }
{
    top.split_seat::<GiveNumber>(seat)
}

/// Takes another seat in.
pub(crate) fn take_in<T: Chronicle>(top: &Top<T>, seat: &mut Place<T>, other: Place<T>)
    requires table { IsAt top.now.table_id seat.old.table_id }
    requires rests { seat.old.me ≡ (resting seat.old.me.0.knows, []) }
    requires other { (other.table_id ≡ top.now.table_id)
        × (other.me ≡ (resting other.me.0.knows, [])) }
    ensures same { (seat.new.table_id ≡ seat.old.table_id) × (seat.new.id ≡ seat.old.id) }
    ensures rests { seat.new.me ≡ (resting seat.new.me.0.knows, []) }
    ensures joins { IsJoined seat.old.me.0.knows other.me.0.knows seat.new.me.0.knows }
{
    top.join_seat::<TakeIn>(seat, other);
    top.load::<Look>(seat, 0);
}
