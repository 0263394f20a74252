//! The work that is done while a seat holds the turn.
ghost use Rattle.std.specs.Prelude.{◌≡◌, ◌≤◌, ◌<◌, [], ◌∷◌, ◌++◌, List, length, Some};
ghost use Rattle.std.specs.Fn.{FnOnceReturnsAtMut, FnOnceTakesAtMut};
ghost use Rattle.vr_base.specs.declared.calls.Entry.{Entry};
ghost use Rattle.vr_turn.specs.Accounts.{AddsAtMostOne, Works};
ghost use Rattle.vr_turn.specs.Plays.{IsAt, TakesValue, keeps};
ghost use Rattle.vr_turn.specs.Seats.{holding, resting};
ghost use Rattle.vr_turn.specs.Turns.{Finds, IsFrom, TakesTurn};
ghost use Rattle.vr_turn.specs.declared.views.Held.{Held};

use crate::chronicle::Chronicle;
use crate::steps::{Place, Top, free_turn, give_value, record_entry, take_value};
use std::marker::Brand;

/// Records the entry that the work added, if it added one.
pub(crate) fn note_entry<T: Chronicle>(top: &Top<T>, seat: &mut Place<T>, value: &T, before: u64)
    requires table { IsAt top.now.table_id seat.old.table_id }
    requires holds { (held : Held) × (seat.old.me.0 ≡ holding seat.old.me.0.knows held)
        × (before ≡ length held.history)
        × AddsAtMostOne seat.old.me.0.knows.number held.history (T.account value.now).history }
    ensures same { (seat.new.table_id ≡ seat.old.table_id) × (seat.new.id ≡ seat.old.id) }
    ensures me { (held : Held) → seat.old.me.0 ≡ holding seat.old.me.0.knows held
        → (seen : List Entry) × (seat.new.me
        ≡ (keeps seat.old.me.0.knows held seen (T.account value.now).history, seat.old.me.1)) }
{
    if value.entries() != before {
        record_entry::<T, Brand>(top, seat, value);
    }
}

/// Does the work while the seat holds the turn, and gives the turn back.
pub(crate) fn work_in_turn<T: Chronicle, R, F: FnOnce(&mut T) -> R>(
    top: &Top<T>,
    seat: &mut Place<T>,
    work: F,
) -> R
    requires table { IsAt top.now.table_id seat.old.table_id }
    requires takes { TakesValue T.account (IsFrom T.account top.now.key.first.value)
        seat.old.me.0.knows seat.old.me }
    requires callable { (y : T)
        → Finds T.account top.now.key.first.value seat.old.me.0.knows y
        → FnOnceTakesAtMut F.FnOnce work y }
    requires works { (y z : T) (r : R)
        → Finds T.account top.now.key.first.value seat.old.me.0.knows y
        → FnOnceReturnsAtMut F.FnOnce work y r z
        → Works T.account seat.old.me.0.knows.number y z }
    ensures same { (seat.new.table_id ≡ seat.old.table_id) × (seat.new.id ≡ seat.old.id) }
    ensures rests { seat.new.me ≡ (resting seat.new.me.0.knows, []) }
    ensures took { TakesTurn T.account top.now.key.first.value
        (λ y z. FnOnceReturnsAtMut F.FnOnce work y result z)
        seat.old.me.0.knows seat.new.me.0.knows }
{
    let mut value = take_value(top, seat);
    let before = value.entries();
    let answer = work(&mut value);
    note_entry(top, seat, &value, before);
    give_value(top, seat, value);
    free_turn(top, seat);
    answer
}
