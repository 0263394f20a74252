//! The rule of the turn, over a table of two words and one slot. The first word is 1 while a seat
//! holds the turn, the second is the length of the history, and the slot has the value.
use crate::chronicle::Chronicle;
use crate::views::View;
use atomic_table::{Join, Play, Split, TableRule};
use std::marker::{Brand, PhantomData};
use std::snapshot::Snapshot;
use vr_base::Entry;

/// What a turn is told when it is made.
#[derive(Drop)]
pub struct Opening<T> {
    /// How many numbers its seats have together.
    pub most: u32,
    /// The value as it was then.
    pub first: Snapshot<T>,
}

pub struct Ruled<T> {
    value: PhantomData<T>,
}

impl<T: Chronicle> TableRule<Option<T>, View, Opening<T>> for Ruled<T> {
    ghost use Rattle.vr_turn.specs.Rule.{Kept};
    ghost use Rattle.vr_turn.specs.Seats.{first_view};

    ghost holds = { λ opening. Kept T.account opening.most opening.first.value };

    ghost first = { λ opening. first_view opening.most (T.account opening.first.value).faults };
}

/// What is known of the value that a seat takes. Each call picks it.
pub trait Fact<T> {
    ghost holds: { T → Type 0 };
}

impl<T> Fact<T> for Brand {
    ghost holds = { λ value. Unit {0} };
}

/// A seat tries to take the turn, with the value.
pub(crate) struct Try<T, O> {
    value: PhantomData<T>,
    source: PhantomData<O>,
}

impl<T: Chronicle, O: Fact<T>> Play<Option<T>, View> for Try<T, O> {
    ghost use Rattle.vr_turn.specs.Plays.{Tries};

    ghost then = { Tries T.account O.holds };
}

/// The entry that a step records. Each call picks it.
pub trait Note {
    ghost use Rattle.vr_base.specs.declared.calls.Entry.{Entry};

    ghost entry: { Entry };
}

impl Note for Brand {
    ghost use Rattle.vr_turn.specs.Accounts.{some_entry};

    ghost entry = { some_entry };
}

/// The seat that holds the turn records the entry of its call.
pub(crate) struct Record<N> {
    note: PhantomData<N>,
}

impl<T, N: Note> Play<Option<T>, View> for Record<N> {
    ghost use Rattle.vr_turn.specs.Plays.{Records};

    ghost then = { Records N.entry };
}

/// The seat that holds the turn gives it back, with the value.
pub(crate) struct Free<T> {
    value: PhantomData<T>,
}

impl<T: Chronicle> Play<Option<T>, View> for Free<T> {
    ghost use Rattle.vr_turn.specs.Plays.{Frees};

    ghost then = { Frees T.account };
}

/// A seat gives its next number to a new one.
pub(crate) struct GiveNumber;

impl Split<View> for GiveNumber {
    ghost use Rattle.vr_turn.specs.Seats.{without_next, with_next};

    ghost left = { without_next };

    ghost right = { with_next };
}

/// A seat takes in another.
pub(crate) struct TakeIn;

impl Join<View> for TakeIn {
    ghost use Rattle.vr_turn.specs.Seats.{joining, spent_view};

    ghost both = { joining };

    ghost spent = { spent_view };
}

/// A seat that took in another looks at the turn.
pub(crate) struct Look;

impl<T> Play<Option<T>, View> for Look {
    ghost use Rattle.vr_turn.specs.Plays.{Looks};

    ghost then = { Looks };
}
