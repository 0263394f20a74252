ghost use Rattle.std.specs.Prelude.{◌≡◌, ◌<◌, ◌^◌, []};
ghost use Rattle.vr_turn.specs.Turns.{SeatState};

use crate::steps::Place;
use crate::views::View;
use std::marker::Model;

/// What a thread takes turns with. Contracts see which turn it is a seat of, and what it knows: its
/// number, the numbers that it took in and those that it may give, the history that it has seen,
/// and two counts of faults.
#[derive(Drop)]
pub struct TurnSeat<T> {
    pub(crate) number: u32,
    /// The next number that it may give.
    pub(crate) next: u32,
    pub(crate) place: Place<T>,
}

impl<T> Model for TurnSeat<T> {
    ghost use Rattle.std.specs.Prelude.{◌≡◌, ◌<◌, ◌^◌, []};
    ghost use Rattle.vr_turn.specs.Turns.{SeatState};
    ghost use Rattle.vr_turn.specs.Seats.{resting};

    ghost Value = { SeatState };

    ghost view = { λ s. record { turn = s.place.table_id; knows = s.place.me.0.knows } };

    ghost invariant = { λ s. (s.place.me ≡ (resting s.place.me.0.knows, []))
        × (s.number ≡ s.place.me.0.knows.number) × (s.next ≡ s.place.me.0.knows.next)
        × (s.place.me.0.knows.end < 2 ^ 32) };
}

impl<T> TurnSeat<T> {
    /// The number that the entries of its calls have.
    pub fn number(&self) -> u32
        ensures { result ≡ self.now.knows.number }
    {
        self.number
    }
}
