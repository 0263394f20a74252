//! A journal in which two threads write.
ghost use Rattle.std.specs.Prelude.{◌≡◌, []};
ghost use Rattle.vr_turn.specs.Accounts.{AddsAtMostOne};

use std::alloc::Global;
use std::sync::Wait;
use std::test::Fail;
use std::thread::{Threads, join};
use vr_base::{Call, Entry, Reply};
use vr_turn::{Chronicle, Turn, TurnSeat};

/// Entries of calls, without anything behind them.
#[derive(Drop)]
struct Journal {
    entries: Vec<Entry>,
}

impl Chronicle for Journal {
    ghost Origin = { Unit {0} };

    ghost account = { λ journal.
        record { origin = tt; history = journal.entries.items; faults = 0 } };

    fn entries(&self) -> u64 {
        self.entries.len() as u64
    }
}

impl Journal {
    /// Adds the entry of a call, if there is memory.
    fn add(&mut self, seat: u32, who: u32)
        ensures { AddsAtMostOne seat self.old.entries.items self.new.entries.items }
    {
        let _added = self.entries.push(Entry {
            seat,
            who,
            call: Call::Hash,
            reply: Reply::Stored,
        });
    }
}

/// The seat after a call.
fn after_call<R: Wait>(
    rt: &R,
    turn: &Turn<Journal>,
    seat: TurnSeat<Journal>,
    who: u32,
) -> TurnSeat<Journal>
    requires { seat.turn ≡ turn.now.id }
    ensures turn { result.turn ≡ seat.turn }
    ensures number { result.knows.number ≡ seat.knows.number }
{
    let mut seat = seat;
    let number = seat.number();
    turn.with_turn(
        rt,
        &mut seat,
        |journal: &mut Journal| journal.add(number, who),
    );
    seat
}

/// Ends a turn of two numbers, by its two seats.
fn closed(turn: Turn<Journal>, first: TurnSeat<Journal>, second: TurnSeat<Journal>) -> Journal
    requires turn { (first.turn ≡ turn.id) × (second.turn ≡ turn.id) × (turn.most ≡ 2) }
    requires numbers { (first.knows.number ≡ 0) × (second.knows.number ≡ 1) }
{
    let mut first = first;
    turn.join(&mut first, second);
    turn.close(first)
}

/// What two threads write from two seats: each makes a call for the identity that has the number of
/// its seat.
fn written_by_two<R: Threads + Wait + Sync>(rt: &R, alloc: Global) -> Result<Journal, Fail> {
    let journal = Journal {
        entries: Vec::new(alloc),
    };
    let (turn, mut first) = match Turn::new(alloc, journal, 2) {
        Ok(made) => made,
        Err(_) => Err("no memory for a turn")?,
    };
    let second = match turn.split(&mut first) {
        Ok(second) => second,
        Err(_) => Err("no memory for a seat")?,
    };
    let shared = &turn;
    let (first, second) = join(
        rt,
        move || after_call(rt, shared, first, 0),
        move || after_call(rt, shared, second, 1),
    );
    Ok(closed(turn, first, second))
}

#[test]
fn two_threads_write_in_one_journal(rt: HostRuntime) -> Result<(), Fail> {
    let journal = written_by_two(&rt, rt.alloc())?;
    assert_eq!(rt; journal.entries(), 2);
    let entries = journal.entries.as_slice();
    assert!(rt; entries.iter().all(|entry| entry.who == entry.seat));
    assert_eq!(rt; entries.iter().filter(|entry| entry.seat == 0).count(), 1);
    Ok(())
}
