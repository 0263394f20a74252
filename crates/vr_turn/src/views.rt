//! What a seat knows, step by step. No value of these types is made.
use std::collections::LinkedList;
use vr_base::Entry;

/// What a seat knows while it rests.
pub struct Knowledge {
    /// The number that the entries of its calls have.
    pub number: u32,
    /// The numbers that it took in with other seats.
    pub taken: LinkedList<u32>,
    /// It may still give the numbers from `next` on that are below `end`.
    pub next: u32,
    pub end: u32,
    /// The history that it has seen.
    pub seen: LinkedList<Entry>,
    /// The count of faults as it last gave the turn back.
    pub faults: u64,
    /// The count of faults as it had taken that turn.
    pub found: u64,
}

/// What a seat knows of the value while it holds the turn.
pub struct Held {
    /// The history of all calls.
    pub history: LinkedList<Entry>,
    /// The count of faults as the seat took the turn.
    pub faults: u64,
}

/// What two seats knew that were joined.
pub struct Joined {
    pub this: Knowledge,
    pub other: Knowledge,
}

pub enum Doing {
    Resting,
    Holding(Held),
    /// It took another seat in, and hasn't looked at the turn since.
    Joining(Joined),
    /// Another seat took it in.
    Spent,
}

/// What the rule knows of a seat.
pub struct View {
    pub knows: Knowledge,
    pub doing: Doing,
}
