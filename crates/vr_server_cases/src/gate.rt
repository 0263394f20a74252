use std::sync::atomic::{AtomicBool, AtomicU32, Ordering};
use std::thread;
use vr_base::{Gate, Point};

/// How many calls are to be held up until so many are there, how many turns of yielding each of them waits at most, and
/// what came of it so far.
#[derive(Drop)]
pub struct Meeting {
    calls: u32,
    turns: u32,
    arrived: AtomicU32,
    missed: AtomicBool,
}

impl Meeting {
    pub fn new(calls: u32, turns: u32) -> Meeting {
        Meeting {
            calls,
            turns,
            arrived: AtomicU32::new(0),
            missed: AtomicBool::new(false),
        }
    }

    /// Whether one of the calls waited in vain.
    pub fn is_missed(&self) -> bool {
        self.missed.load(Ordering::SeqCst)
    }

    /// Waits until all are there, and answers whether they came.
    fn wait(&self) -> bool {
        for _ in 0..self.turns {
            if self.calls <= self.arrived.load(Ordering::SeqCst) {
                return true;
            }
            thread::yield_now();
        }
        false
    }
}

/// Holds the calls of a meeting up, at the place before they are handed in.
#[derive(Drop)]
pub struct MeetingGate<'a> {
    meeting: &'a Meeting,
}

impl<'a> MeetingGate<'a> {
    pub fn new(meeting: &'a Meeting) -> MeetingGate<'a> {
        MeetingGate { meeting }
    }
}

impl<'a> Gate for MeetingGate<'a> {
    fn pause(&self, point: Point) {
        let meeting = self.meeting;
        if point != Point::BeforeAsk {
            return;
        }
        let earlier = meeting.arrived.fetch_add(1, Ordering::SeqCst);
        if earlier < meeting.calls && !meeting.wait() {
            meeting.missed.store(true, Ordering::SeqCst);
        }
    }
}
