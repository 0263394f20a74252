use std::sync::{Mutex, Wait};
use vr_base::{Failed, Listener};
use vr_face::{Door, Opening, Porch, SessionEnd};

/// A door over a porch that threads share. It tells neither the connections that were given back
/// nor how many were handed out, since other doors take part. Its count of faults is of its own
/// calls.
#[derive(Drop)]
pub struct LockedDoor<'a, R: Wait, L: Listener + Drop, O: Opening> {
    rt: &'a R,
    porch: &'a Mutex<Porch<L, O>>,
    left: u32,
    faults: u64,
}

impl<'a, R: Wait, L: Listener + Drop, O: Opening> LockedDoor<'a, R, L, O> {
    ghost use Rattle.std.specs.Prelude.{◌≡◌};

    /// A door that hands out at most so many connections of the porch. A thread that waits for the
    /// porch waits by `rt`.
    pub fn new(rt: &'a R, porch: &'a Mutex<Porch<L, O>>, left: u32) -> LockedDoor<'a, R, L, O>
        ensures left { result.left ≡ left }
        ensures faults { result.faults ≡ 0 }
    {
        LockedDoor {
            rt,
            porch,
            left,
            faults: 0,
        }
    }
}

impl<'a, R: Wait, L: Listener + Drop, O: Opening> Door for LockedDoor<'a, R, L, O> {
    ghost use Rattle.std.specs.Prelude.{None};

    type Conn = L::Conn;

    ghost left = { λ door. door.left };

    ghost ended = { λ door. None };

    ghost handed_out = { λ door. None };

    ghost faults = { λ door. door.faults };

    fn next(&mut self) -> Result<Option<L::Conn>, Failed> {
        if self.left == 0 {
            return Ok(None);
        }
        let next = self.porch.lock(self.rt).next();
        match &next {
            Ok(Some(_)) => self.left -= 1,
            Ok(None) => {}
            Err(Failed) => self.faults = self.faults.saturating_add(1),
        }
        next
    }

    fn back(&mut self, conn: L::Conn, end: SessionEnd) {
        self.porch.lock(self.rt).back(conn, end);
    }
}
