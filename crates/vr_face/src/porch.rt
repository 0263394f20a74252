ghost use Rattle.std.specs.Prelude.{◌≡◌, ◌≤◌, ◌+◌, ℕ, Bool, List, Option, false, true};
ghost use Rattle.vr_base.specs.Causes.{Rose};
ghost use Rattle.vr_base.specs.Links.{EndedLink};
ghost use Rattle.vr_face.specs.Porches.{KeepsServed};

use crate::doors::{Door, is_want};
use crate::sessions::SessionEnd;
use std::marker::{Brand, PhantomData};
use vr_base::{Failed, Listener};

/// What a porch had when it was made: how many connections to hand out, and what its listener told.
/// Its facts name them by this type, so that they are known of a porch that comes out of a lock.
pub trait Opening {
    ghost left: { ℕ };

    ghost handed_out: { ℕ };

    ghost faults: { ℕ };

    ghost listens: { Bool };

    ghost ended: { Option (List EndedLink) };
}

impl Opening for Brand {
    ghost use Rattle.std.specs.Prelude.{false, None};

    ghost left = { 0 };

    ghost handed_out = { 0 };

    ghost faults = { 0 };

    ghost listens = { false };

    ghost ended = { None };
}

/// A door over a listener, which hands out at most a stated number of its connections, and none
/// after an accept that failed.
#[derive(Drop)]
pub struct Porch<L: Listener + Drop, K: Opening> {
    listener: L,
    left: u32,
    wanted: bool,
    failed: bool,
    opening: PhantomData<K>,
    ghost spent: { failed ≡ true → left ≡ 0 },
    ghost together: { failed ≡ false →
        L.handed_out listener + left ≡ K.handed_out + K.left },
    ghost most: { L.handed_out listener + left ≤ K.handed_out + K.left },
    ghost risen: { failed ≡ true → Rose K.faults (L.faults listener) },
    ghost later: { K.faults ≤ L.faults listener },
    ghost listens: { L.listens listener ≡ K.listens },
    ghost served: { KeepsServed K.ended (L.ended listener) wanted },
}

impl<L: Listener + Drop, K: Opening> Porch<L, K> {
    /// A door that hands out at most so many connections of the listener.
    pub fn new(listener: L, left: u32) -> Porch<L, K>
        requires left { left ≡ K.left }
        requires handed_out { L.handed_out listener ≡ K.handed_out }
        requires faults { L.faults listener ≡ K.faults }
        requires listens { L.listens listener ≡ K.listens }
        requires ended { L.ended listener ≡ K.ended }
        ensures listener { result.listener ≡ listener }
        ensures left { result.left ≡ left }
        ensures wanted { result.wanted ≡ false }
        ensures failed { result.failed ≡ false }
    {
        Porch {
            listener,
            left,
            wanted: false,
            failed: false,
            opening: PhantomData,
        }
    }

    /// Whether a connection was given back whose session wanted memory.
    pub fn wanted(&self) -> bool
        ensures { result ≡ self.now.wanted }
    {
        self.wanted
    }

    /// Whether the listener failed to accept a connection.
    pub fn failed(&self) -> bool
        ensures { result ≡ self.now.failed }
    {
        self.failed
    }

    /// The listener, of which what the porch kept is known.
    pub fn into_listener(self) -> L
        ensures listener { result ≡ self.listener }
        ensures together { self.failed ≡ false →
            L.handed_out result + self.left ≡ K.handed_out + K.left }
        ensures most { L.handed_out result ≤ K.handed_out + K.left }
        ensures risen { self.failed ≡ true → Rose K.faults (L.faults result) }
        ensures later { K.faults ≤ L.faults result }
        ensures listens { L.listens result ≡ K.listens }
        ensures served { KeepsServed K.ended (L.ended result) self.wanted }
    {
        self.listener
    }
}

impl<L: Listener + Drop, K: Opening> Door for Porch<L, K> {
    ghost use Rattle.std.specs.Prelude.{◌≤◌, ◌||◌, Ok, Some, IfOk, IfSome, IsSome, OnErr};
    ghost use Rattle.vr_base.specs.Causes.{HasCause};
    ghost use Rattle.vr_base.specs.Links.{IsFresh, IsGivenBack};
    ghost use Rattle.vr_face.specs.Doors.{Counts, IsOver, IsServed, Lowers, is_want};

    type Conn = L::Conn;

    ghost left = { λ porch. porch.left };

    ghost ended = { λ porch. L.ended porch.listener };

    ghost handed_out = { λ porch. Some (L.handed_out porch.listener) };

    ghost faults = { λ porch. L.faults porch.listener };

    /// As the trait says. It has failed from the first accept that fails on.
    fn next(&mut self) -> Result<Option<L::Conn>, Failed>
        ensures fresh { (conn : L.Conn) → result ≡ Ok (Some conn) →
            IsFresh (L.Conn.input conn) (L.Conn.left conn)
            (L.Conn.written conn) (L.Conn.Source.faults conn) }
        ensures told { (conn : L.Conn) → result ≡ Ok (Some conn) →
            IfSome (L.ended self.old.listener)
            (λ _. IsSome (L.Conn.input conn) × IsSome (L.Conn.written conn)) }
        ensures left { Lowers self.old.left self.new.left result }
        ensures handed_out { Counts (Some (L.handed_out self.old.listener))
            (Some (L.handed_out self.new.listener)) result }
        ensures over { IsOver (Some (L.handed_out self.old.listener)) self.old.left result }
        ensures ended { L.ended self.new.listener ≡ L.ended self.old.listener }
        ensures cause { HasCause (L.faults self.old.listener) (L.faults self.new.listener) result }
        ensures failed { OnErr result (self.new.failed ≡ true) }
        ensures kept { IfOk result (λ _. self.new.failed ≡ self.old.failed) }
        ensures wanted { self.new.wanted ≡ self.old.wanted }
    {
        if self.left == 0 {
            return Ok(None);
        }
        match self.listener.accept() {
            Ok(conn) => {
                self.left -= 1;
                Ok(Some(conn))
            }
            Err(failed) => {
                self.left = 0;
                self.failed = true;
                Err(failed)
            }
        }
    }

    /// As the trait says. A session that wanted memory is kept in mind.
    fn back(&mut self, conn: L::Conn, end: SessionEnd)
        requires { IsServed (L.Conn.input conn) (L.Conn.written conn)
            (L.Conn.Source.faults conn) end }
        ensures ended { IsGivenBack (L.ended self.old.listener) (L.ended self.new.listener)
            (L.Conn.input conn) (L.Conn.written conn) (L.Conn.Source.faults conn) }
        ensures left { self.new.left ≡ self.old.left }
        ensures handed_out { Some (L.handed_out self.new.listener)
            ≡ Some (L.handed_out self.old.listener) }
        ensures later { L.faults self.old.listener ≤ L.faults self.new.listener }
        ensures wanted { self.new.wanted ≡ (self.old.wanted || is_want end) }
        ensures failed { self.new.failed ≡ self.old.failed }
    {
        self.wanted |= is_want(end);
        self.listener.back(conn);
    }
}
