ghost use Rattle.std.specs.Prelude.{◌≡◌, ◌≤◌, length};
ghost use Rattle.vr_base.specs.Desks.{IsLicensed, Sees};
ghost use Rattle.vr_core.specs.History.{IsLegal, Steps};
ghost use Rattle.vr_core.specs.Isolation.{IsIsolatedHistory};
ghost use Rattle.vr_core.specs.Machine.{Origin};
ghost use Rattle.vr_core.specs.PlainDesks.{AreBySeat};

use crate::book::Book;
use std::snapshot::Snapshot;
use vr_base::{Call, Desk, Front, Reply};
use vr_keeper::Keeper;

/// A desk of one thread, from which all calls of a book are made, by seat 0. What the seat has seen is the book's journal,
/// which is legal from the book's origin on.
#[derive(Drop)]
pub struct PlainDesk<K: Keeper> {
    book: Book<K>,
    /// The book as the last call began. It takes no memory.
    found: Snapshot<Book<K>>,
    ghost own: { AreBySeat 0 book.journal },
    ghost legal: { ∥ IsLegal book.origin book.journal ∥₁ },
}

impl<K: Keeper> PlainDesk<K> {
    /// A desk over a book that has no entry of another seat.
    pub fn new(book: Book<K>) -> PlainDesk<K>
        requires own { AreBySeat 0 book.journal }
        ensures book { result.book ≡ book }
    {
        // The journal of each book is legal, and its calls say so.
        let _entries = book.journal();
        let found = Snapshot::of(&book);
        PlainDesk { book, found }
    }

    /// Gives the book back.
    pub fn into_book(self) -> Book<K>
        ensures book { result ≡ self.book }
        ensures own { AreBySeat 0 result.journal }
        ensures legal { ∥ IsLegal result.origin result.journal ∥₁ }
        ensures isolated { IsIsolatedHistory result.origin result.journal }
    {
        let _entries = self.book.journal();
        self.book
    }
}

impl<K: Keeper> Desk for PlainDesk<K> {
    ghost Origin = { Origin };

    ghost origin = { λ desk. desk.book.origin };

    ghost seat = { λ _. 0 };

    ghost seen = { λ desk. desk.book.journal };

    ghost faults = { λ desk. K.faults desk.book.keeper };

    ghost found = { λ desk. K.faults desk.found.value.keeper };

    /// Makes the call by a step of the book, over the files that the calls before it left.
    fn ask(&mut self, who: u32, call: Call) -> (Reply, Front)
        ensures steps { Steps self.old.book self.new.book 0 who call result.0 }
        ensures found { self.new.found.value ≡ self.old.book }
        ensures isolated { IsIsolatedHistory self.new.book.origin self.new.book.journal }
        ensures seen { Sees 0 who call result.0 self.old.book.journal self.new.book.journal }
        ensures front { result.1.entries ≡ length self.new.book.journal }
        ensures later { K.faults self.old.book.keeper ≤ K.faults self.new.book.keeper }
        ensures licensed { result.0 ≡ Reply.Unavailable →
            IsLicensed (K.faults self.old.book.keeper) (K.faults self.new.found.value.keeper)
            (K.faults self.new.book.keeper) }
    {
        self.found = Snapshot::of(&self.book);
        let reply = self.book.step(0, who, call);
        let entries = self.book.journal().len() as u64;
        (reply, Front { entries })
    }
}
