ghost use Rattle.vr_session.specs.SharedBooks.{account_of, TakesCall};

use vr_base::{Call, Reply};
use vr_core::Book;
use vr_keeper::Keeper;
use vr_turn::Chronicle;

/// A book that threads use in turn.
#[derive(Debug, Drop)]
pub struct SharedBook<K: Keeper> {
    pub(crate) book: Book<K>,
}

impl<K: Keeper> Chronicle for SharedBook<K> {
    ghost use Rattle.vr_core.specs.Machine.{Origin};
    ghost use Rattle.vr_session.specs.SharedBooks.{account_of};

    ghost Origin = { Origin };

    ghost account = { λ shared. account_of K.faults shared.book };

    fn entries(&self) -> u64 {
        self.book.journal().len() as u64
    }
}

impl<K: Keeper> SharedBook<K> {
    /// Makes a call that came by a seat, and answers it, with the length of the journal then.
    pub(crate) fn call(&mut self, seat: u32, who: u32, call: Call) -> (Reply, u64)
        ensures { TakesCall K.faults seat who call self.old.book self.new.book result.0 result.1 }
    {
        let reply = self.book.step(seat, who, call);
        let entries = self.entries();
        (reply, entries)
    }
}
