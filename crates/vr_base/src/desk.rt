ghost use Rattle.std.specs.Prelude.{◌≡◌, ◌≤◌, ℕ, List, length};
ghost use Rattle.vr_base.specs.Desks.{IsLicensed, Sees};
ghost use Rattle.vr_base.specs.declared.calls.Entry.{Entry};

use crate::calls::{Call, Front, Reply};

/// Where calls are handed in, one after the other, from one seat. Other seats'
/// calls may be made between them.
pub trait Desk {
    /// What the history begins with, in the desk's own terms.
    ghost Origin: { Type 0 };

    ghost origin: { Self → Origin };

    /// The number that this desk's entries have.
    ghost seat: { Self → ℕ };

    /// The history that the seat has seen, from its beginning on.
    ghost seen: { Self → List Entry };

    /// How often the keeper of the files had failed when the seat last looked.
    ghost faults: { Self → ℕ };

    /// How often it had failed as the last call began.
    ghost found: { Self → ℕ };

    /// Makes a call of an identity and answers it, with the length of the history that
    /// the seat has seen then. A call that is answered `Unavailable` or `OutOfMemory`
    /// was not made and has no entry.
    fn ask(&mut self, who: u32, call: Call) -> (Reply, Front)
        ensures seat { seat self.new ≡ seat self.old }
        ensures origin { origin self.new ≡ origin self.old }
        ensures seen { Sees (seat self.old) who call result.0 (seen self.old) (seen self.new) }
        ensures front { result.1.entries ≡ length (seen self.new) }
        ensures later { faults self.old ≤ faults self.new }
        ensures licensed { result.0 ≡ Reply.Unavailable →
            IsLicensed (faults self.old) (found self.new) (faults self.new) };
}
