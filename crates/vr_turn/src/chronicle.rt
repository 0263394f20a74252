ghost use Rattle.std.specs.Prelude.{◌≡◌, length};
ghost use Rattle.vr_turn.specs.Accounts.{Account};

/// A value that stands for a history of calls.
pub trait Chronicle {
    /// What the history begins with, in the value's own terms.
    ghost Origin: { Type 0 };

    /// The origin, the history and a count of faults.
    ghost account: { Self → Account Origin };

    /// The length of the history.
    fn entries(&self) -> u64
        ensures { result ≡ length (account self.now).history };
}
