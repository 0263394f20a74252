ghost use Rattle.std.specs.Prelude.{◌≡◌, map, string_bytes, IfOk};
ghost use Rattle.vr_cli.specs.Statuses.{exit_code, status_text, word_at};

use crate::gathering::TextFault;
use std::alloc::{AllocError, Global};
use vr_base::{Failed, NoMemory};

/// How a command or a server ended.
#[derive(Clone, Copy, Debug, PartialEq, Eq)]
pub enum Status {
    /// Everything was done and written.
    Ok,
    /// No command has these words: the place, counted from 0 after the program's name, of the first word that none has
    /// after the words before it, or the number of words where they end too early.
    Usage { index: u32 },
    /// The policy is refused, by its reading (stage 1) or by a rule on the whole of it (stage 2): the number of the rule and
    /// the index of the entry.
    PolicyRefused { stage: u32, rule: u32, index: u32 },
    /// The first line of the script that stands for no call, counted from 1, and 0 for a script that is too long.
    ScriptRefused { line: u32 },
    /// The file that the word at this place names is not there.
    Absent { word: u32 },
    /// A file could not be read.
    ReadFault,
    /// The text could not be written, or not all of it.
    WriteFault,
    /// Memory ran out. A prefix of the text may have been written.
    WantOfMemory,
    /// The listener could not listen on the port, or failed to accept a connection.
    ListenFault,
    /// The keeper could not load the files of the store.
    KeeperFault,
    /// The first line of the keys file that gives nobody a key, counted from 1, and 0 for a file that is too long.
    KeysRefused { line: u32 },
    /// The first row of the store that is no file, counted from 0.
    StoreRefused { row: u32 },
}

impl From<AllocError> for Status {
    ghost use Rattle.std.specs.Prelude.{◌≡◌};
    ghost use Rattle.vr_cli.specs.declared.status.Status.TheVariants.{WantOfMemory};

    ghost from_gives = { λ _ status. status ≡ WantOfMemory };

    /// Memory ran out.
    fn from(_refused: AllocError) -> Status {
        Status::WantOfMemory
    }
}

impl From<NoMemory> for Status {
    ghost use Rattle.std.specs.Prelude.{◌≡◌};
    ghost use Rattle.vr_cli.specs.declared.status.Status.TheVariants.{WantOfMemory};

    ghost from_gives = { λ _ status. status ≡ WantOfMemory };

    /// Memory ran out.
    fn from(_refused: NoMemory) -> Status {
        Status::WantOfMemory
    }
}

impl From<Failed> for Status {
    ghost use Rattle.std.specs.Prelude.{◌≡◌};
    ghost use Rattle.vr_cli.specs.declared.status.Status.TheVariants.{WriteFault};

    ghost from_gives = { λ _ status. status ≡ WriteFault };

    /// A write failed.
    fn from(_failed: Failed) -> Status {
        Status::WriteFault
    }
}

impl From<TextFault> for Status {
    ghost use Rattle.std.specs.Prelude.{◌≡◌};
    ghost use Rattle.vr_cli.specs.Faults.{status_for};

    ghost from_gives = { λ fault status. status ≡ status_for fault };

    fn from(fault: TextFault) -> Status {
        match fault {
            TextFault::Failed => Status::WriteFault,
            TextFault::OutOfMemory => Status::WantOfMemory,
        }
    }
}

/// The word at this place, or no text where there is none.
#[tactic(auto, using(crate::proofs::Mapped::get_mapped))]
fn word_at(words: &[String], at: u32) -> &str
    ensures { result.now ≡ word_at (map string_bytes words.now) at }
{
    match words.get(at as usize) {
        Some(word) => word.as_str(),
        None => "",
    }
}

impl Status {
    /// The exit status of the program.
    pub fn code(self) -> u8
        ensures { result ≡ exit_code self }
    {
        match self {
            Status::Ok => 0,
            Status::Usage { .. } => 1,
            Status::PolicyRefused { .. } => 2,
            Status::ScriptRefused { .. } => 3,
            Status::Absent { .. } => 4,
            Status::ReadFault => 5,
            Status::WriteFault => 6,
            Status::WantOfMemory => 7,
            Status::ListenFault => 8,
            Status::KeeperFault => 9,
            Status::KeysRefused { .. } => 10,
            Status::StoreRefused { .. } => 11,
        }
    }

    /// The text that the program prints on standard error, without a line feed, and no text for `Ok`. The words are those
    /// of the command line: the text of an absent file has its word.
    pub fn text(self, alloc: Global, words: &[String]) -> Result<String, AllocError>
        ensures { IfOk result (λ text.
            string_bytes text ≡ status_text (map string_bytes words.now) self) }
    {
        match self {
            Status::Ok => Ok(String::new(alloc)),
            Status::Usage { index } => format!(in alloc; "usage: word {index}"),
            Status::PolicyRefused { stage, rule, index } => {
                format!(in alloc; "policy refused: stage {stage} rule {rule} at {index}")
            }
            Status::ScriptRefused { line } => format!(in alloc; "script refused: line {line}"),
            Status::Absent { word } => {
                let name = word_at(words, word);
                format!(in alloc; "absent: {name}")
            }
            Status::ReadFault => String::from_str(alloc, "read fault"),
            Status::WriteFault => String::from_str(alloc, "write fault"),
            Status::WantOfMemory => String::from_str(alloc, "out of memory"),
            Status::ListenFault => String::from_str(alloc, "listen fault"),
            Status::KeeperFault => String::from_str(alloc, "keeper fault"),
            Status::KeysRefused { line } => format!(in alloc; "keys refused: line {line}"),
            Status::StoreRefused { row } => format!(in alloc; "store refused: row {row}"),
        }
    }
}
