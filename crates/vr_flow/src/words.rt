ghost use Rattle.std.specs.Prelude.{◌≡◌};
ghost use Rattle.vr_base.specs.Rights.{has_bit, IsRight, fd_write};
ghost use Rattle.vr_rights.specs.Flows.{has_any, changing_rights, word_observes, word_modifies, caller_observes};

use vr_base::{
    FD_FILESTAT_SET_SIZE, FD_READ, FD_SEEK, FD_WRITE, PATH_CREATE_FILE, PATH_FILESTAT_GET,
    PATH_FILESTAT_SET_SIZE, PATH_OPEN, PATH_UNLINK_FILE, Right, RightsWord,
};

fn has(word: RightsWord, bit: u8) -> bool
    requires { IsRight bit }
    ensures { result ≡ has_bit word bit }
{
    Right::new(bit).is_some_and(|right| word.has(right))
}

/// Whether a program with a word in a region observes the region.
pub fn word_observes(word: RightsWord) -> bool
    ensures { result ≡ word_observes word }
{
    has(word, PATH_OPEN) || has(word, PATH_FILESTAT_GET) || has(word, PATH_UNLINK_FILE)
}

/// Whether a program with a word in a region changes a file there that it opens.
fn word_changes(word: RightsWord) -> bool
    ensures { result ≡ has_any word changing_rights }
{
    has(word, FD_WRITE)
        || has(word, PATH_CREATE_FILE)
        || has(word, PATH_FILESTAT_SET_SIZE)
        || has(word, FD_FILESTAT_SET_SIZE)
}

/// Whether a program with a word in a region modifies the region.
pub fn word_modifies(word: RightsWord) -> bool
    ensures { result ≡ word_modifies word }
{
    has(word, PATH_UNLINK_FILE) || has(word, PATH_OPEN) && word_changes(word)
}

/// Whether an identity with a word in a region observes the region by it.
pub fn caller_observes(word: RightsWord, has_quota: bool) -> bool
    ensures { result ≡ caller_observes word has_quota }
{
    has(word, FD_READ) || has(word, FD_WRITE) && (has_quota || has(word, FD_SEEK))
}

/// Whether an identity with a word in a region modifies the region by it.
pub fn caller_modifies(word: RightsWord) -> bool
    ensures { result ≡ has_bit word fd_write }
{
    has(word, FD_WRITE)
}
