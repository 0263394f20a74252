ghost use Rattle.std.specs.Prelude.{◌≡◌, ◌==◌, find, Some};
ghost use Rattle.vr_base.specs.Rights.{known_rights, has_bit, missing_right, letters_word, letter_word, right_name, right_bits, IsRight};

use std::marker::Model;

// The bits of a rights word that have a meaning: as WASI preview 1 numbers its rights, and one of
// this runtime's own to execute a program.
pub const FD_READ: u8 = 1;

pub const FD_SEEK: u8 = 2;

pub const FD_TELL: u8 = 5;

pub const FD_WRITE: u8 = 6;

pub const PATH_CREATE_FILE: u8 = 10;

pub const PATH_OPEN: u8 = 13;

pub const PATH_FILESTAT_GET: u8 = 18;

pub const PATH_FILESTAT_SET_SIZE: u8 = 19;

pub const FD_FILESTAT_GET: u8 = 21;

pub const FD_FILESTAT_SET_SIZE: u8 = 22;

pub const PATH_UNLINK_FILE: u8 = 26;

pub const EXECUTE: u8 = 30;

/// What a read of a file needs.
pub const READ_RIGHTS: u32 = 1 << FD_READ;

/// What a write of a file needs.
pub const WRITE_RIGHTS: u32 = 1 << FD_WRITE;

/// What an append to a file needs: to seek to its end, and to write.
pub const APPEND_RIGHTS: u32 = 1 << FD_SEEK | 1 << FD_WRITE;

/// What a run of a program needs.
pub const EXECUTE_RIGHTS: u32 = 1 << EXECUTE;

/// The rights of the letter `r`.
const READER_RIGHTS: u32 = 1 << FD_READ
    | 1 << FD_SEEK
    | 1 << FD_TELL
    | 1 << PATH_OPEN
    | 1 << PATH_FILESTAT_GET
    | 1 << FD_FILESTAT_GET;

/// The rights of the letter `w`.
const WRITER_RIGHTS: u32 = 1 << FD_SEEK
    | 1 << FD_WRITE
    | 1 << PATH_CREATE_FILE
    | 1 << PATH_OPEN
    | 1 << PATH_FILESTAT_SET_SIZE
    | 1 << FD_FILESTAT_SET_SIZE;

/// The word of every bit that has a meaning.
const EVERY_RIGHT: u32 = READER_RIGHTS | WRITER_RIGHTS | 1 << PATH_UNLINK_FILE | EXECUTE_RIGHTS;

/// The bits that have a meaning, in rising order.
const KNOWN_BITS: [u8; 12] = [
    FD_READ,
    FD_SEEK,
    FD_TELL,
    FD_WRITE,
    PATH_CREATE_FILE,
    PATH_OPEN,
    PATH_FILESTAT_GET,
    PATH_FILESTAT_SET_SIZE,
    FD_FILESTAT_GET,
    FD_FILESTAT_SET_SIZE,
    PATH_UNLINK_FILE,
    EXECUTE,
];

/// A right, by its bit in a rights word. Contracts see it as that bit.
#[derive(Clone, Copy, Debug, PartialEq, Eq)]
pub struct Right {
    bit: u8,
}

impl Model for Right {
    ghost use Rattle.std.specs.Prelude.{ℕ};
    ghost use Rattle.vr_base.specs.Rights.{IsRight};

    ghost Value = { ℕ };

    ghost view = { λ right. right.bit };

    ghost invariant = { λ right. IsRight right.bit };

    ghost inverse = { λ bit. record { bit = bit } };
}

impl Right {
    /// The right of a bit. None where the bit has no meaning.
    pub fn new(bit: u8) -> Option<Right>
        ensures { result ≡ find (λ known. known == bit) right_bits }
    {
        if KNOWN_BITS.contains(&bit) {
            Some(Right { bit })
        } else {
            None
        }
    }

    /// The right's bit in a rights word.
    pub fn bit(self) -> u8
        ensures value { result ≡ self }
        ensures known { IsRight result }
    {
        self.bit
    }

    /// The right's name, as WASI preview 1 has it, and `execute` for the right to run a program.
    pub fn name(self) -> &'static str
        ensures { right_name self ≡ Some result.now }
    {
        match self.bit {
            FD_READ => "fd_read",
            FD_SEEK => "fd_seek",
            FD_TELL => "fd_tell",
            FD_WRITE => "fd_write",
            PATH_CREATE_FILE => "path_create_file",
            PATH_OPEN => "path_open",
            PATH_FILESTAT_GET => "path_filestat_get",
            PATH_FILESTAT_SET_SIZE => "path_filestat_set_size",
            FD_FILESTAT_GET => "fd_filestat_get",
            FD_FILESTAT_SET_SIZE => "fd_filestat_set_size",
            PATH_UNLINK_FILE => "path_unlink_file",
            _ => "execute",
        }
    }
}

/// The rights that a grant gives: a word of bits, of which only those with a meaning are kept.
/// Contracts see it as that number.
#[derive(Clone, Copy, Debug, PartialEq, Eq)]
pub struct RightsWord {
    word: u32,
}

impl Model for RightsWord {
    ghost use Rattle.std.specs.Prelude.{◌≡◌, ℕ};
    ghost use Rattle.vr_base.specs.Rights.{known_rights};

    ghost Value = { ℕ };

    ghost view = { λ rights. rights.word };

    ghost invariant = { λ rights. known_rights rights.word ≡ rights.word };

    ghost inverse = { λ word. record { word = word } };
}

impl RightsWord {
    /// The word without the bits that have no meaning.
    pub fn new(word: u32) -> RightsWord
        ensures { result ≡ known_rights word }
    {
        RightsWord {
            word: word & EVERY_RIGHT,
        }
    }

    /// The word's number.
    pub fn word(self) -> u32
        ensures value { result ≡ self }
        ensures known { known_rights result ≡ result }
    {
        self.word
    }

    /// The union of the rights of the letters: `r` reads, `w` writes, `x` executes. None
    /// where another byte is among them.
    pub fn of_letters(text: &[u8]) -> Option<RightsWord>
        ensures { result ≡ letters_word text.now }
    {
        let mut word = 0;
        for letter in text {
            word |= word_of_letter(*letter)?;
        }
        Some(RightsWord::new(word))
    }

    pub fn has(self, right: Right) -> bool
        ensures { result ≡ has_bit self right }
    {
        (self.word >> right.bit) % 2 == 1
    }

    /// The lowest right of the needed ones that is not among these.
    pub fn missing(self, needed: RightsWord) -> Option<Right>
        ensures { result ≡ missing_right self needed }
    {
        for bit in KNOWN_BITS {
            let right = Right { bit };
            if needed.has(right) && !self.has(right) {
                return Some(right);
            }
        }
        None
    }
}

fn word_of_letter(letter: u8) -> Option<u32>
    ensures { result ≡ letter_word letter }
{
    match letter {
        b'r' => Some(READER_RIGHTS),
        b'w' => Some(WRITER_RIGHTS),
        b'x' => Some(EXECUTE_RIGHTS),
        _ => None,
    }
}
