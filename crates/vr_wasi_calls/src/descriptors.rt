//! What a program's descriptors stand for.

ghost use Rattle.std.specs.Prelude.{◌≡◌, ◌<◌};
ghost use Rattle.vr_base.specs.Checks.{value_of};
ghost use Rattle.vr_wasi_calls.specs.Checks.{Finds};
ghost use Rattle.vr_wasi_calls.specs.Descriptors.{as_file, base_check, base_of, flags_of, inheriting_of, is_directory, is_open, stat_of, type_of};

use crate::checks::check_right;
use crate::errno::Errno;
use vr_base::{FD_READ, FD_WRITE, Path, RightsWord};
use vr_wasi_abi::FdStat;

/// How many descriptors a program has.
pub const DESCRIPTORS: usize = 64;

/// The first descriptor that can stand for a file.
pub const FIRST_FILE: usize = 4;

/// A file that a program has opened. It is known by its path: where the file is taken out and made
/// again, the descriptor stands for the new one.
#[derive(Debug, Drop)]
pub struct OpenFile {
    pub path: Path,
    /// Where the next read begins, and the next write unless it appends.
    pub position: u64,
    /// Each write goes to the end.
    pub appends: bool,
    /// What may be done by this descriptor.
    pub base: RightsWord,
}

/// What a descriptor stands for.
#[derive(Debug, Drop)]
pub enum Descriptor {
    Closed,
    /// What the program before it wrote.
    Input,
    Output,
    /// Messages, which nobody reads.
    Errors,
    /// The directory `/`, from which paths are opened.
    Directory,
    File(OpenFile),
}

/// What may be done by a stream that is read.
const READS: u32 = 1 << FD_READ;

/// What may be done by a stream that is written.
const WRITES: u32 = 1 << FD_WRITE;

/// Every right of WASI preview 1, which the directory tells.
const EVERY_RIGHT: u32 = (1 << 29) - 1;

/// The file type of a character device.
const DEVICE: u8 = 2;

/// The file type of a directory.
const DIRECTORY: u8 = 3;

/// The file type of a regular file.
pub const REGULAR_FILE: u8 = 4;

impl Descriptor {
    pub fn is_open(&self) -> bool
        ensures { result ≡ is_open self.now }
    {
        match self {
            Descriptor::Closed => false,
            _ => true,
        }
    }

    pub fn is_directory(&self) -> bool
        ensures { result ≡ is_directory self.now }
    {
        match self {
            Descriptor::Directory => true,
            _ => false,
        }
    }

    /// The type of the file that it stands for.
    pub fn file_type(&self) -> u8
        ensures { result ≡ type_of self.now }
    {
        match self {
            Descriptor::Directory => DIRECTORY,
            Descriptor::File(_) => REGULAR_FILE,
            _ => DEVICE,
        }
    }

    /// What may be done by it.
    pub fn base(&self) -> u32
        ensures { result ≡ base_of self.now }
    {
        match self {
            Descriptor::Closed => 0,
            Descriptor::Input => READS,
            Descriptor::Output | Descriptor::Errors => WRITES,
            Descriptor::Directory => EVERY_RIGHT,
            Descriptor::File(file) => file.base.word(),
        }
    }

    /// What may be done by descriptors that are opened from it.
    pub fn inheriting(&self) -> u32
        ensures { result ≡ inheriting_of self.now }
    {
        match self {
            Descriptor::Directory => EVERY_RIGHT,
            _ => 0,
        }
    }

    /// 1 where each write goes to the end.
    pub fn flags(&self) -> u16
        ensures { result ≡ flags_of self.now }
    {
        match self {
            Descriptor::File(file) => u16::from(file.appends),
            _ => 0,
        }
    }

    /// What is told of it.
    pub fn stat(&self) -> FdStat
        ensures { result ≡ stat_of self.now }
    {
        FdStat {
            filetype: self.file_type(),
            flags: self.flags(),
            base: u64::from(self.base()),
            inheriting: u64::from(self.inheriting()),
        }
    }

    /// Refuses a descriptor whose base word lacks the bit.
    pub fn check_base(&self, bit: u8) -> Result<(), Errno>
        requires { bit < 32 }
        ensures { Finds result (base_check self.now bit) }
    {
        check_right(self.base(), bit)
    }

    /// The file that it stands for.
    pub fn as_file(&self) -> Result<&OpenFile, Errno>
        ensures { Finds (value_of result) (as_file self.now) }
    {
        match self {
            Descriptor::File(file) => Ok(file),
            _ => Err(Errno::Badf),
        }
    }
}
