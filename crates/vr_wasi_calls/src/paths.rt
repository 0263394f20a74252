//! The calls that name files by their paths.

ghost use Rattle.std.specs.Prelude.{◌≡◌, bit_and, OnOk, OnErr};
ghost use Rattle.std.specs.Option.{option_copied};
ghost use Rattle.vr_wasi_calls.specs.Calls.{after, opening_check, path_open_call, path_unlink_file_call, with_opened};
ghost use Rattle.vr_wasi_calls.specs.Checks.{Becomes, Finds};
ghost use Rattle.vr_wasi_calls.specs.Descriptors.{file_rights};
ghost use Rattle.vr_wasi_calls.specs.Worlds.{file_at};

use crate::checks::{check_range, check_right, has_bit, read_path, refuse_if};
use crate::descriptors::{Descriptor, OpenFile};
use crate::errno::{Errno, Refusal};
use crate::results::put_u32;
use crate::state::State;
use vr_base::{
    FD_FILESTAT_GET, FD_FILESTAT_SET_SIZE, FD_READ, FD_SEEK, FD_TELL, FD_WRITE, NoMemory,
    PATH_CREATE_FILE, PATH_FILESTAT_SET_SIZE, PATH_OPEN, PATH_UNLINK_FILE, Path, RightsWord,
};
use vr_files::FileBody;
use vr_wasm_num::Memory;

/// The bits of the flags of an opening: make the file, want a directory, want a new file, cut it to
/// nothing.
const CREATE: u8 = 0;

const WANT_DIRECTORY: u8 = 1;

const WANT_NEW: u8 = 2;

const CUT: u8 = 3;

/// The greatest flags of an opening, and of a descriptor, that have a meaning.
const MOST_OFLAGS: u32 = 15;

const MOST_FDFLAGS: u32 = 31;

/// The bit of a descriptor's flags by which each write goes to the end.
const APPEND: u8 = 0;

/// The rights that a file's descriptor can have.
const FILE_RIGHTS: u32 = 1 << FD_READ
    | 1 << FD_SEEK
    | 1 << FD_TELL
    | 1 << FD_WRITE
    | 1 << FD_FILESTAT_GET
    | 1 << FD_FILESTAT_SET_SIZE;

/// Refuses where the flags or the word don't let a file that is there, or is not, be opened.
fn check_opening(flags: u32, word: u32, body: Option<&FileBody>) -> Result<(), Errno>
    ensures { Finds result (opening_check flags word (option_copied body.entry)) }
{
    match body {
        None => {
            refuse_if(!has_bit(flags, CREATE), Errno::Noent)?;
            check_right(word, PATH_CREATE_FILE)
        }
        Some(_) => {
            refuse_if(
                has_bit(flags, CREATE) && has_bit(flags, WANT_NEW),
                Errno::Exist,
            )?;
            let may_cut = has_bit(word, PATH_FILESTAT_SET_SIZE);
            refuse_if(has_bit(flags, CUT) && !may_cut, Errno::Notcapable)
        }
    }
}

/// What is asked for, as far as the word lets pass what a file's descriptor can have.
#[tactic(auto, using(crate::proofs::RightsLemmas::masked_known, std::proofs::lemmas::Nat::and_le_r))]
fn allowed(asked: u64, word: u32) -> RightsWord
    ensures { result ≡ bit_and asked (bit_and word file_rights) }
{
    RightsWord::new((asked & u64::from(word & FILE_RIGHTS)) as u32)
}

impl State {
    /// Makes the file of an opening, or cuts it where the flags say so.
    fn prepare(&mut self, path: &Path, flags: u32) -> Result<(), NoMemory>
        ensures ok { OnOk result
            (self.new ≡ with_opened self.old path.now flags (file_at self.old path.now)) }
        ensures err { OnErr result (self.new ≡ self.old) }
    {
        if self.file(path).is_some() && !has_bit(flags, CUT) {
            return Ok(());
        }
        self.make_empty(path)
    }

    pub fn path_open(
        &mut self,
        memory: &mut Memory,
        fd: u32,
        at: u32,
        len: u64,
        oflags: u32,
        asked: u64,
        fdflags: u32,
        out: u32,
    ) -> Result<(), Refusal>
        ensures { Becomes (after self.old memory.old) (after self.new memory.new) result
            (path_open_call self.old memory.old fd at len oflags asked fdflags out) }
    {
        self.check_directory(fd)?;
        check_range(memory, at, len)?;
        check_range(memory, out, 4)?;
        let path = read_path(self.alloc(), memory, at, len)?;
        let word = self.word_on(&path);
        check_right(word, PATH_OPEN)?;
        refuse_if(oflags > MOST_OFLAGS || fdflags > MOST_FDFLAGS, Errno::Inval)?;
        refuse_if(has_bit(oflags, WANT_DIRECTORY), Errno::Notsup)?;
        check_opening(oflags, word, self.file(&path))?;
        let number = self.free_number().ok_or(Errno::Mfile)?;
        self.prepare(&path, oflags)?;
        let file = OpenFile {
            path,
            position: 0,
            appends: has_bit(fdflags, APPEND),
            base: allowed(asked, word),
        };
        self.set_descriptor(number, Descriptor::File(file));
        put_u32(memory, out, u64::from(number));
        Ok(())
    }

    pub fn path_unlink_file(
        &mut self,
        memory: &Memory,
        fd: u32,
        at: u32,
        len: u64,
    ) -> Result<(), Refusal>
        ensures { Becomes (after self.old memory.now) (after self.new memory.now) result
            (path_unlink_file_call self.old memory.now fd at len) }
    {
        self.check_directory(fd)?;
        check_range(memory, at, len)?;
        let path = read_path(self.alloc(), memory, at, len)?;
        check_right(self.word_on(&path), PATH_UNLINK_FILE)?;
        self.file(&path).ok_or(Errno::Noent)?;
        self.remove_file(&path)?;
        Ok(())
    }
}
