//! What the runtime replies to a call of a program.

ghost use Rattle.std.specs.Prelude.{◌≡◌, ◌≢◌, IfOk, OnErr};
ghost use Rattle.vr_wasi_calls.specs.Calls.{after};
ghost use Rattle.vr_wasi_calls.specs.Checks.{Becomes};
ghost use Rattle.vr_wasi_calls.specs.Functions.{ArgumentsFit};
ghost use Rattle.vr_wasi_calls.specs.Replies.{call_of, replied};
ghost use Rattle.vr_wasm_steps.specs.Hosts.{IsReply, StopsClean};

use crate::errno::{Errno, Refusal};
use crate::functions::Function;
use crate::state::State;
use vr_base::NoMemory;
use vr_wasm_num::Memory;
use vr_wasm_steps::HostAnswer;

/// What a program is answered where nothing failed.
const SUCCESS: u64 = 0;

impl State {
    /// Calls a function. Where memory runs out nothing has changed.
    #[tactic(auto, using(crate::proofs::FunctionLemmas::replied_others))]
    pub fn reply(
        &mut self,
        memory: &mut Memory,
        function: Function,
        args: &[u64],
    ) -> Result<HostAnswer, NoMemory>
        requires { ArgumentsFit function args.now }
        ensures ok { IfOk result (λ answer.
            IsReply (replied self.old memory.old function args.now) answer memory.new self.new) }
        ensures given { IfOk result (λ answer. answer ≢ HostAnswer.NoMemory) }
        ensures err { OnErr result (StopsClean memory.old memory.new self.old self.new) }
    {
        match (function, args) {
            (Function::ProcExit, [code]) => Ok(HostAnswer::Exit(*code as u32)),
            (Function::ProcExit, _) => Ok(HostAnswer::Nothing),
            (_, _) => match self.answer(memory, function, args) {
                Ok(()) => Ok(HostAnswer::Value(SUCCESS)),
                Err(Refusal::Check(errno)) => Ok(HostAnswer::Value(u64::from(errno.number()))),
                Err(Refusal::NoMemory) => Err(NoMemory),
            },
        }
    }

    /// Calls a function that answers an error number.
    fn answer(
        &mut self,
        memory: &mut Memory,
        function: Function,
        args: &[u64],
    ) -> Result<(), Refusal>
        requires { ArgumentsFit function args.now }
        ensures { Becomes (after self.old memory.old) (after self.new memory.new) result
            (call_of self.old memory.old function args.now) }
    {
        match (function, args) {
            (Function::FdRead, [fd, at, count, out]) => {
                self.fd_read(memory, *fd as u32, *at as u32, *count as u32, *out as u32)
            }
            (Function::FdWrite, [fd, at, count, out]) => {
                self.fd_write(memory, *fd as u32, *at as u32, *count as u32, *out as u32)
            }
            (Function::FdSeek, [fd, offset, whence, out]) => {
                self.fd_seek(memory, *fd as u32, *offset, *whence as u32, *out as u32)
            }
            (Function::FdTell, [fd, out]) => self.fd_tell(memory, *fd as u32, *out as u32),
            (Function::FdClose, [fd]) => self.fd_close(memory, *fd as u32),
            (Function::FdFdstatGet, [fd, out]) => {
                self.fd_fdstat_get(memory, *fd as u32, *out as u32)
            }
            (Function::FdFilestatGet, [fd, out]) => {
                self.fd_filestat_get(memory, *fd as u32, *out as u32)
            }
            (Function::FdFilestatSetSize, [fd, size]) => {
                self.fd_filestat_set_size(memory, *fd as u32, *size)
            }
            (Function::FdPrestatGet, [fd, out]) => {
                self.fd_prestat_get(memory, *fd as u32, *out as u32)
            }
            (Function::FdPrestatDirName, [fd, at, len]) => {
                self.fd_prestat_dir_name(memory, *fd as u32, *at as u32, *len)
            }
            (Function::PathOpen, [fd, _, at, len, oflags, asked, _, fdflags, out]) =>
                self.path_open(
                    memory,
                    *fd as u32,
                    *at as u32,
                    *len,
                    *oflags as u32,
                    *asked,
                    *fdflags as u32,
                    *out as u32,
                ),
            (Function::PathFilestatGet, [fd, _, at, len, out]) => {
                self.path_filestat_get(memory, *fd as u32, *at as u32, *len, *out as u32)
            }
            (Function::PathUnlinkFile, [fd, at, len]) => {
                self.path_unlink_file(memory, *fd as u32, *at as u32, *len)
            }
            (Function::ArgsSizesGet, [count, size]) => {
                self.args_sizes_get(memory, *count as u32, *size as u32)
            }
            (Function::ArgsGet, [list, text]) => {
                self.args_get(memory, *list as u32, *text as u32)
            }
            (Function::EnvironSizesGet, [count, size]) => {
                self.environ_sizes_get(memory, *count as u32, *size as u32)
            }
            (Function::EnvironGet, [_, _]) | (Function::SchedYield, []) => Ok(()),
            (Function::ClockTimeGet, [_, _, _]) | (Function::RandomGet, [_, _]) => {
                Err(Refusal::Check(Errno::Nosys))
            }
            (Function::Unsupported, _) => Err(Refusal::Check(Errno::Notsup)),
            (Function::ProcExit, _) => Err(Refusal::Check(Errno::Inval)),
            (_, _) => Err(Refusal::Check(Errno::Inval)),
        }
    }
}
