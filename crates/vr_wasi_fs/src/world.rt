//! The world of a running program.

ghost use Rattle.std.specs.Prelude.{◌≡◌, IfOk};
ghost use Rattle.vr_wasi_calls.specs.Worlds.{first_world};

use std::alloc::Global;
use vr_base::{Bytes, Grants, NoMemory, Path};
use vr_files::Overlay;
use vr_wasi_calls::{State, find_function, function_of};
use vr_wasm_ast::FuncType;
use vr_wasm_in_step::{Alike, Keeps};
use vr_wasm_num::Memory;
use vr_wasm_steps::{Host, HostAnswer};

/// What a program's calls read and change, and how often one of them stopped because memory ran
/// out.
#[derive(Drop)]
pub struct World {
    state: State,
    stops: u64,
}

impl World {
    /// What a program of this path begins with: nothing of the input is read, nothing is written,
    /// and no file is open.
    pub fn new(
        alloc: Global,
        path: Path,
        grants: Grants,
        files: Overlay,
        input: Bytes,
    ) -> Result<World, NoMemory>
        ensures { IfOk result (λ world.
            world ≡ record { state = first_world path grants files input; stops = 0 }) }
    {
        Ok(World {
            state: State::new(alloc, path, grants, files, input)?,
            stops: 0,
        })
    }

    /// The files and the output.
    pub fn take(self) -> (Overlay, Bytes)
        ensures files { result.0 ≡ self.state.files }
        ensures output { result.1 ≡ self.state.output }
    {
        self.state.into_parts()
    }
}

impl Host for World {
    ghost use Rattle.std.specs.Prelude.{◌≡◌, ◌≤◌};
    ghost use Rattle.vr_wasi_calls.specs.Functions.{finds};
    ghost use Rattle.vr_wasi_calls.specs.Replies.{reply};
    ghost use Rattle.vr_wasi_calls.specs.Worlds.{World as ProgramWorld};
    ghost use Rattle.vr_wasi_fs.specs.Agreement.{ChangesOnly, IsIsolated};
    ghost use Rattle.vr_wasi_fs.specs.Fits.{replies_fit_each};
    ghost use Rattle.vr_wasm_steps.specs.Hosts.{IsAskable, IsReply, Rose, StopsClean};

    ghost World = { ProgramWorld };

    ghost world = { λ host. host.state };

    ghost stops = { λ host. host.stops };

    ghost finds = { finds };

    ghost reply = { reply };

    ghost replies_fit = { replies_fit_each };

    fn find(&self, module: &[u8], name: &[u8], sort: &FuncType) -> Option<u32> {
        find_function(module, name, sort)
    }

    #[tactic(auto, using(vr_wasi_calls::proofs::FunctionLemmas::askable_fits))]
    fn call(&mut self, which: u32, args: &[u64], memory: &mut Memory) -> HostAnswer
        requires { IsAskable finds which args.now }
        ensures answer { let told = reply self.old.state which args.now memory.old in
            IsReply told result memory.new self.new.state }
        ensures counted { self.old.stops ≤ self.new.stops }
        ensures stopped { result ≡ HostAnswer.NoMemory → Rose self.old.stops self.new.stops }
        ensures unchanged { result ≡ HostAnswer.NoMemory
            → StopsClean memory.old memory.new self.old.state self.new.state }
        ensures isolated { IsIsolated self.old.state which args.now memory.old
            result memory.new self.new.state }
        ensures changes { ChangesOnly self.old.state self.new.state }
    {
        self.state.known();
        match self.state.reply(memory, function_of(which), args) {
            Ok(answer) => answer,
            Err(NoMemory) => {
                self.stops = self.stops.saturating_add(1);
                HostAnswer::NoMemory
            }
        }
    }
}

/// Worlds that agree but for files of which the program can't learn are alike to it.
impl Alike for World {
    ghost use Rattle.vr_wasi_calls.specs.Replies.{reply};
    ghost use Rattle.vr_wasi_calls.specs.Worlds.{World as ProgramWorld};
    ghost use Rattle.vr_wasi_fs.specs.Agreement.{AreAlike};
    ghost use Rattle.vr_wasi_fs.specs.Isolation.{replies_agree_each};

    ghost World = { ProgramWorld };

    ghost alike = { AreAlike };

    ghost reply = { reply };

    ghost replies_agree = { replies_agree_each };
}

/// Since another world no file has changed but those that the program may change.
impl Keeps for World {
    ghost use Rattle.vr_wasi_calls.specs.Replies.{reply};
    ghost use Rattle.vr_wasi_calls.specs.Worlds.{World as ProgramWorld};
    ghost use Rattle.vr_wasi_fs.specs.Agreement.{Keeps as KeepsSince};
    ghost use Rattle.vr_wasi_fs.specs.Isolation.{replies_keep_each};

    ghost World = { ProgramWorld };

    ghost kept = { KeepsSince };

    ghost reply = { reply };

    ghost replies_keep = { replies_keep_each };
}
