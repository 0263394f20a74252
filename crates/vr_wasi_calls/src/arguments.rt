//! The calls that tell a program its one argument and that it has no environment.

ghost use Rattle.std.specs.Prelude.{◌≡◌};
ghost use Rattle.vr_wasi_calls.specs.Calls.{after, args_get_call, args_sizes_get_call, environ_sizes_get_call};
ghost use Rattle.vr_wasi_calls.specs.Checks.{Becomes};

use crate::checks::check_range;
use crate::errno::Refusal;
use crate::results::{put_bytes, put_u32};
use crate::state::State;
use vr_wasm_num::Memory;

impl State {
    #[tactic(auto, using(crate::proofs::MemoryLemmas::number_keeps_range))]
    pub fn args_sizes_get(&self, memory: &mut Memory, count: u32, size: u32) -> Result<(), Refusal>
        ensures { Becomes (after self.now memory.old) (after self.now memory.new) result
            (args_sizes_get_call self.now memory.old count size) }
    {
        check_range(memory, count, 4)?;
        check_range(memory, size, 4)?;
        put_u32(memory, count, 1);
        put_u32(memory, size, self.argument().len() as u64);
        Ok(())
    }

    #[tactic(auto, using(crate::proofs::MemoryLemmas::number_keeps_range))]
    pub fn args_get(&self, memory: &mut Memory, list: u32, text: u32) -> Result<(), Refusal>
        ensures { Becomes (after self.now memory.old) (after self.now memory.new) result
            (args_get_call self.now memory.old list text) }
    {
        check_range(memory, list, 4)?;
        check_range(memory, text, self.argument().len() as u64)?;
        put_u32(memory, list, u64::from(text));
        put_bytes(memory, u64::from(text), self.argument());
        Ok(())
    }

    #[tactic(auto, using(crate::proofs::MemoryLemmas::number_keeps_range))]
    pub fn environ_sizes_get(
        &self,
        memory: &mut Memory,
        count: u32,
        size: u32,
    ) -> Result<(), Refusal>
        ensures { Becomes (after self.now memory.old) (after self.now memory.new) result
            (environ_sizes_get_call self.now memory.old count size) }
    {
        check_range(memory, count, 4)?;
        check_range(memory, size, 4)?;
        put_u32(memory, count, 0);
        put_u32(memory, size, 0);
        Ok(())
    }
}
