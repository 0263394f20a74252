//! The functions that a program may import.

ghost use Rattle.std.specs.Prelude.{◌≡◌, ◌≤◌, ℕ, List, Option};
ghost use Rattle.vr_wasm_ast.specs.declared.tree.FuncType.{FuncType};
ghost use Rattle.vr_wasm_num.specs.Memory.{Contents};
ghost use Rattle.vr_wasm_steps.specs.Hosts.{Reply, IsReply, IsAskable, RepliesFit, Rose, StopsClean};

use vr_wasm_ast::FuncType;
use vr_wasm_num::Memory;

/// What a host answers to a call.
#[derive(Clone, Copy, Debug)]
pub enum HostAnswer {
    Value(u64),
    Nothing,
    /// The program ends with this code.
    Exit(u32),
    /// Memory ran out.
    NoMemory,
}

/// What a program imports. Its world is all that its replies depend on beside the arguments and the memory; its count
/// of stops, which never falls, is no part of the world.
pub trait Host {
    ghost World: { Type 0 };

    ghost world: { Self → World };

    ghost stops: { Self → ℕ };

    ghost finds: { List ℕ → List ℕ → FuncType → Option ℕ };

    ghost reply: { World → ℕ → List ℕ → Contents → Reply World };

    /// The number of the function of these names and this type, where there is one.
    fn find(&self, module: &[u8], name: &[u8], sort: &FuncType) -> Option<u32>
        ensures { result ≡ finds «module».now name.now sort.now };

    /// Calls a function by its number.
    fn call(&mut self, which: u32, args: &[u64], memory: &mut Memory) -> HostAnswer
        requires { IsAskable finds which args.now }
        ensures answer { IsReply (reply (world self.old) which args.now memory.old) result
            memory.new (world self.new) }
        ensures counted { stops self.old ≤ stops self.new }
        ensures stopped { result ≡ HostAnswer.NoMemory → Rose (stops self.old) (stops self.new) }
        ensures unchanged { result ≡ HostAnswer.NoMemory
            → StopsClean memory.old memory.new (world self.old) (world self.new) };

    ghost replies_fit: { RepliesFit finds reply };
}
