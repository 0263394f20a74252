//! What the programs may import.

ghost use Rattle.std.specs.Prelude.{◌≡◌, ◌≤◌};

use vr_wasm_ast::FuncType;
use vr_wasm_num::Memory;
use vr_wasm_steps::{Host, HostAnswer};

/// A host whose functions, of any name, take and give nothing, and do nothing.
#[derive(Drop)]
pub struct Rest;

impl Host for Rest {
    ghost use Rattle.vr_wasm_bench.specs.Rest.{found, rests, fit};

    ghost World = { Unit {0} };

    ghost world = { λ _. tt };

    ghost stops = { λ _. 0 };

    ghost finds = { found };

    ghost reply = { rests };

    fn find(&self, _module: &[u8], _name: &[u8], sort: &FuncType) -> Option<u32> {
        match (sort.params.as_slice(), sort.results.as_slice()) {
            ([], []) => Some(0),
            _ => None,
        }
    }

    fn call(&mut self, _which: u32, _args: &[u64], _memory: &mut Memory) -> HostAnswer {
        HostAnswer::Nothing
    }

    ghost replies_fit = { fit };
}
