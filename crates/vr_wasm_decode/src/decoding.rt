//! Bytes to modules.

ghost use Rattle.std.specs.Prelude.{◌≡◌, ◌≤◌, length, Ok, IfOk};
ghost use Rattle.vr_wasm_ast.specs.declared.tree.Module.{Module};
ghost use Rattle.vr_wasm_ast.specs.Checks.{GivesBy};
ghost use Rattle.vr_wasm_ast.specs.Limits.{MeetsLimits, HasCodeForEach};
ghost use Rattle.vr_wasm_ast.specs.Modules.{IsModule};
ghost use Rattle.vr_wasm_decode.specs.Faults.{told_by_decode};
ghost use Rattle.vr_wasm_decode.specs.Modules.{module_of};

use crate::fault::{DecodeFault, DecodeKind, ReadError};
use crate::sections::read_module;
use std::alloc::Global;
use vr_wasm_ast::Module;

/// The module that the bytes spell (WebAssembly Core 1.0, chapter 5, without floating point; of
/// Core 2.0 the sign extensions, `memory.copy`, `memory.fill` and the data count section), within
/// this project's limits, without its custom sections. A fault is that of the first item, from the
/// left, that can't be read, at the offset of the item's first byte.
///
/// Takes time and memory linear in the number of the bytes plus that of the locals that functions
/// declare: a few bytes declare up to 8,192 of a function, and the module keeps each by itself.
pub fn decode(alloc: Global, bytes: &[u8]) -> Result<Module, DecodeFault>
    requires { length bytes.now ≤ 16777216 }
    // What is decoded is so spelled.
    ensures found { IfOk result (λ m. IsModule bytes.now m) }
    // What is so spelled is decoded, unless memory runs out.
    ensures only { (m : Module) → IsModule bytes.now m → GivesBy told_by_decode result (Ok m) }
    // Bytes are at most one module.
    ensures unique { (m n : Module) → IsModule bytes.now m → IsModule bytes.now n → m ≡ n }
    // Which fault it is, unless memory runs out.
    ensures exact { GivesBy told_by_decode result (module_of bytes.now) }
    ensures limits { IfOk result MeetsLimits }
    ensures codes { IfOk result HasCodeForEach }
{
    match read_module(alloc, bytes) {
        Ok(decoded) => Ok(decoded),
        Err(ReadError::Fault(fault)) => Err(fault),
        Err(ReadError::OutOfMemory) => Err(DecodeFault {
            kind: DecodeKind::OutOfMemory,
            at: 0,
        }),
    }
}
