//! Modules that are fit to run.

ghost use Rattle.std.specs.Prelude.{◌≤◌, length, IfOk};
ghost use Rattle.vr_wasm_ast.specs.Limits.{HasCodeForEach, MeetsLimits};

use crate::unanswered::Unanswered;
use std::alloc::Global;
use vr_wasm_ast::Module;
use vr_wasm_decode::decode;
use vr_wasm_valid::{ValidModule, validate};

/// How many bytes a module may have.
const MOST_BYTES: usize = 16_777_216;

/// The module that the bytes spell.
fn read_module(alloc: Global, bytes: &[u8]) -> Result<Module, Unanswered>
    requires { length bytes.now ≤ MOST_BYTES }
    ensures limits { IfOk result MeetsLimits }
    ensures codes { IfOk result HasCodeForEach }
{
    match decode(alloc, bytes) {
        Ok(module) => Ok(module),
        Err(_) => Err(Unanswered::Form),
    }
}

/// The valid module of these bytes.
pub fn valid_module(alloc: Global, bytes: &[u8]) -> Result<ValidModule, Unanswered> {
    if bytes.len() > MOST_BYTES {
        return Err(Unanswered::Form);
    }
    match validate(alloc, read_module(alloc, bytes)?) {
        Ok(valid) => Ok(valid),
        Err(_) => Err(Unanswered::Form),
    }
}
