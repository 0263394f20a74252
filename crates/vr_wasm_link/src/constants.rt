//! The values of constant expressions.

ghost use Rattle.std.specs.Prelude.{◌≡◌, IfOk, slice_get, unwrap_or};
ghost use Rattle.vr_wasm_ast.specs.Instructions.{instruction_of, instructions_of};
ghost use Rattle.vr_wasm_link.specs.Constants.{constant_value, global_values, instruction_value};

use std::alloc::{AllocError, Global};
use vr_wasm_ast::{GlobalDef, Instr};

fn value_of_global(globals: &[u64], global: u32) -> u64
    ensures { result ≡ unwrap_or (slice_get globals.now global) 0 }
{
    globals.get(global as usize).copied().unwrap_or(0)
}

fn value_of_instr(globals: &[u64], instr: &Instr) -> u64
    ensures { result ≡ instruction_value globals.now (instruction_of instr.now) }
{
    match instr {
        Instr::I32Const(value) => u64::from(value.cast_unsigned()),
        Instr::I64Const(value) => value.cast_unsigned(),
        Instr::GlobalGet(global) => value_of_global(globals, *global),
        _ => 0,
    }
}

/// The value of an expression that is one constant, where these are the values of the globals that it may name.
pub fn value_of(globals: &[u64], expression: &[Instr]) -> u64
    ensures { result ≡ constant_value globals.now (instructions_of expression.now) }
{
    match expression {
        [only] => value_of_instr(globals, only),
        _ => 0,
    }
}

/// The first values of the globals of a module that imports none.
pub fn values_of_globals(alloc: Global, globals: &[GlobalDef]) -> Result<Vec<u64>, AllocError>
    ensures { IfOk result (λ all. all.items ≡ global_values globals.now) }
{
    globals
        .iter()
        .map(|global| value_of(&[], global.init.as_slice()))
        .collect(alloc)
}
