//! Constant expressions (WebAssembly Core 1.0, section 3.3.7.2).

ghost use Rattle.std.specs.Prelude.{◌≡◌, ◌↔◌, IsTrue};
ghost use Rattle.vr_wasm_ast.specs.Instructions.{instruction_of, instructions_of};
ghost use Rattle.vr_wasm_valid.specs.Constant.{constant_type_of, global_constant_type};
ghost use Rattle.vr_wasm_valid.specs.Parts.{IsConstantExpression};

use crate::scope::same_type;
use vr_wasm_ast::{GlobalType, Instr, ValType};

/// The type of a global that is never set.
fn constant_global(globals: &[GlobalType], global: u32) -> Option<ValType>
    ensures { result ≡ global_constant_type globals.now global }
{
    let sort = globals.get(global as usize).copied()?;
    if sort.variable {
        None
    } else {
        Some(sort.value)
    }
}

/// The type of a constant instruction, or of a global that is never set.
fn constant_type(globals: &[GlobalType], instr: &Instr) -> Option<ValType>
    ensures { result ≡ constant_type_of globals.now (instruction_of instr.now) }
{
    match instr {
        Instr::I32Const(_) => Some(ValType::I32),
        Instr::I64Const(_) => Some(ValType::I64),
        Instr::GlobalGet(global) => constant_global(globals, *global),
        _ => None,
    }
}

/// Whether the expression is one constant of the wanted type, where it may name these globals.
pub fn is_constant_expression(globals: &[GlobalType], wanted: ValType, expression: &[Instr]) -> bool
    ensures { IsTrue result ↔
        IsConstantExpression globals.now wanted (instructions_of expression.now) }
{
    let [only] = expression else {
        return false;
    };
    same_type(constant_type(globals, only), Some(wanted))
}
