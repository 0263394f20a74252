//! Instructions without others inside them. Each check says whether the instruction can follow
//! operands that the stack allows; the stack then allows the operands that it leaves.

ghost use Rattle.std.specs.Prelude.{◌≡◌, [], ◌∷◌, ◌↔◌, reverse, slice_get, IsTrue, Some};
ghost use Rattle.vr_wasm_ast.specs.Instructions.{br, br_if, br_table, call, call_indirect, global_get, global_set, load, local_get, local_set, local_tee, numeric, store};
ghost use Rattle.vr_wasm_ast.specs.Opcodes.{numeric_operands, numeric_result};
ghost use Rattle.vr_wasm_valid.specs.Context.{result_list};
ghost use Rattle.vr_wasm_valid.specs.Scope.{context_in};
ghost use Rattle.vr_wasm_valid.specs.Shape.{Checks, Moves};
ghost use Rattle.vr_wasm_valid.specs.Steps.{Given, Step, Takes};
ghost use Rattle.vr_wasm_valid.specs.Typing.{AllWant, HasMemory};

use crate::scope::{Scope, result_type, same_type};
use crate::stack::Stack;
use std::alloc::AllocError;
use vr_wasm_ast::{NumericFamily, ValType, load_access, numeric_family, store_access};

/// `br`: what follows can't be reached.
pub fn check_br(scope: &Scope, label: u32, stack: &mut Stack) -> bool
    ensures { Moves result stack.old stack.new (Step (context_in scope.now) (br label)) }
{
    match scope.label(label) {
        Some(wanted) => stack.leave(wanted),
        None => false,
    }
}

pub fn check_br_if(scope: &Scope, label: u32, stack: &mut Stack) -> Result<bool, AllocError>
    ensures { Checks result stack.old stack.new (Step (context_in scope.now) (br_if label)) }
{
    match scope.label(label) {
        Some(wanted) => stack.apply_under_i32(wanted.as_slice(), wanted),
        None => Ok(false),
    }
}

fn wants(scope: &Scope, wanted: Option<ValType>, label: u32) -> bool
    ensures { IsTrue result ↔ (slice_get (context_in scope.now).labels label ≡ Some wanted) }
{
    match scope.label(label) {
        Some(found) => same_type(found, wanted),
        None => false,
    }
}

/// Whether each of these labels wants the same.
fn all_want(scope: &Scope, wanted: Option<ValType>, labels: &[u32]) -> bool
    ensures { IsTrue result ↔ AllWant (context_in scope.now).labels wanted labels.now }
{
    labels.iter().all(|label| wants(scope, wanted, *label))
}

/// `br_table`: its labels want the same as its default, also where it is never reached.
pub fn check_br_table(scope: &Scope, labels: &[u32], label: u32, stack: &mut Stack) -> bool
    ensures { Moves result stack.old stack.new
        (Step (context_in scope.now) (br_table labels.now label)) }
{
    match scope.label(label) {
        Some(wanted) => { all_want(scope, wanted, labels) && stack.leave_under_i32(wanted) },
        None => false,
    }
}

pub fn check_call(scope: &Scope, function: u32, stack: &mut Stack) -> Result<bool, AllocError>
    ensures { Checks result stack.old stack.new (Step (context_in scope.now) (call function)) }
{
    match scope.spaces.function_type(function) {
        Some(sort) => stack.apply(sort.params.as_slice(), result_type(sort)),
        None => Ok(false),
    }
}

pub fn check_call_indirect(scope: &Scope, sort: u32, stack: &mut Stack) -> Result<bool, AllocError>
    ensures { Checks result stack.old stack.new (Step (context_in scope.now) (call_indirect sort)) }
{
    if !scope.spaces.has_table() {
        return Ok(false);
    }
    match scope.spaces.type_at(sort) {
        Some(sort) => stack.apply_under_i32(sort.params.as_slice(), result_type(sort)),
        None => Ok(false),
    }
}

pub fn check_local_get(scope: &Scope, local: u32, stack: &mut Stack) -> Result<bool, AllocError>
    ensures { Checks result stack.old stack.new (Step (context_in scope.now) (local_get local)) }
{
    match scope.local_type(local) {
        Some(kind) => stack.apply(&[], Some(kind)),
        None => Ok(false),
    }
}

pub fn check_local_set(scope: &Scope, local: u32, stack: &mut Stack) -> Result<bool, AllocError>
    ensures { Checks result stack.old stack.new (Step (context_in scope.now) (local_set local)) }
{
    match scope.local_type(local) {
        Some(kind) => stack.apply(&[kind], None),
        None => Ok(false),
    }
}

pub fn check_local_tee(scope: &Scope, local: u32, stack: &mut Stack) -> Result<bool, AllocError>
    ensures { Checks result stack.old stack.new (Step (context_in scope.now) (local_tee local)) }
{
    match scope.local_type(local) {
        Some(kind) => stack.apply(&[kind], Some(kind)),
        None => Ok(false),
    }
}

pub fn check_global_get(scope: &Scope, global: u32, stack: &mut Stack) -> Result<bool, AllocError>
    ensures { Checks result stack.old stack.new (Step (context_in scope.now) (global_get global)) }
{
    match scope.spaces.global_type(global) {
        Some(sort) => stack.apply(&[], Some(sort.value)),
        None => Ok(false),
    }
}

pub fn check_global_set(scope: &Scope, global: u32, stack: &mut Stack) -> Result<bool, AllocError>
    ensures { Checks result stack.old stack.new (Step (context_in scope.now) (global_set global)) }
{
    match scope.spaces.global_type(global) {
        Some(sort) if sort.variable => stack.apply(&[sort.value], None),
        _ => Ok(false),
    }
}

/// Takes operands off, the last one first, and puts a result on, where there is a memory.
pub fn check_memory(
    scope: &Scope,
    taken: &[ValType],
    given: Option<ValType>,
    stack: &mut Stack,
) -> Result<bool, AllocError>
    ensures { Checks result stack.old stack.new
        (Given (HasMemory (context_in scope.now).spaces)
        (Takes (reverse taken.now) (result_list given))) }
{
    stack.apply_if(scope.spaces.has_memory(), taken, given)
}

/// A load, whose alignment is at most the natural one of its width.
pub fn check_load(
    scope: &Scope,
    op: u8,
    exponent: u32,
    offset: u32,
    stack: &mut Stack,
) -> Result<bool, AllocError>
    ensures { Checks result stack.old stack.new
        (Step (context_in scope.now) (load op exponent offset)) }
{
    match load_access(op) {
        Some(loaded) if exponent <= loaded.exponent => {
            check_memory(scope, &[ValType::I32], Some(loaded.value), stack)
        },
        _ => Ok(false),
    }
}

/// A store, whose alignment is at most the natural one of its width.
pub fn check_store(
    scope: &Scope,
    op: u8,
    exponent: u32,
    offset: u32,
    stack: &mut Stack,
) -> Result<bool, AllocError>
    ensures { Checks result stack.old stack.new
        (Step (context_in scope.now) (store op exponent offset)) }
{
    match store_access(op) {
        Some(stored) if exponent <= stored.exponent => {
            check_memory(scope, &[ValType::I32, stored.value], None, stack)
        },
        _ => Ok(false),
    }
}

fn apply_family(family: NumericFamily, stack: &mut Stack) -> Result<bool, AllocError>
    ensures { Checks result stack.old stack.new
        (Takes (numeric_operands family) (numeric_result family ∷ [])) }
{
    match family {
        NumericFamily::Unary(kind) => stack.apply(&[kind], Some(kind)),
        NumericFamily::Binary(kind) => stack.apply(&[kind, kind], Some(kind)),
        NumericFamily::Test(kind) => stack.apply(&[kind], Some(ValType::I32)),
        NumericFamily::Comparison(kind) => stack.apply(&[kind, kind], Some(ValType::I32)),
        NumericFamily::Conversion(from, to) => stack.apply(&[from], Some(to)),
    }
}

pub fn check_numeric(scope: &Scope, op: u8, stack: &mut Stack) -> Result<bool, AllocError>
    ensures { Checks result stack.old stack.new (Step (context_in scope.now) (numeric op)) }
{
    match numeric_family(op) {
        Some(family) => apply_family(family, stack),
        None => Ok(false),
    }
}
