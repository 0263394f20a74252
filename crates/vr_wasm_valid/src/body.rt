//! The bodies of functions, and the instructions that have others inside them.

ghost use Rattle.std.specs.Prelude.{◌≡◌, ◌↔◌, IfOk, IsTrue, OnOk};
ghost use Rattle.vr_wasm_ast.specs.Instructions.{instruction_of, instructions_of};
ghost use Rattle.vr_wasm_valid.specs.Context.{inside_block};
ghost use Rattle.vr_wasm_valid.specs.Parts.{HasTypedBody};
ghost use Rattle.vr_wasm_valid.specs.Scope.{context_in, spaces_in};
ghost use Rattle.vr_wasm_valid.specs.Shape.{Checks};
ghost use Rattle.vr_wasm_valid.specs.Steps.{LeadsTo, Step, Types};

use crate::instructions::{
    check_br, check_br_if, check_br_table, check_call, check_call_indirect, check_global_get,
    check_global_set, check_load, check_local_get, check_local_set, check_local_tee, check_memory,
    check_numeric, check_store,
};
use crate::scope::{Scope, result_type};
use crate::spaces::IndexSpaces;
use crate::stack::Stack;
use sqlite_items::Items;
use std::alloc::{AllocError, Global};
use vr_wasm_ast::{Code, FuncType, Instr, ValType};

/// What a copy and a fill take: the destination, the source or the value, and the length.
const RANGE: [ValType; 3] = [ValType::I32, ValType::I32, ValType::I32];

/// Whether the instructions inside a block, a branch to which wants what `label` says, have a
/// typing from no operands to the wanted result alone.
#[cycle(sequence)]
fn check_block(
    scope: &mut Scope,
    label: Option<ValType>,
    body: &Items<Instr>,
    wanted: Option<ValType>,
) -> Result<bool, AllocError>
    ensures kept { OnOk result (scope.new ≡ scope.old) }
    ensures typed { IfOk result (λ fine. IsTrue fine ↔
        LeadsTo (inside_block label (context_in scope.old)) (instructions_of body.now) wanted) }
{
    let mut stack = Stack::new(scope.alloc);
    scope.labels.push(label)?;
    let fine = check_sequence(scope, body, &mut stack)?;
    scope.labels.pop();
    Ok(fine && stack.ends_with(wanted))
}

/// The same as of one instruction, of a sequence.
#[cycle(sequence)]
fn check_sequence(
    scope: &mut Scope,
    body: &Items<Instr>,
    stack: &mut Stack,
) -> Result<bool, AllocError>
    ensures kept { OnOk result (scope.new ≡ scope.old) }
    ensures checked { Checks result stack.old stack.new
        (Types (context_in scope.old) (instructions_of body.now)) }
{
    for instr in body.as_slice() {
        if !check_instr(scope, instr, stack)? {
            return Ok(false);
        }
    }
    Ok(true)
}

/// Whether the instruction can follow operands that the stack allows. The stack then allows
/// the operands that it leaves.
#[cycle(sequence)]
fn check_instr(scope: &mut Scope, instr: &Instr, stack: &mut Stack) -> Result<bool, AllocError>
    ensures kept { OnOk result (scope.new ≡ scope.old) }
    ensures checked { Checks result stack.old stack.new
        (Step (context_in scope.old) (instruction_of instr.now)) }
{
    match instr {
        Instr::Unreachable => Ok(stack.leave(None)),
        Instr::Nop => Ok(true),
        Instr::Block(kind, body) => {
            let fine = check_block(scope, *kind, body, *kind)?;
            stack.apply_if(fine, &[], *kind)
        },
        Instr::Loop(kind, body) => {
            let fine = check_block(scope, None, body, *kind)?;
            stack.apply_if(fine, &[], *kind)
        },
        Instr::If(kind, taken, other) => {
            let fine = check_block(scope, *kind, taken, *kind)?
                && check_block(scope, *kind, other, *kind)?;
            stack.apply_if(fine, &[ValType::I32], *kind)
        },
        Instr::Br(label) => Ok(check_br(scope, *label, stack)),
        Instr::BrIf(label) => check_br_if(scope, *label, stack),
        Instr::BrTable(labels, label) => {
            Ok(check_br_table(scope, labels.as_slice(), *label, stack))
        },
        Instr::Return => Ok(stack.leave(scope.returns)),
        Instr::Call(function) => check_call(scope, *function, stack),
        Instr::CallIndirect(sort) => check_call_indirect(scope, *sort, stack),
        Instr::Drop => Ok(stack.drop_one()),
        Instr::Select => stack.select(),
        Instr::LocalGet(local) => check_local_get(scope, *local, stack),
        Instr::LocalSet(local) => check_local_set(scope, *local, stack),
        Instr::LocalTee(local) => check_local_tee(scope, *local, stack),
        Instr::GlobalGet(global) => check_global_get(scope, *global, stack),
        Instr::GlobalSet(global) => check_global_set(scope, *global, stack),
        Instr::Load(op, exponent, offset) => check_load(scope, *op, *exponent, *offset, stack),
        Instr::Store(op, exponent, offset) => check_store(scope, *op, *exponent, *offset, stack),
        Instr::MemorySize => check_memory(scope, &[], Some(ValType::I32), stack),
        Instr::MemoryGrow => check_memory(scope, &[ValType::I32], Some(ValType::I32), stack),
        Instr::MemoryCopy => check_memory(scope, &RANGE, None, stack),
        Instr::MemoryFill => check_memory(scope, &RANGE, None, stack),
        Instr::I32Const(_) => stack.apply(&[], Some(ValType::I32)),
        Instr::I64Const(_) => stack.apply(&[], Some(ValType::I64)),
        Instr::Numeric(op) => check_numeric(scope, *op, stack),
    }
}

/// Whether the body of a function of this type has a typing.
pub fn check_body(
    alloc: Global,
    spaces: &IndexSpaces,
    sort: &FuncType,
    function: &Code,
) -> Result<bool, AllocError>
    ensures { IfOk result (λ fine. IsTrue fine ↔
        HasTypedBody (spaces_in spaces.now) sort.now function.now) }
{
    let returns = result_type(sort);
    let mut scope = Scope {
        alloc,
        spaces,
        params: &sort.params,
        declared: &function.locals,
        returns,
        labels: Items::new(alloc),
    };
    check_block(&mut scope, returns, &function.body, returns)
}
