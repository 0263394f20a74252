ghost use Rattle.std.specs.Prelude.{◌≡◌, IfErr, MatchResult, OnOk};
ghost use Rattle.vr_wasm_ast.specs.Limits.{HasCodeForEach, MeetsLimits};
ghost use Rattle.vr_wasm_valid.specs.Answer.{IfPart, Judges};
ghost use Rattle.vr_wasm_valid.specs.Parts.{IsFirstRefused, IsTyped, IsTypedIn, components};
ghost use Rattle.vr_wasm_valid.specs.Context.{spaces_of};
ghost use Rattle.vr_wasm_valid.specs.Scope.{spaces_in};
ghost use Rattle.vr_wasm_valid.specs.Valid.{IsValid, PartsFit};

use crate::answer::Invalid;
use crate::components::{
    check_bodies, check_elements, check_exports, check_functions, check_globals, check_imports,
    check_memories, check_segments, check_start, check_tables,
};
use crate::spaces::IndexSpaces;
use std::alloc::Global;
use std::marker::Model;
use vr_wasm_ast::Module;

/// The components of the module, part by part.
fn check_components(alloc: Global, spaces: &IndexSpaces, module: &Module) -> Result<(), Invalid>
    requires spaces_of { spaces_in spaces.now ≡ spaces_of «module».now }
    requires limits { MeetsLimits «module».now }
    requires codes { HasCodeForEach «module».now }
    ensures { Judges (IsTypedIn (spaces_in spaces.now) «module».now)
        (components «module».now) result }
{
    check_imports(spaces, module)?;
    check_functions(spaces, module)?;
    check_tables(spaces, module)?;
    check_memories(spaces, module)?;
    check_globals(spaces, module)?;
    check_exports(alloc, spaces, module)?;
    check_start(spaces, module)?;
    check_elements(spaces, module)?;
    check_bodies(alloc, spaces, module)?;
    check_segments(spaces, module)
}

fn check_module(alloc: Global, module: &Module) -> Result<(), Invalid>
    requires limits { MeetsLimits «module».now }
    requires codes { HasCodeForEach «module».now }
    ensures { Judges (IsTypedIn (spaces_of «module».now) «module».now)
        (components «module».now) result }
{
    let spaces = IndexSpaces::of(alloc, module)?;
    check_components(alloc, &spaces, module)
}

/// A module that is valid: each of its components is typed.
#[derive(Debug, Drop)]
pub struct ValidModule {
    tree: Module,
}

impl Model for ValidModule {
    ghost use Rattle.std.specs.Coded.{codes};
    ghost use Rattle.vr_wasm_ast.specs.contracts.instr.Instr as instr;
    ghost use Rattle.vr_wasm_ast.specs.declared.tree.Module.{Module};

    ghost Value = { Module };

    ghost coded = { Prim.hlevel (codes, instr.the_row.coded) };

    ghost use Rattle.vr_wasm_valid.specs.Valid.{IsValid};

    ghost view = { λ v. v.tree };

    ghost invariant = { λ v. IsValid v.tree };
}

impl ValidModule {
    pub fn module(&self) -> &Module
        ensures value { result.now ≡ self.now }
        ensures valid { IsValid self.now }
        ensures parts { PartsFit self.now }
    {
        &self.tree
    }
}

/// Whether the module is valid (WebAssembly Core 1.0, section 3.4). Where it isn't, the answer
/// names the first component that breaks its rule, and hands the module back.
pub fn validate(alloc: Global, module: Module) -> Result<ValidModule, (Invalid, Module)>
    requires limits { MeetsLimits «module» }
    requires codes { HasCodeForEach «module» }
    ensures same { MatchResult result (λ v. v ≡ «module») (λ refused. refused.1 ≡ «module») }
    ensures typed { OnOk result (IsTyped «module») }
    ensures untyped { IfErr result (λ refused. IfPart refused.0 (λ _ _. IsTyped «module» → ⊥)) }
    ensures first { IfErr result (λ refused. IfPart refused.0 (IsFirstRefused «module»)) }
{
    match check_module(alloc, &module) {
        Ok(()) => Ok(ValidModule { tree: module }),
        Err(invalid) => Err((invalid, module)),
    }
}
