//! The checks of a module's components, part by part.

ghost use Rattle.std.specs.Prelude.{◌≡◌};
ghost use Rattle.vr_wasm_ast.specs.Limits.{HasCodeForEach, MeetsLimits};
ghost use Rattle.vr_wasm_valid.specs.Answer.{Judges};
ghost use Rattle.vr_wasm_valid.specs.Context.{spaces_of};
ghost use Rattle.vr_wasm_valid.specs.Parts.{IsTypedIn, placed_bodies, placed_elements, placed_exports, placed_functions, placed_globals, placed_imports, placed_memories, placed_segments, placed_start, placed_tables};
ghost use Rattle.vr_wasm_valid.specs.Scope.{spaces_in};

use crate::answer::{
    BODIES, ELEMENTS, EXPORTS, FUNCTIONS, GLOBALS, IMPORTS, Invalid, MEMORIES, SEGMENTS, START,
    TABLES, refuse,
};
use crate::exports::unfit_export;
use crate::parts::{
    unfit_body, unfit_element, unfit_function, unfit_global, unfit_import, unfit_memory,
    unfit_segment, unfit_start, unfit_table,
};
use crate::spaces::IndexSpaces;
use std::alloc::Global;
use vr_wasm_ast::Module;

pub fn check_imports(spaces: &IndexSpaces, module: &Module) -> Result<(), Invalid>
    requires spaces_of { spaces_in spaces.now ≡ spaces_of «module».now }
    requires limits { MeetsLimits «module».now }
    ensures { Judges (IsTypedIn (spaces_in spaces.now) «module».now)
        (placed_imports «module».now) result }
{
    refuse(IMPORTS, 0, unfit_import(spaces, module.imports.as_slice()))
}

pub fn check_functions(spaces: &IndexSpaces, module: &Module) -> Result<(), Invalid>
    requires spaces_of { spaces_in spaces.now ≡ spaces_of «module».now }
    requires limits { MeetsLimits «module».now }
    ensures { Judges (IsTypedIn (spaces_in spaces.now) «module».now)
        (placed_functions «module».now) result }
{
    let own = module.functions.as_slice();
    let imported = spaces.functions.len() - own.len();
    refuse(FUNCTIONS, imported, unfit_function(spaces, own))
}

pub fn check_tables(spaces: &IndexSpaces, module: &Module) -> Result<(), Invalid>
    requires { spaces_in spaces.now ≡ spaces_of «module».now }
    ensures { Judges (IsTypedIn (spaces_in spaces.now) «module».now)
        (placed_tables «module».now) result }
{
    refuse(TABLES, 0, unfit_table(spaces))
}

pub fn check_memories(spaces: &IndexSpaces, module: &Module) -> Result<(), Invalid>
    requires { spaces_in spaces.now ≡ spaces_of «module».now }
    ensures { Judges (IsTypedIn (spaces_in spaces.now) «module».now)
        (placed_memories «module».now) result }
{
    refuse(MEMORIES, 0, unfit_memory(spaces))
}

pub fn check_globals(spaces: &IndexSpaces, module: &Module) -> Result<(), Invalid>
    requires spaces_of { spaces_in spaces.now ≡ spaces_of «module».now }
    requires limits { MeetsLimits «module».now }
    ensures { Judges (IsTypedIn (spaces_in spaces.now) «module».now)
        (placed_globals «module».now) result }
{
    let own = module.globals.as_slice();
    let imported = spaces.globals.len() - own.len();
    let unfit = unfit_global(&spaces.globals.as_slice()[..imported], own);
    refuse(GLOBALS, imported, unfit)
}

pub fn check_exports(alloc: Global, spaces: &IndexSpaces, module: &Module) -> Result<(), Invalid>
    requires spaces_of { spaces_in spaces.now ≡ spaces_of «module».now }
    requires limits { MeetsLimits «module».now }
    ensures { Judges (IsTypedIn (spaces_in spaces.now) «module».now)
        (placed_exports «module».now) result }
{
    let unfit = unfit_export(alloc, spaces, module.exports.as_slice())?;
    refuse(EXPORTS, 0, unfit)
}

pub fn check_start(spaces: &IndexSpaces, module: &Module) -> Result<(), Invalid>
    requires { spaces_in spaces.now ≡ spaces_of «module».now }
    ensures { Judges (IsTypedIn (spaces_in spaces.now) «module».now)
        (placed_start «module».now) result }
{
    refuse(START, 0, unfit_start(spaces, module.start))
}

pub fn check_elements(spaces: &IndexSpaces, module: &Module) -> Result<(), Invalid>
    requires spaces_of { spaces_in spaces.now ≡ spaces_of «module».now }
    requires limits { MeetsLimits «module».now }
    ensures { Judges (IsTypedIn (spaces_in spaces.now) «module».now)
        (placed_elements «module».now) result }
{
    refuse(
        ELEMENTS,
        0,
        unfit_element(spaces, module.elements.as_slice()),
    )
}

pub fn check_bodies(alloc: Global, spaces: &IndexSpaces, module: &Module) -> Result<(), Invalid>
    requires spaces_of { spaces_in spaces.now ≡ spaces_of «module».now }
    requires limits { MeetsLimits «module».now }
    requires codes { HasCodeForEach «module».now }
    ensures { Judges (IsTypedIn (spaces_in spaces.now) «module».now)
        (placed_bodies «module».now) result }
{
    let own = module.functions.as_slice();
    let imported = spaces.functions.len() - own.len();
    let unfit = unfit_body(alloc, spaces, own, module.codes.as_slice())?;
    refuse(BODIES, imported, unfit)
}

pub fn check_segments(spaces: &IndexSpaces, module: &Module) -> Result<(), Invalid>
    requires spaces_of { spaces_in spaces.now ≡ spaces_of «module».now }
    requires limits { MeetsLimits «module».now }
    ensures { Judges (IsTypedIn (spaces_in spaces.now) «module».now)
        (placed_segments «module».now) result }
{
    refuse(
        SEGMENTS,
        0,
        unfit_segment(spaces, module.segments.as_slice()),
    )
}
