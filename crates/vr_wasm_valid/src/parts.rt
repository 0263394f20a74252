//! The parts of a module (WebAssembly Core 1.0, sections 3.2 and 3.4): each search finds the first
//! component of its part that breaks its rule.

ghost use Rattle.std.specs.Prelude.{◌≡◌, ◌<◌, ◌≤◌, ◌↔◌, ℕ, length, option_to_list, IfOk, IsTrue};
ghost use Rattle.std.specs.List.{zip};
ghost use Rattle.vr_wasm_ast.specs.declared.tree.Code.{Code as FunctionBody};
ghost use Rattle.vr_wasm_ast.specs.declared.tree.GlobalDef.{GlobalDef as Definition};
ghost use Rattle.vr_wasm_ast.specs.declared.tree.Import.{Import as Imported};
ghost use Rattle.vr_wasm_ast.specs.declared.tree.Limits.{Limits as Sizes};
ghost use Rattle.vr_wasm_ast.specs.Instructions.{instructions_of};
ghost use Rattle.vr_wasm_valid.specs.Answer.{FindsUnfit};
ghost use Rattle.vr_wasm_valid.specs.Parts.{BodyFits, ElementFits, ImportFits, IsConstantExpression, MemoryFits, SegmentFits, StartFits, TableFits};
ghost use Rattle.vr_wasm_valid.specs.Scope.{spaces_in};

use crate::body::check_body;
use crate::constant::is_constant_expression;
use crate::limits::{import_fits, memory_fits, table_fits};
use crate::spaces::IndexSpaces;
use std::alloc::{AllocError, Global};
use vr_wasm_ast::{Code, Element, GlobalDef, GlobalType, Import, Segment, ValType};

pub fn unfit_import(spaces: &IndexSpaces, imports: &[Import]) -> Option<usize>
    ensures { FindsUnfit (λ (i : Imported). ImportFits (spaces_in spaces.now) i.what)
        imports.now result }
{
    imports
        .iter()
        .position(|import| !import_fits(spaces, import.what))
}

/// Of the types of the module's own functions.
pub fn unfit_function(spaces: &IndexSpaces, functions: &[u32]) -> Option<usize>
    ensures { FindsUnfit (λ sort. sort < length spaces.now.types.now) functions.now result }
{
    let count = spaces.types.len();
    functions.iter().position(|sort| *sort as usize >= count)
}

/// There may be one table, with good limits.
pub fn unfit_table(spaces: &IndexSpaces) -> Option<usize>
    ensures { FindsUnfit (λ (l : Sizes). TableFits l × (length spaces.now.tables ≤ 1))
        spaces.now.tables result }
{
    match spaces.tables.as_slice() {
        [] => None,
        [only] if table_fits(*only) => None,
        _ => Some(0),
    }
}

/// There may be one memory, with good limits.
pub fn unfit_memory(spaces: &IndexSpaces) -> Option<usize>
    ensures { FindsUnfit (λ (l : Sizes). MemoryFits l × (length spaces.now.memories ≤ 1))
        spaces.now.memories result }
{
    match spaces.memories.as_slice() {
        [] => None,
        [only] if memory_fits(*only) => None,
        _ => Some(0),
    }
}

fn global_fits(imported: &[GlobalType], global: &GlobalDef) -> bool
    ensures { IsTrue result ↔
        IsConstantExpression imported.now global.now.sort.value (instructions_of global.now.init) }
{
    is_constant_expression(imported, global.sort.value, global.init.as_slice())
}

/// Of the module's own globals, whose first values may name imported ones.
pub fn unfit_global(imported: &[GlobalType], globals: &[GlobalDef]) -> Option<usize>
    ensures { FindsUnfit
        (λ (g : Definition).
        IsConstantExpression imported.now g.sort.value (instructions_of g.init))
        globals.now result }
{
    globals
        .iter()
        .position(|global| !global_fits(imported, global))
}

fn start_fits(spaces: &IndexSpaces, function: u32) -> bool
    ensures { IsTrue result ↔ StartFits (spaces_in spaces.now) function }
{
    match spaces.function_type(function) {
        Some(sort) => sort.params.is_empty() && sort.results.is_empty(),
        None => false,
    }
}

pub fn unfit_start(spaces: &IndexSpaces, start: Option<u32>) -> Option<usize>
    ensures { FindsUnfit (StartFits (spaces_in spaces.now)) (option_to_list start) result }
{
    match start {
        Some(function) if !start_fits(spaces, function) => Some(0),
        _ => None,
    }
}

fn element_fits(spaces: &IndexSpaces, element: &Element) -> bool
    ensures { IsTrue result ↔ ElementFits (spaces_in spaces.now) element.now }
{
    let count = spaces.functions.len();
    (element.table as usize) < spaces.tables.len()
        && is_constant_expression(
            spaces.globals.as_slice(),
            ValType::I32,
            element.offset.as_slice(),
        )
        && element
            .functions
            .as_slice()
            .iter()
            .all(|function| (*function as usize) < count)
}

pub fn unfit_element(spaces: &IndexSpaces, elements: &[Element]) -> Option<usize>
    ensures { FindsUnfit (ElementFits (spaces_in spaces.now)) elements.now result }
{
    elements
        .iter()
        .position(|element| !element_fits(spaces, element))
}

fn body_fits(
    alloc: Global,
    spaces: &IndexSpaces,
    sort: u32,
    function: &Code,
) -> Result<bool, AllocError>
    ensures { IfOk result (λ fine. IsTrue fine ↔
        BodyFits (spaces_in spaces.now) sort function.now) }
{
    match spaces.type_at(sort) {
        Some(sort) => check_body(alloc, spaces, sort, function),
        None => Ok(false),
    }
}

/// Of the bodies of the module's own functions.
pub fn unfit_body(
    alloc: Global,
    spaces: &IndexSpaces,
    functions: &[u32],
    codes: &[Code],
) -> Result<Option<usize>, AllocError>
    requires { length codes.now ≡ length functions.now }
    ensures { IfOk result (FindsUnfit
        (λ (f : ℕ × FunctionBody). BodyFits (spaces_in spaces.now) f.0 f.1)
        (zip functions.now codes.now)) }
{
    for (place, function) in codes.iter().enumerate() {
        if !body_fits(alloc, spaces, functions[place], function)? {
            return Ok(Some(place));
        }
    }
    Ok(None)
}

fn segment_fits(spaces: &IndexSpaces, segment: &Segment) -> bool
    ensures { IsTrue result ↔ SegmentFits (spaces_in spaces.now) segment.now }
{
    (segment.memory as usize) < spaces.memories.len()
        && is_constant_expression(
            spaces.globals.as_slice(),
            ValType::I32,
            segment.offset.as_slice(),
        )
}

pub fn unfit_segment(spaces: &IndexSpaces, segments: &[Segment]) -> Option<usize>
    ensures { FindsUnfit (SegmentFits (spaces_in spaces.now)) segments.now result }
{
    segments
        .iter()
        .position(|segment| !segment_fits(spaces, segment))
}
