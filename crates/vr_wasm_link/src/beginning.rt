//! Where a program begins.

ghost use Rattle.std.specs.Prelude.{◌≡◌, map, find, slice_get};
ghost use Rattle.std.specs.Option.{option_copied};
ghost use Rattle.vr_wasm_link.specs.Functions.{function_of};
ghost use Rattle.vr_wasm_link.specs.Opening.{is_bare, is_function, is_main, main_of, takes_nothing};
ghost use Rattle.vr_wasm_steps.specs.Rows.{type_of};

use crate::faults::{LinkFault, LinkKind};
use crate::functions::Callee;
use vr_wasm_ast::{Export, ExportKind, FuncType};

/// The name of the function that is called after the start function.
const MAIN_NAME: &[u8] = b"_start";

fn sort_of<'m>(callee: &Callee<'m>) -> &'m FuncType
    ensures { result.now ≡ type_of (function_of callee.now) }
{
    match callee {
        Callee::Own { sort, .. } => sort,
        Callee::Outside { sort, .. } => sort,
    }
}

fn has_bare_type(sort: &FuncType) -> bool
    ensures { result ≡ is_bare sort.now }
{
    sort.params.is_empty() && sort.results.is_empty()
}

fn is_callable_bare(functions: &[Callee], index: u32) -> bool
    ensures { result ≡ takes_nothing (slice_get (map function_of functions.now) index) }
{
    match functions.get(index as usize) {
        Some(callee) => has_bare_type(sort_of(callee)),
        None => false,
    }
}

fn is_function_kind(what: ExportKind) -> bool
    ensures { result ≡ is_function what }
{
    matches!(what, ExportKind::Func)
}

fn is_main_export(functions: &[Callee], export: &Export) -> bool
    ensures { result ≡ is_main (map function_of functions.now) export.now }
{
    export.name.as_slice() == MAIN_NAME
        && is_function_kind(export.what)
        && is_callable_bare(functions, export.index)
}

fn main_export<'m>(functions: &[Callee], exports: &'m [Export]) -> Option<&'m Export>
    ensures { option_copied result ≡ find (is_main (map function_of functions.now)) exports.now }
{
    exports
        .iter()
        .find(|export| is_main_export(functions, export))
}

/// The function that is called after the start function.
pub fn find_main(functions: &[Callee], exports: &[Export]) -> Result<u32, LinkFault>
    ensures { result ≡ main_of (map function_of functions.now) exports.now }
{
    match main_export(functions, exports) {
        Some(export) => Ok(export.index),
        None => Err(LinkFault {
            kind: LinkKind::NoStart,
            index: 0,
        }),
    }
}
