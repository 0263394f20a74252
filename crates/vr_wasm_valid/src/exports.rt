ghost use Rattle.std.specs.Prelude.{ℕ, IfOk};
ghost use Rattle.std.specs.List.{enumerate_from};
ghost use Rattle.vr_wasm_ast.specs.declared.tree.Export.{Export as Exported};
ghost use Rattle.vr_wasm_valid.specs.Answer.{FindsUnfit};
ghost use Rattle.vr_wasm_valid.specs.Parts.{ExportFits};
ghost use Rattle.vr_wasm_valid.specs.Scope.{spaces_in};

use crate::limits::is_there;
use crate::spaces::IndexSpaces;
use std::alloc::{AllocError, Global};
use std::collections::BTreeSet;
use vr_wasm_ast::Export;

/// The first export that names what isn't there, or has the name of one before it.
pub fn unfit_export(
    alloc: Global,
    spaces: &IndexSpaces,
    exports: &[Export],
) -> Result<Option<usize>, AllocError>
    ensures { IfOk result (FindsUnfit
        (λ (e : ℕ × Exported). ExportFits (spaces_in spaces.now) exports.now e.0 e.1)
        (enumerate_from 0 exports.now)) }
{
    let mut names = BTreeSet::new(alloc);
    for (place, export) in exports.iter().enumerate() {
        let is_new = names.insert(export.name.as_slice())?;
        if !is_new || !is_there(spaces, export.what, export.index) {
            return Ok(Some(place));
        }
    }
    Ok(None)
}
