//! The functions of a program: those that the host has, and then the module's own.

ghost use Rattle.std.specs.Prelude.{◌≡◌, ◌∷◌, [], ◌++◌, ◌≤◌, ◌+◌, ◌^◌, ◌<◌, map, length, OnOk, IfOk};
ghost use Rattle.std.specs.Option.{option_map};
ghost use Rattle.vr_wasm_ast.specs.Checks.{result_map};
ghost use Rattle.vr_wasm_ast.specs.Limits.{HasCodeForEach, MeetsLimits};
ghost use Rattle.vr_wasm_link.specs.Faults.{LinksTo};
ghost use Rattle.vr_wasm_link.specs.Functions.{function_of};
ghost use Rattle.vr_wasm_link.specs.Opening.{imported_callee, imports_found, imported_callees, own_callee, own_callees};

use crate::faults::{LinkFault, LinkKind};
use crate::functions::Callee;
use std::alloc::AllocError;
use vr_wasm_ast::{Code, FuncType, Import, ImportKind, Module};
use vr_wasm_steps::Host;

/// The host's function, where a function is imported and the host finds it.
fn find_import<'m, H: Host>(host: &H, types: &'m [FuncType], import: &Import) -> Option<Callee<'m>>
    ensures { option_map function_of result ≡ imported_callee H.finds types.now import.now }
{
    let ImportKind::Func(sort) = import.what else {
        return None;
    };
    let sort = types.get(sort as usize)?;
    let which = host.find(import.module.as_slice(), import.name.as_slice(), sort)?;
    Some(Callee::Outside { sort, which })
}

/// Adds the imported functions.
pub fn add_imported<'m, H: Host>(
    functions: &mut Vec<Callee<'m>>,
    host: &H,
    module: &'m Module,
) -> Result<(), LinkFault>
    requires limits { MeetsLimits «module».now }
    requires empty { functions.old.items ≡ [] }
    ensures answer { LinksTo (λ u. u) result (imports_found H.finds «module».now) }
    ensures functions { OnOk result
        (map function_of functions.new.items ≡ imported_callees H.finds «module».now) }
{
    for (place, import) in module.imports.as_slice().iter().enumerate() {
        match find_import(host, module.types.as_slice(), import) {
            Some(callee) => functions.push(callee)?,
            None => {
                return Err(LinkFault {
                    kind: LinkKind::Import,
                    index: place as u32,
                });
            }
        }
    }
    Ok(())
}

/// A function of the module, whose type is there.
fn own_function<'m>(types: &'m [FuncType], sort: u32, code: &'m Code) -> Option<Callee<'m>>
    requires { length code.now.locals < 2 ^ 32 }
    ensures { option_map function_of result ≡ own_callee types.now (sort, code.now) }
{
    let sort = types.get(sort as usize)?;
    Some(Callee::Own {
        sort,
        locals: code.locals.len() as u32,
        body: code.body.as_slice(),
    })
}

/// Adds the module's own functions.
pub fn add_own<'m>(functions: &mut Vec<Callee<'m>>, module: &'m Module) -> Result<(), AllocError>
    requires limits { MeetsLimits «module».now }
    requires codes { HasCodeForEach «module».now }
    ensures { OnOk result (map function_of functions.new.items
        ≡ map function_of functions.old.items ++ own_callees «module».now) }
{
    let sorts = module.functions.as_slice();
    for (place, code) in module.codes.as_slice().iter().enumerate() {
        let callee = own_function(module.types.as_slice(), sorts[place], code);
        if let Some(callee) = callee {
            functions.push(callee)?;
        }
    }
    Ok(())
}
