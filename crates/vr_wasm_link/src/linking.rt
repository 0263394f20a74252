//! Linking: the checks, and then the store.

ghost use Rattle.std.specs.Prelude.{◌≡◌, ◌≤◌, IfOk};
ghost use Rattle.vr_wasm_link.specs.Faults.{LinksTo};
ghost use Rattle.vr_wasm_link.specs.Linked.{IsLinked};
ghost use Rattle.vr_wasm_link.specs.Opened.{Begins, opening_parts, program_in, store_in};
ghost use Rattle.vr_wasm_link.specs.Opening.{opening_of};
ghost use Rattle.vr_wasm_link.specs.Plans.{opening_in};

use crate::beginning::find_main;
use crate::constants::values_of_globals;
use crate::faults::LinkFault;
use crate::fitting::check_sizes;
use crate::functions::Callee;
use crate::imports::{add_imported, add_own};
use crate::opened::Opened;
use crate::writing::{opening_memory_of, opening_table_of};
use std::alloc::Global;
use std::marker::{Model, PhantomData};
use vr_wasm_ast::Module;
use vr_wasm_num::NoMemory;
use vr_wasm_steps::Host;
use vr_wasm_valid::ValidModule;

/// A valid module whose imports a host of this type has, and that has no link fault: its functions, and where it
/// begins. Its store isn't made yet.
pub struct Linked<'m, H: Host> {
    module: &'m Module,
    functions: Vec<Callee<'m>>,
    globals: Vec<u64>,
    pages: u32,
    main: u32,
    host: PhantomData<H>,
}

impl<'m, H: Host> Model for Linked<'m, H> {
    ghost use Rattle.std.specs.Coded.{codes};
    ghost use Rattle.std.specs.Prelude.{map};
    ghost use Rattle.vr_wasm_ast.specs.contracts.instr.Instr as instr;
    ghost use Rattle.vr_wasm_link.specs.Plans.{IsPlan, Plan};

    ghost Value = { Plan };

    ghost coded = { Prim.hlevel (codes, instr.the_row.coded) };

    ghost use Rattle.vr_wasm_link.specs.Functions.{function_of};

    ghost view = { λ l. record { tree = l.module.now; pages = l.pages; main = l.main } };

    ghost invariant = { λ l. IsPlan H.finds
        (record { tree = l.module.now; pages = l.pages; main = l.main })
        (map function_of l.functions.items) l.globals.items };
}

impl<'m, H: Host> Drop for Linked<'m, H> {
    fn drop(self) {
        let Linked {
            module: _,
            functions: _,
            globals: _,
            pages: _,
            main: _,
            host: _,
        } = self;
    }
}

/// Links a module to a host, where the run may have so many pages of memory: each import is asked for once. Where
/// there is a link fault, the answer is the first one.
pub fn link<'m, H: Host>(
    alloc: Global,
    module: &'m ValidModule,
    host: &H,
    pages: u32,
) -> Result<Linked<'m, H>, LinkFault>
    requires { pages ≤ 1024 }
    ensures answer { LinksTo (opening_in H.finds) result (opening_of H.finds «module».now pages) }
    ensures tree { IfOk result (λ l. l.tree ≡ «module».now) }
{
    let module = module.module();
    let mut functions = Vec::new(alloc);
    add_imported(&mut functions, host, module)?;
    add_own(&mut functions, module)?;
    let main = find_main(functions.as_slice(), module.exports.as_slice())?;
    let globals = values_of_globals(alloc, module.globals.as_slice())?;
    check_sizes(globals.as_slice(), module, pages)?;
    Ok(Linked {
        module,
        functions,
        globals,
        pages,
        main,
        host: PhantomData,
    })
}

impl<'m, H: Host> Linked<'m, H> {
    /// Makes the store: the memory's most pages are reserved, and its segments and those of the table are written.
    pub fn open(self, alloc: Global) -> Result<Opened<'m>, NoMemory>
        ensures opening { IfOk result (λ o. opening_parts o ≡ opening_in H.finds self.entry) }
        ensures linked { IfOk result (λ o.
            IsLinked H.finds self.entry.tree (program_in o H.reply) (store_in o)) }
        ensures begins { IfOk result (λ o. Begins self.entry.tree o.start o.main) }
    {
        let memory = opening_memory_of(alloc, self.module, self.globals.as_slice(), self.pages)?;
        let table = opening_table_of(alloc, self.module, self.globals.as_slice())?;
        let Linked {
            module,
            functions,
            globals,
            pages: _,
            main,
            host: _,
        } = self;
        Ok(Opened {
            types: module.types.as_slice(),
            functions,
            memory,
            table,
            globals,
            start: module.start,
            main,
        })
    }
}
