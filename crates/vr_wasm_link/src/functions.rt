use vr_wasm_ast::{FuncType, Instr};

/// A function of the module, or one of the host's, which has a number there.
#[derive(Clone, Copy)]
pub enum Callee<'m> {
    Own {
        sort: &'m FuncType,
        /// How many locals it declares.
        locals: u32,
        body: &'m [Instr],
    },
    Outside {
        sort: &'m FuncType,
        which: u32,
    },
}
