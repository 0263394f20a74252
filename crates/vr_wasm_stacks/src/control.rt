use vr_wasm_ast::Instr;

/// An open block or a called function. Heights and places count from the bottom of the two stacks.
#[derive(Clone, Copy)]
pub enum Control<'m> {
    Block {
        /// How many values a branch to the block takes along.
        results: u32,
        /// Where a branch to it goes on, which ends with the rest.
        target: &'m [Instr],
        /// What follows the block.
        rest: &'m [Instr],
        /// Where its operands begin.
        height: u32,
    },
    Call {
        results: u32,
        /// What follows the call.
        rest: &'m [Instr],
        /// Where its locals begin.
        base: u32,
        /// Where its operands begin.
        height: u32,
        /// Where the entry of the function that called it stands, and
        /// where that one's locals begin.
        caller: u32,
        caller_base: u32,
    },
}
