use crate::functions::Callee;
use vr_wasm_ast::FuncType;
use vr_wasm_num::Memory;

/// What a machine takes: a module's types and functions, its store before the first step, and the functions that are
/// called, the start function first.
#[derive(Drop)]
pub struct Opened<'m> {
    pub types: &'m [FuncType],
    pub functions: Vec<Callee<'m>>,
    pub memory: Memory,
    pub table: Vec<Option<u32>>,
    pub globals: Vec<u64>,
    pub start: Option<u32>,
    pub main: u32,
}
