//! The table and the memory before the first step.

ghost use Rattle.std.specs.Prelude.{◌≡◌, ◌≤◌, ◌+◌, ◌*◌, ℕ, Option, None, Some, All, IsFalse, IfOk, length, map, take, drop, ◌++◌};
ghost use Rattle.vr_wasm_ast.specs.declared.tree.Element.{Element as Elements};
ghost use Rattle.vr_wasm_ast.specs.declared.tree.Segment.{Segment as Bytes};
ghost use Rattle.vr_wasm_link.specs.Constants.{global_values};
ghost use Rattle.vr_wasm_link.specs.Opening.{element_overruns, least_size, most_pages, opening_memory, opening_table, segment_overruns, with_element, with_segment};

use crate::constants::value_of;
use crate::fitting::{most_of, size_of};
use std::alloc::{AllocError, Global};
use vr_wasm_ast::{Element, Module, Segment};
use vr_wasm_num::{Memory, NoMemory, PAGE_SIZE};

/// Puts the functions of a segment into the table.
fn write_functions(table: &mut [Option<u32>], start: usize, functions: &[u32])
    requires { start + length functions.now ≤ length table.old }
    ensures { table.new ≡ take start table.old ++ map Some functions.now
        ++ drop (start + length functions.now) table.old }
{
    for (place, function) in functions.iter().enumerate() {
        table[start + place] = Some(*function);
    }
}

fn write_element(globals: &[u64], table: &mut [Option<u32>], element: &Element)
    requires { IsFalse (element_overruns globals.now (length table.old) element.now) }
    ensures { table.new ≡ with_element globals.now table.old element.now }
{
    let start = value_of(globals, element.offset.as_slice());
    write_functions(table, start as usize, element.functions.as_slice());
}

fn write_segment(globals: &[u64], memory: &mut Memory, segment: &Segment)
    requires { IsFalse (segment_overruns globals.now (length memory.old.bytes) segment.now) }
    ensures { memory.new ≡ with_segment globals.now memory.old segment.now }
{
    let start = value_of(globals, segment.offset.as_slice());
    let _ = memory.write(start, segment.bytes.as_slice());
}

/// The table with the element segments written in their order, of a module whose element segments fit.
pub fn opening_table_of(
    alloc: Global,
    module: &Module,
    globals: &[u64],
) -> Result<Vec<Option<u32>>, AllocError>
    requires globals { globals.now ≡ global_values «module».now.globals }
    requires fits { All (λ (e : Elements). IsFalse
        (element_overruns globals.now (least_size «module».now.tables) e)) «module».now.elements }
    ensures { IfOk result (λ table. table.items ≡ opening_table «module».now) }
{
    let size = size_of(module.tables.as_slice());
    let mut table = vec![in alloc; None; size as usize]?;
    for element in module.elements.as_slice() {
        write_element(globals, &mut table, element);
    }
    Ok(table)
}

/// The memory with the data segments written in their order, of a module whose data segments fit.
pub fn opening_memory_of(
    alloc: Global,
    module: &Module,
    globals: &[u64],
    pages: u32,
) -> Result<Memory, NoMemory>
    requires globals { globals.now ≡ global_values «module».now.globals }
    requires limit { pages ≤ 1024 }
    requires pages { least_size «module».now.memories ≤ most_pages pages «module».now.memories }
    requires fits { All (λ (s : Bytes). IsFalse (segment_overruns globals.now
        (least_size «module».now.memories * PAGE_SIZE) s)) «module».now.segments }
    ensures { IfOk result (λ memory. memory ≡ opening_memory «module».now pages) }
{
    let least = size_of(module.memories.as_slice());
    let most = most_of(pages, module.memories.as_slice());
    let mut memory = Memory::new(alloc, least, most)?;
    for segment in module.segments.as_slice() {
        write_segment(globals, &mut memory, segment);
    }
    Ok(memory)
}
