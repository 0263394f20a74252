//! The sizes of the table and the memory, and whether the segments fit into them.

ghost use Rattle.std.specs.Prelude.{◌≡◌, ◌+◌, ◌^◌, ◌<◌, IfSome, nat_lt, length};
ghost use Rattle.std.specs.List.{position_from};
ghost use Rattle.vr_wasm_ast.specs.Limits.{MeetsLimits};
ghost use Rattle.vr_wasm_link.specs.Constants.{global_values};
ghost use Rattle.vr_wasm_link.specs.Faults.{fault, none_at};
ghost use Rattle.vr_wasm_link.specs.Opening.{element_overruns, elements_fit, least_size, most_pages, segment_overruns, segments_fit, sizes_fit, within};

use crate::constants::value_of;
use crate::faults::{LinkFault, LinkKind};
use vr_wasm_ast::{Element, Limits, Module, Segment};
use vr_wasm_num::PAGE_SIZE;

/// The most elements that a table may have at first.
pub const MAX_TABLE: u32 = 65_536;

/// The least size of the only table or memory.
pub fn size_of(limits: &[Limits]) -> u32
    ensures { result ≡ least_size limits.now }
{
    limits.first().map_or(0, |only| only.min)
}

/// The most pages of the only memory, where the run may have so many.
pub fn most_of(pages: u32, memories: &[Limits]) -> u32
    ensures { result ≡ most_pages pages memories.now }
{
    match memories.first() {
        Some(only) => pages.min(only.max.unwrap_or(pages)),
        None => 0,
    }
}

fn overruns(offset: u64, length: usize, size: u64) -> bool
    ensures { result ≡ nat_lt size (offset + «length») }
{
    let count = length as u64;
    count > size || offset > size - count
}

fn element_overruns_at(globals: &[u64], size: u32, element: &Element) -> bool
    ensures { result ≡ element_overruns globals.now size element.now }
{
    let offset = value_of(globals, element.offset.as_slice());
    overruns(offset, element.functions.len(), u64::from(size))
}

/// The place of the first element segment that passes the end of a table of this size.
fn overrunning_element(globals: &[u64], size: u32, elements: &[Element]) -> Option<usize>
    ensures { result ≡ position_from (element_overruns globals.now size) 0 elements.now }
{
    elements
        .iter()
        .position(|element| element_overruns_at(globals, size, element))
}

fn segment_overruns_at(globals: &[u64], size: u64, segment: &Segment) -> bool
    ensures { result ≡ segment_overruns globals.now size segment.now }
{
    let offset = value_of(globals, segment.offset.as_slice());
    overruns(offset, segment.bytes.len(), size)
}

/// The place of the first data segment that passes the end of a memory of so many bytes.
fn overrunning_segment(globals: &[u64], size: u64, segments: &[Segment]) -> Option<usize>
    ensures { result ≡ position_from (segment_overruns globals.now size) 0 segments.now }
{
    segments
        .iter()
        .position(|segment| segment_overruns_at(globals, size, segment))
}

fn refuse(kind: LinkKind, found: Option<usize>) -> Result<(), LinkFault>
    requires { IfSome found (λ place. place < 2 ^ 32) }
    ensures { result ≡ none_at kind found }
{
    match found {
        Some(place) => Err(LinkFault {
            kind,
            index: place as u32,
        }),
        None => Ok(()),
    }
}

fn check_size(kind: LinkKind, limit: u32, size: u32) -> Result<(), LinkFault>
    ensures { result ≡ within (fault kind 0) limit size }
{
    if size > limit {
        return Err(LinkFault { kind, index: 0 });
    }
    Ok(())
}

fn check_elements(globals: &[u64], module: &Module) -> Result<(), LinkFault>
    requires globals { globals.now ≡ global_values «module».now.globals }
    requires limits { MeetsLimits «module».now }
    ensures { result ≡ elements_fit «module».now }
{
    let size = size_of(module.tables.as_slice());
    let found = overrunning_element(globals, size, module.elements.as_slice());
    refuse(LinkKind::Element, found)
}

fn check_segments(globals: &[u64], module: &Module) -> Result<(), LinkFault>
    requires globals { globals.now ≡ global_values «module».now.globals }
    requires limits { MeetsLimits «module».now }
    ensures { result ≡ segments_fit «module».now }
{
    let size = u64::from(size_of(module.memories.as_slice())) * PAGE_SIZE as u64;
    let found = overrunning_segment(globals, size, module.segments.as_slice());
    refuse(LinkKind::Data, found)
}

/// The checks of the memory, the table and their segments, where the run may have so many pages.
pub fn check_sizes(globals: &[u64], module: &Module, pages: u32) -> Result<(), LinkFault>
    requires globals { globals.now ≡ global_values «module».now.globals }
    requires limits { MeetsLimits «module».now }
    ensures { result ≡ sizes_fit «module».now pages }
{
    check_size(LinkKind::Memory, pages, size_of(module.memories.as_slice()))?;
    check_size(
        LinkKind::Table,
        MAX_TABLE,
        size_of(module.tables.as_slice()),
    )?;
    check_elements(globals, module)?;
    check_segments(globals, module)
}
