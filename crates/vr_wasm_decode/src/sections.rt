//! Sections, and the module that they make (WebAssembly Core 1.0, section 5.5).

ghost use Rattle.std.specs.Prelude.{◌≡◌, ◌-◌, ◌≤◌, ◌<◌, ◌^◌, ℕ, length};
ghost use Rattle.vr_wasm_ast.specs.Checks.{value_of};
ghost use Rattle.vr_wasm_ast.specs.Imports.{function_of};
ghost use Rattle.vr_wasm_ast.specs.Modules.{empty_module, imported_count, start};
ghost use Rattle.vr_wasm_decode.specs.declared.fault.DecodeKind.TheVariants.{Truncated};
ghost use Rattle.vr_wasm_decode.specs.Reader.{Gives, GivesAll, sized_at};
ghost use Rattle.vr_wasm_decode.specs.Modules.{is_count_told, codes_at, segments_at, section_at, custom_at, finished_at, any_section_at, sections_at, module_of};

use crate::fault::{DecodeKind, ReadError};
use crate::numbers::{contents, ended, fault, u32};
use crate::types::{Table, text};
use crate::vectors::{Index, MOST_ITEMS, items, list, vector};
use std::alloc::Global;
use vr_wasm_ast::{
    Code, Cursor, Element, Export, FuncType, GlobalDef, Import, ImportKind, Items, Limits, Module,
    Progress, Section, Segment,
};

/// The first bytes of each module: the magic number, and the version.
const HEADER: [u8; 8] = [0x00, 0x61, 0x73, 0x6d, 0x01, 0x00, 0x00, 0x00];

/// The id of custom sections.
const CUSTOM: u8 = 0;

/// A module without sections.
fn empty(alloc: Global) -> Module
    ensures { result ≡ empty_module }
{
    Module {
        types: Items::new(alloc),
        imports: Items::new(alloc),
        functions: Items::new(alloc),
        tables: Items::new(alloc),
        memories: Items::new(alloc),
        globals: Items::new(alloc),
        exports: Items::new(alloc),
        start: None,
        elements: Items::new(alloc),
        codes: Items::new(alloc),
        segments: Items::new(alloc),
    }
}

/// Before the first section.
fn begin(alloc: Global) -> Progress
    ensures { result ≡ start }
{
    Progress {
        tree: empty(alloc),
        data_count: None,
    }
}

/// The index of the type of an imported function.
fn imported_function(import: &Import) -> Option<u32>
    ensures { result ≡ function_of import.now.what }
{
    match import.what {
        ImportKind::Func(sort) => Some(sort),
        _ => None,
    }
}

/// How many functions a module imports.
fn imported(tree: &Module) -> usize
    ensures { result ≡ imported_count tree.now }
{
    let imports = tree.imports.as_slice();
    imports.iter().filter_map(imported_function).count()
}

/// How many functions of its own a module with these imports may have.
fn most_functions(tree: &Module) -> u32
    ensures { result ≡ 65536 - imported_count tree.now }
{
    (MOST_ITEMS as usize).saturating_sub(imported(tree)) as u32
}

/// The code of each function, as many as there are functions.
#[tactic(auto, unfolding(crate::specs::Modules::codes_at))]
fn codes(alloc: Global, cursor: &mut Cursor<'_>, functions: usize) -> Result<Items<Code>, ReadError>
    ensures { Gives result cursor.new (codes_at functions cursor.old) }
{
    let at = cursor.place();
    let count = u32(cursor)?;
    if count as usize != functions {
        return Err(fault(DecodeKind::Counts, at));
    }
    items::<Code>(alloc, cursor, count)
}

/// Whether so many data segments are as many as a data count section told, if one stood there.
fn is_as_told(data_count: Option<u32>, segments: usize) -> bool
    ensures { result ≡ is_count_told data_count segments }
{
    match data_count {
        None => true,
        Some(told) => segments == told as usize,
    }
}

/// The data segments, as many as were told.
#[tactic(auto, unfolding(crate::specs::Modules::segments_at))]
fn segments(
    alloc: Global,
    cursor: &mut Cursor<'_>,
    data_count: Option<u32>,
) -> Result<Items<Segment>, ReadError>
    ensures { Gives result cursor.new (segments_at data_count cursor.old) }
{
    let at = cursor.place();
    let count = u32(cursor)?;
    if !is_as_told(data_count, count as usize) {
        return Err(fault(DecodeKind::Counts, at));
    }
    if count > MOST_ITEMS {
        return Err(fault(DecodeKind::TooMany, at));
    }
    items::<Segment>(alloc, cursor, count)
}

/// What the sections have made, with another part of the module.
macro_rules! with_part {
    ($tree:ident, $data_count:ident, $part:ident: $read:expr) => {
        Ok(Progress {
            tree: Module {
                $part: $read,
                ..$tree
            },
            data_count: $data_count,
        })
    };
}

/// Adds the contents of a section.
#[tactic(auto, unfolding(crate::specs::Modules::section_at))]
fn section(
    alloc: Global,
    cursor: &mut Cursor<'_>,
    which: Section,
    so_far: Progress,
) -> Result<Progress, ReadError>
    ensures { Gives result cursor.new (section_at which so_far cursor.old) }
{
    let Progress { tree, data_count } = so_far;
    match which {
        Section::Types => with_part!(tree, data_count, types: list::<FuncType>(alloc, cursor)?),
        Section::Imports => with_part!(tree, data_count, imports: list::<Import>(alloc, cursor)?),
        Section::Functions => {
            let most = most_functions(&tree);
            with_part!(tree, data_count, functions: vector::<Index>(alloc, cursor, most)?)
        }
        Section::Tables => with_part!(tree, data_count, tables: list::<Table>(alloc, cursor)?),
        Section::Memories => with_part!(tree, data_count, memories: list::<Limits>(alloc, cursor)?),
        Section::Globals =>
            with_part!(tree, data_count, globals: list::<GlobalDef>(alloc, cursor)?),
        Section::Exports => with_part!(tree, data_count, exports: list::<Export>(alloc, cursor)?),
        Section::Start => with_part!(tree, data_count, start: Some(u32(cursor)?)),
        Section::Elements =>
            with_part!(tree, data_count, elements: list::<Element>(alloc, cursor)?),
        Section::DataCount => Ok(Progress {
            tree,
            data_count: Some(u32(cursor)?),
        }),
        Section::Codes => {
            let functions = tree.functions.len();
            with_part!(tree, data_count, codes: codes(alloc, cursor, functions)?)
        }
        Section::Segments => {
            with_part!(tree, data_count, segments: segments(alloc, cursor, data_count)?)
        }
    }
}

/// Adds a section after its id: a size, and the contents.
fn sized_section(
    alloc: Global,
    cursor: &mut Cursor<'_>,
    which: Section,
    so_far: Progress,
) -> Result<Progress, ReadError>
    ensures { Gives result cursor.new (sized_at Truncated (section_at which so_far) cursor.old) }
{
    let mut inner = contents(cursor, DecodeKind::Truncated)?;
    let next = section(alloc, &mut inner, which, so_far)?;
    ended(next, &inner)
}

/// Passes over a custom section after its id, and answers its name.
#[tactic(auto, unfolding(crate::specs::Modules::custom_at))]
fn custom<'a>(cursor: &mut Cursor<'a>) -> Result<&'a [u8], ReadError>
    ensures { Gives (value_of result) cursor.new (custom_at cursor.old) }
{
    let mut inner = contents(cursor, DecodeKind::Truncated)?;
    text(&mut inner)
}

/// A section after its id, which was at this offset: the rank of the last section that is no custom
/// one then, and what the sections have made.
#[tactic(auto, unfolding(crate::specs::Modules::any_section_at, crate::specs::Modules::numbered_at))]
fn any_section(
    alloc: Global,
    cursor: &mut Cursor<'_>,
    id: u8,
    at: u32,
    last: u8,
    so_far: Progress,
) -> Result<(u8, Progress), ReadError>
    ensures { Gives result cursor.new (any_section_at id at last so_far cursor.old) }
{
    if id == CUSTOM {
        let _name = custom(cursor)?;
        return Ok((last, so_far));
    }
    let Some(which) = Section::from_id(id) else {
        return Err(fault(DecodeKind::BadByte, at));
    };
    let rank = which.rank();
    if rank <= last {
        return Err(fault(DecodeKind::SectionOrder, at));
    }
    let next = sized_section(alloc, cursor, which, so_far)?;
    Ok((rank, next))
}

/// The module at the end of its sections, at this offset: each function has its code, and the data
/// segments are as many as were told.
fn finished(so_far: Progress, at: u32) -> Result<Module, ReadError>
    ensures { GivesAll result (finished_at so_far at) }
{
    let Progress { tree, data_count } = so_far;
    if tree.functions.len() == tree.codes.len() && is_as_told(data_count, tree.segments.len()) {
        Ok(tree)
    } else {
        Err(fault(DecodeKind::Counts, at))
    }
}

/// The module that sections make.
fn sections(alloc: Global, cursor: &mut Cursor<'_>) -> Result<Module, ReadError>
    ensures { (fuel : ℕ) → length cursor.old.bytes ≤ fuel
        → GivesAll result (sections_at fuel 0 start cursor.old) }
{
    let mut so_far = begin(alloc);
    let mut last = 0;
    'each: loop {
        let at = cursor.place();
        let Some(id) = cursor.read_byte() else {
            return finished(so_far, at);
        };
        let (next_last, next) = any_section(alloc, cursor, id, at, last, so_far)?;
        last = next_last;
        so_far = next;
    }
}

/// The module that the bytes spell, or their first fault.
#[tactic(auto, unfolding(crate::specs::Modules::module_of))]
pub fn read_module(alloc: Global, bytes: &[u8]) -> Result<Module, ReadError>
    requires { length bytes.now < 2 ^ 32 }
    ensures { GivesAll result (module_of bytes.now) }
{
    if !bytes.starts_with(&HEADER) {
        return Err(fault(DecodeKind::Magic, 0));
    }
    let mut cursor = Cursor::new(bytes, HEADER.len() as u32, bytes.len() as u32);
    sections(alloc, &mut cursor)
}
