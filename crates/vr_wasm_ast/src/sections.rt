//! The sections of a module, without the custom ones (WebAssembly Core 1.0, section 5.5; Core 2.0,
//! section 5.5.15, for the data count).

ghost use Rattle.std.specs.Prelude.{◌≡◌};
ghost use Rattle.vr_wasm_ast.specs.Sections.{section_of, rank_of};

use crate::tree::Module;

/// A section that is no custom one. They stand in this order.
#[derive(Clone, Copy, Debug, PartialEq, Eq)]
pub enum Section {
    Types,
    Imports,
    Functions,
    Tables,
    Memories,
    Globals,
    Exports,
    Start,
    Elements,
    /// Tells how many data segments there are; the module leaves it out.
    DataCount,
    Codes,
    Segments,
}

impl Section {
    /// The section with this id; `None` for that of custom sections, 0, and
    /// for one that no section has.
    pub fn from_id(id: u8) -> Option<Section>
        ensures { result ≡ section_of id }
    {
        match id {
            1 => Some(Section::Types),
            2 => Some(Section::Imports),
            3 => Some(Section::Functions),
            4 => Some(Section::Tables),
            5 => Some(Section::Memories),
            6 => Some(Section::Globals),
            7 => Some(Section::Exports),
            8 => Some(Section::Start),
            9 => Some(Section::Elements),
            10 => Some(Section::Codes),
            11 => Some(Section::Segments),
            12 => Some(Section::DataCount),
            _ => None,
        }
    }

    /// Its place in the order, from 1 on.
    pub fn rank(self) -> u8
        ensures { result ≡ rank_of self }
    {
        match self {
            Section::Types => 1,
            Section::Imports => 2,
            Section::Functions => 3,
            Section::Tables => 4,
            Section::Memories => 5,
            Section::Globals => 6,
            Section::Exports => 7,
            Section::Start => 8,
            Section::Elements => 9,
            Section::DataCount => 10,
            Section::Codes => 11,
            Section::Segments => 12,
        }
    }
}

/// What the sections of a module up to a place have made, of which the grammar of sections speaks.
#[derive(Debug, Drop)]
pub struct Progress {
    /// The module so far.
    pub tree: Module,
    /// How many data segments a data count section has told of.
    pub data_count: Option<u32>,
}
