//! Why a module can't be linked.

ghost use Rattle.std.specs.Prelude.{◌≡◌};
ghost use Rattle.vr_wasm_link.specs.Faults.{fault, number_of};
ghost use Rattle.vr_wasm_link.specs.declared.faults.LinkKind.TheVariants.{OutOfMemory};

use std::alloc::{AllocError, AllocFailed};

/// What is wrong with a module that can't be linked, in the order in which it is looked for.
#[derive(Clone, Copy, Debug, PartialEq, Eq)]
pub enum LinkKind {
    /// An import that isn't a function, or that the host doesn't find. The index is its place in the list.
    Import,
    /// No function that takes and gives nothing is exported as `_start`.
    NoStart,
    /// The memory's least size is above the run's limit.
    Memory,
    /// The table's least size is above 65,536.
    Table,
    /// An element segment passes the table's least size. The index is its place in the list.
    Element,
    /// A data segment passes the memory's least size. The index is its place in the list.
    Data,
    /// Memory ran out; the module may be linked.
    OutOfMemory,
}

impl LinkKind {
    /// Its number, from 1 to 6 in the order above; 0 of `OutOfMemory`.
    pub fn number(self) -> u8
        ensures { result ≡ number_of self }
    {
        match self {
            LinkKind::Import => 1,
            LinkKind::NoStart => 2,
            LinkKind::Memory => 3,
            LinkKind::Table => 4,
            LinkKind::Element => 5,
            LinkKind::Data => 6,
            LinkKind::OutOfMemory => 0,
        }
    }
}

/// The first fault of a module that can't be linked.
#[derive(Clone, Copy, Debug, PartialEq, Eq)]
pub struct LinkFault {
    pub kind: LinkKind,
    /// 0 where the kind has none.
    pub index: u32,
}

impl From<AllocError> for LinkFault {
    ghost from_gives = { λ _ e. e ≡ fault OutOfMemory 0 };

    fn from(_refused: AllocError) -> LinkFault {
        LinkFault {
            kind: LinkKind::OutOfMemory,
            index: 0,
        }
    }
}

impl<T: Drop> From<AllocFailed<T>> for LinkFault {
    ghost from_gives = { λ _ e. e ≡ fault OutOfMemory 0 };

    fn from(_refused: AllocFailed<T>) -> LinkFault {
        LinkFault {
            kind: LinkKind::OutOfMemory,
            index: 0,
        }
    }
}
