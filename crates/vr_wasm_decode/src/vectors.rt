//! Vectors: a count, and so many items of one kind (WebAssembly Core 1.0, section 5.1.3).

ghost use Rattle.std.specs.Prelude.{◌≡◌, Result};
ghost use Rattle.vr_wasm_ast.specs.Rest.{Rest};
ghost use Rattle.vr_wasm_decode.specs.declared.fault.DecodeFault.{DecodeFault};
ghost use Rattle.vr_wasm_decode.specs.Reader.{Gives, items_at, vector_at, u32_at};

use crate::fault::ReadError;
use crate::numbers::{count, u32};
use std::alloc::Global;
use vr_wasm_ast::{Cursor, Items};

/// How many items a vector may have where no other limit is said.
pub const MOST_ITEMS: u32 = 65_536;

/// A kind of item, and how one is read.
pub trait Part {
    type Item: Drop;

    /// What reading from left to right gives.
    ghost reading: { Rest → Result (Self.Item × Rest) DecodeFault };

    fn read(alloc: Global, cursor: &mut Cursor<'_>) -> Result<Self::Item, ReadError>
        ensures { Gives result cursor.new (reading cursor.old) };
}

/// So many items, one after the other.
pub fn items<P: Part>(
    alloc: Global,
    cursor: &mut Cursor<'_>,
    count: u32,
) -> Result<Items<P::Item>, ReadError>
    ensures { Gives result cursor.new (items_at count P.reading cursor.old) }
{
    let mut items = Items::new(alloc);
    for _ in 0..count {
        let item = P::read(alloc, cursor)?;
        items.push(item)?;
    }
    Ok(items)
}

/// A count, at most the limit, and so many items.
#[tactic(auto, unfolding(crate::specs::Reader::vector_at))]
pub fn vector<P: Part>(
    alloc: Global,
    cursor: &mut Cursor<'_>,
    limit: u32,
) -> Result<Items<P::Item>, ReadError>
    ensures { Gives result cursor.new (vector_at limit P.reading cursor.old) }
{
    let count = count(cursor, limit)?;
    items::<P>(alloc, cursor, count)
}

/// A count, at most that of any vector with no other limit, and so many items.
pub fn list<P: Part>(alloc: Global, cursor: &mut Cursor<'_>) -> Result<Items<P::Item>, ReadError>
    ensures { Gives result cursor.new (vector_at 65536 P.reading cursor.old) }
{
    vector::<P>(alloc, cursor, MOST_ITEMS)
}

/// An unsigned number of 32 bits.
pub struct Index;

impl Part for Index {
    type Item = u32;

    ghost reading = { u32_at };

    fn read(_alloc: Global, cursor: &mut Cursor<'_>) -> Result<u32, ReadError> {
        u32(cursor)
    }
}
