//! Bytes, numbers and contents of a stated size (WebAssembly Core 1.0, section 5.2).

ghost use Rattle.std.specs.Prelude.{◌≡◌};
ghost use Rattle.vr_wasm_decode.specs.Faults.{fault_at};
ghost use Rattle.vr_wasm_decode.specs.Reader.{Gives, GivesAll, byte_at, expect_at, u32_or_at, u32_at, s32_at, s64_at, count_at, contents_at, ended_at};

use crate::fault::{DecodeFault, DecodeKind, ReadError};
use vr_wasm_ast::{Cursor, LebFault};

/// The fault of an item whose first byte is at this offset.
pub fn fault(kind: DecodeKind, at: u32) -> ReadError
    ensures { result ≡ ReadError.Fault (fault_at kind at) }
{
    ReadError::Fault(DecodeFault { kind, at })
}

/// The fault of a number whose first byte is at this offset; of the kind
/// `short` where its bytes end first.
fn number_fault(why: LebFault, short: DecodeKind, at: u32) -> ReadError
    ensures bad { why ≡ LebFault.Bad → result ≡ ReadError.Fault (fault_at DecodeKind.Leb at) }
    ensures short { why ≡ LebFault.Short → result ≡ ReadError.Fault (fault_at short at) }
{
    match why {
        LebFault::Bad => fault(DecodeKind::Leb, at),
        LebFault::Short => fault(short, at),
    }
}

/// The next byte.
pub fn byte(cursor: &mut Cursor<'_>) -> Result<u8, ReadError>
    ensures { Gives result cursor.new (byte_at cursor.old) }
{
    let at = cursor.place();
    match cursor.read_byte() {
        Some(byte) => Ok(byte),
        None => Err(fault(DecodeKind::SectionSize, at)),
    }
}

/// The next byte, which must be this one.
pub fn expect(cursor: &mut Cursor<'_>, wanted: u8) -> Result<(), ReadError>
    ensures { Gives result cursor.new (expect_at wanted cursor.old) }
{
    let at = cursor.place();
    if byte(cursor)? == wanted {
        Ok(())
    } else {
        Err(fault(DecodeKind::BadByte, at))
    }
}

/// An unsigned number of 32 bits, and the kind of fault where its bytes end first.
pub fn u32_or(cursor: &mut Cursor<'_>, short: DecodeKind) -> Result<u32, ReadError>
    ensures { Gives result cursor.new (u32_or_at short cursor.old) }
{
    let at = cursor.place();
    match cursor.read_u32() {
        Ok(number) => Ok(number),
        Err(why) => Err(number_fault(why, short, at)),
    }
}

/// An unsigned number of 32 bits.
pub fn u32(cursor: &mut Cursor<'_>) -> Result<u32, ReadError>
    ensures { Gives result cursor.new (u32_at cursor.old) }
{
    u32_or(cursor, DecodeKind::SectionSize)
}

/// A signed number of 32 bits.
pub fn s32(cursor: &mut Cursor<'_>) -> Result<i32, ReadError>
    ensures { Gives result cursor.new (s32_at cursor.old) }
{
    let at = cursor.place();
    match cursor.read_s32() {
        Ok(number) => Ok(number),
        Err(why) => Err(number_fault(why, DecodeKind::SectionSize, at)),
    }
}

/// A signed number of 64 bits.
pub fn s64(cursor: &mut Cursor<'_>) -> Result<i64, ReadError>
    ensures { Gives result cursor.new (s64_at cursor.old) }
{
    let at = cursor.place();
    match cursor.read_s64() {
        Ok(number) => Ok(number),
        Err(why) => Err(number_fault(why, DecodeKind::SectionSize, at)),
    }
}

/// A count that is at most the limit.
pub fn count(cursor: &mut Cursor<'_>, limit: u32) -> Result<u32, ReadError>
    ensures { Gives result cursor.new (count_at limit cursor.old) }
{
    let at = cursor.place();
    let count = u32(cursor)?;
    if count > limit {
        return Err(fault(DecodeKind::TooMany, at));
    }
    Ok(count)
}

/// A size and so many bytes, as a cursor over them; the kind of fault where the
/// size or the bytes pass the end.
#[tactic(auto, unfolding(crate::specs::Reader::contents_at))]
pub fn contents<'a>(cursor: &mut Cursor<'a>, short: DecodeKind) -> Result<Cursor<'a>, ReadError>
    ensures { Gives result cursor.new (contents_at short cursor.old) }
{
    let size = u32_or(cursor, short)?;
    let at = cursor.place();
    match cursor.take(size) {
        Some(inner) => Ok(inner),
        None => Err(fault(short, at)),
    }
}

/// Gives the item where the contents end with it.
pub fn ended<T: Drop>(item: T, cursor: &Cursor<'_>) -> Result<T, ReadError>
    ensures { GivesAll result (ended_at item cursor.now.place cursor.now.bytes) }
{
    if cursor.is_empty() {
        Ok(item)
    } else {
        Err(fault(DecodeKind::SectionSize, cursor.place()))
    }
}
