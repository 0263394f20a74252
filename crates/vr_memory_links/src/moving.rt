ghost use Rattle.std.specs.Prelude.{◌≡◌, ◌+◌, ◌-◌, ◌<◌, ◌≤◌, ◌++◌, min, length, take, drop, vec_len, vec_capacity, IfSome, IfNone};
ghost use Rattle.vr_base.specs.Outside.{TakesPart};
ghost use Rattle.vr_memory_links.specs.Moving.{IsFull, Gives};

use std::alloc::AllocError;

/// Fills a prefix of the buffer with the bytes from the place on, no more than a piece of so many,
/// and answers how many it gave.
pub fn give_piece(bytes: &[u8], at: usize, piece: usize, into: &mut [u8]) -> usize
    requires within { at ≤ length bytes.now }
    requires some { 0 < piece }
    ensures { Gives bytes.now at into.new result }
{
    let count = piece.min(into.len()).min(bytes.len() - at);
    into[..count].copy_from_slice(&bytes[at..at + count]);
    count
}

/// Adds of the bytes what fits into the room, and answers how much, or that there is something and
/// nothing fits. The room was reserved, so that no memory is taken.
pub fn add_fitting(written: &mut Vec<u8>, room: usize, bytes: &[u8]) -> Option<usize>
    requires within { vec_len written.old ≤ room }
    requires reserved { room ≤ vec_capacity written.old }
    ensures count { IfSome result (λ count.
        count ≡ min (length bytes.now) (room - vec_len written.old)) }
    ensures some { IfSome result (λ count. TakesPart count (length bytes.now)) }
    ensures added { IfSome result (λ count.
        written.new.items ≡ written.old.items ++ take count bytes.now) }
    ensures same { IfNone result (written.new.items ≡ written.old.items) }
    ensures full { IfNone result (IsFull (vec_len written.old) room (length bytes.now)) }
    ensures within { vec_len written.new ≤ room }
    ensures reserved { room ≤ vec_capacity written.new }
{
    let count = bytes.len().min(room - written.len());
    if count == 0 && !bytes.is_empty() {
        return None;
    }
    match written.extend_from_slice(&bytes[..count]) {
        Ok(()) => Some(count),
        Err(AllocError) => None,
    }
}
