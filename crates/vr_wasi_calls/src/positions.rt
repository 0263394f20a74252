//! The calls that tell and move positions and close descriptors.

ghost use Rattle.std.specs.Prelude.{◌≡◌};
ghost use Rattle.vr_wasi_calls.specs.Calls.{after, fd_close_call, fd_seek_call, fd_tell_call, origin_of, place_after, place_before, place_from};
ghost use Rattle.vr_wasi_calls.specs.Checks.{Becomes, Finds};

use crate::checks::{check_range, has_bit, refuse_if};
use crate::descriptors::{Descriptor, OpenFile};
use crate::errno::{Errno, Refusal};
use crate::results::put_u64;
use crate::state::State;
use vr_base::{FD_SEEK, FD_TELL};
use vr_files::FileBody;
use vr_wasm_num::Memory;

/// The least number that is no position.
const PAST_POSITIONS: u64 = 1 << 63;

/// From where a seek counts: the beginning, the position or the end.
fn origin_of(file: &OpenFile, body: &FileBody, whence: u32) -> u64
    ensures { result ≡ origin_of file.now body.now whence }
{
    match whence {
        0 => 0,
        1 => file.position,
        _ => body.len(),
    }
}

/// The place so far after another.
fn place_after(origin: u64, distance: u64) -> Result<u64, Errno>
    ensures { Finds result (place_after origin distance) }
{
    let place = origin.checked_add(distance).ok_or(Errno::Inval)?;
    refuse_if(place >= PAST_POSITIONS, Errno::Inval)?;
    Ok(place)
}

/// The place so far before another.
fn place_before(origin: u64, distance: u64) -> Result<u64, Errno>
    ensures { Finds result (place_before origin distance) }
{
    origin.checked_sub(distance).ok_or(Errno::Inval)
}

/// The place at an offset from another, which is signed.
fn place_from(origin: u64, offset: u64) -> Result<u64, Errno>
    ensures { Finds result (place_from origin offset) }
{
    if offset < PAST_POSITIONS {
        place_after(origin, offset)
    } else {
        place_before(origin, u64::MAX - offset + 1)
    }
}

impl State {
    pub fn fd_close(&mut self, memory: &Memory, fd: u32) -> Result<(), Refusal>
        ensures { Becomes (after self.old memory.now) (after self.new memory.now) result
            (fd_close_call self.old memory.now fd) }
    {
        self.open(fd)?;
        self.set_descriptor(fd, Descriptor::Closed);
        Ok(())
    }

    pub fn fd_tell(&self, memory: &mut Memory, fd: u32, out: u32) -> Result<(), Refusal>
        ensures { Becomes (after self.now memory.old) (after self.now memory.new) result
            (fd_tell_call self.now memory.old fd out) }
    {
        let stream = self.stream(fd)?;
        let base = stream.base();
        refuse_if(
            !has_bit(base, FD_SEEK) && !has_bit(base, FD_TELL),
            Errno::Notcapable,
        )?;
        check_range(memory, out, 8)?;
        let file = stream.as_file()?;
        put_u64(memory, out, file.position);
        Ok(())
    }

    pub fn fd_seek(
        &mut self,
        memory: &mut Memory,
        fd: u32,
        offset: u64,
        whence: u32,
        out: u32,
    ) -> Result<(), Refusal>
        ensures { Becomes (after self.old memory.old) (after self.new memory.new) result
            (fd_seek_call self.old memory.old fd offset whence out) }
    {
        let stream = self.stream(fd)?;
        stream.check_base(FD_SEEK)?;
        refuse_if(whence > 2, Errno::Inval)?;
        check_range(memory, out, 8)?;
        let file = stream.as_file()?;
        let place = place_from(origin_of(file, self.body(file)?, whence), offset)?;
        self.set_position(fd, place);
        put_u64(memory, out, place);
        Ok(())
    }
}
