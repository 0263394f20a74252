ghost use Rattle.std.specs.Prelude.{◌<◌, ◌≤◌, length, vec_len, vec_capacity};

use crate::failing::Failing;
use crate::moving::{add_fitting, give_piece};
use std::alloc::Global;
use vr_base::{Bytes, Failed, Link, NoMemory, Sink, Source};

/// A connection in memory, which tells its input and what was written.
#[derive(Debug, Drop)]
pub struct MemLink {
    input: Bytes,
    at: usize,
    written: Vec<u8>,
    room: usize,
    piece: usize,
    calls: Failing,
    ghost within: { at ≤ length input },
    ghost some: { 0 < piece },
    ghost fits: { vec_len written ≤ room },
    ghost reserved: { room ≤ vec_capacity written },
}

impl MemLink {
    ghost use Rattle.std.specs.Prelude.{◌≡◌, IfOk};
    ghost use Rattle.vr_memory_links.specs.Links.{IsNewLink};

    /// A connection with this input and with room for so many bytes, which is reserved now. A read
    /// or a write moves at most `piece` bytes. The calls fail whose numbers, reads and writes
    /// counted together from 0, are listed, and so does a write of something where no room is left.
    pub fn new(
        alloc: Global,
        input: Bytes,
        piece: u32,
        room: usize,
        failing: Vec<u64>,
    ) -> Result<MemLink, NoMemory>
        requires { 0 < piece }
        ensures fresh { IfOk result IsNewLink }
        ensures input { IfOk result (λ link. link.input ≡ input) }
        ensures room { IfOk result (λ link. link.room ≡ room) }
        ensures listed { IfOk result (λ link. link.calls.listed ≡ failing) }
    {
        Ok(MemLink {
            input,
            at: 0,
            written: Vec::with_capacity(alloc, room)?,
            room,
            piece: piece as usize,
            calls: Failing::new(failing),
        })
    }

    /// What was written.
    pub fn written(&self) -> &[u8]
        ensures { result.now ≡ self.now.written.items }
    {
        self.written.as_slice()
    }
}

impl Source for MemLink {
    ghost use Rattle.std.specs.Io.KnownBytes.{ReadConsumes};
    ghost use Rattle.std.specs.Prelude.{◌≡◌, [], Some, IfOk, IsOk};
    ghost use Rattle.vr_base.specs.Causes.{HasCause};
    ghost use Rattle.vr_base.specs.Outside.{beside_of};
    ghost use Rattle.vr_memory_links.specs.Links.{input_left};

    ghost left = { λ link. Some (input_left link) };

    ghost faults = { λ link. link.calls.faults };

    ghost beside = { λ link. beside_of (Some link.written.items) (Some link.input) };

    /// As the trait says. A read that isn't listed doesn't fail.
    fn read(&mut self, into: &mut [u8]) -> Result<usize, Failed>
        ensures given { IfOk result (λ count. count ≤ length into.new) }
        ensures bytes { ReadConsumes (Some (input_left self.old)) (Some (input_left self.new))
            result into.new }
        ensures beside { beside_of (Some self.new.written.items) (Some self.new.input)
            ≡ beside_of (Some self.old.written.items) (Some self.old.input) }
        ensures cause { HasCause self.old.calls.faults self.new.calls.faults result }
        ensures listed { self.new.calls.listed ≡ self.old.calls.listed }
        ensures sound { self.old.calls.listed.items ≡ [] → IsOk result }
    {
        self.calls.call()?;
        let count = give_piece(self.input.as_slice(), self.at, self.piece, into);
        self.at += count;
        Ok(count)
    }
}

impl Sink for MemLink {
    ghost use Rattle.std.specs.Io.KnownBytes.{WriteAppends};
    ghost use Rattle.std.specs.Prelude.{◌≡◌, [], Some, IfOk, IsOk};
    ghost use Rattle.vr_base.specs.Causes.{HasCause};
    ghost use Rattle.vr_base.specs.Outside.{TakesPart, beside_of};
    ghost use Rattle.vr_memory_links.specs.Links.{input_left};

    ghost written = { λ link. Some link.written.items };

    ghost faults = { λ link. link.calls.faults };

    ghost beside = { λ link. beside_of (Some (input_left link)) (Some link.input) };

    /// As the trait says. A write that isn't listed fails only where no room is left, and no write
    /// takes memory.
    fn write(&mut self, piece: &[u8]) -> Result<usize, Failed>
        ensures taken { IfOk result (λ count. TakesPart count (length piece.now)) }
        ensures bytes { WriteAppends (Some self.old.written.items) (Some self.new.written.items)
            result piece.now }
        ensures beside { beside_of (Some (input_left self.new)) (Some self.new.input)
            ≡ beside_of (Some (input_left self.old)) (Some self.old.input) }
        ensures cause { HasCause self.old.calls.faults self.new.calls.faults result }
        ensures listed { self.new.calls.listed ≡ self.old.calls.listed }
        ensures room { self.new.room ≡ self.old.room }
        ensures sound { self.old.calls.listed.items ≡ [] → vec_len self.old.written < self.old.room
            → IsOk result }
    {
        self.calls.call()?;
        let most = piece.len().min(self.piece);
        match add_fitting(&mut self.written, self.room, &piece[..most]) {
            Some(count) => Ok(count),
            None => Err(self.calls.fault()),
        }
    }
}

impl Link for MemLink {
    ghost use Rattle.std.specs.Prelude.{Some, refl};

    ghost input = { λ link. Some link.input };

    ghost one_count = { λ link. refl };

    ghost beside_source = { λ link. refl };

    ghost beside_sink = { λ link. refl };
}
