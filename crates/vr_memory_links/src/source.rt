ghost use Rattle.std.specs.Prelude.{◌<◌, ◌≤◌, length};

use crate::failing::Failing;
use crate::moving::give_piece;
use vr_base::{Bytes, Failed, Source};

/// A source in memory, which tells what is left.
#[derive(Debug, Drop)]
pub struct MemSource {
    input: Bytes,
    at: usize,
    piece: usize,
    calls: Failing,
    ghost within: { at ≤ length input },
    ghost some: { 0 < piece },
}

impl MemSource {
    ghost use Rattle.vr_memory_links.specs.Sources.{IsNewSource};

    /// A source of these bytes. A read gives at most `piece` of them. The reads fail whose numbers,
    /// counted from 0, are listed, and no other.
    pub fn new(input: Bytes, piece: u32, failing: Vec<u64>) -> MemSource
        requires { 0 < piece }
        ensures { IsNewSource input piece failing.items result }
    {
        MemSource {
            input,
            at: 0,
            piece: piece as usize,
            calls: Failing::new(failing),
        }
    }
}

impl Source for MemSource {
    ghost use Rattle.std.specs.Io.KnownBytes.{ReadConsumes};
    ghost use Rattle.std.specs.Prelude.{◌≡◌, [], Some, IfOk, IsOk};
    ghost use Rattle.vr_base.specs.Causes.{HasCause};
    ghost use Rattle.vr_base.specs.Outside.{nothing_beside};
    ghost use Rattle.vr_memory_links.specs.Sources.{bytes_left};

    ghost left = { λ source. Some (bytes_left source) };

    ghost faults = { λ source. source.calls.faults };

    ghost beside = { λ _. nothing_beside };

    /// As the trait says. A read that isn't listed doesn't fail.
    fn read(&mut self, into: &mut [u8]) -> Result<usize, Failed>
        ensures given { IfOk result (λ count. count ≤ length into.new) }
        ensures bytes { ReadConsumes (Some (bytes_left self.old)) (Some (bytes_left self.new))
            result into.new }
        ensures cause { HasCause self.old.calls.faults self.new.calls.faults result }
        ensures listed { self.new.calls.listed ≡ self.old.calls.listed }
        ensures sound { self.old.calls.listed.items ≡ [] → IsOk result }
    {
        self.calls.call()?;
        let count = give_piece(self.input.as_slice(), self.at, self.piece, into);
        self.at += count;
        Ok(count)
    }
}
