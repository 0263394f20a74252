ghost use Rattle.std.specs.Prelude.{◌≤◌, vec_len, vec_capacity};

use crate::failing::Failing;
use crate::moving::add_fitting;
use std::alloc::Global;
use vr_base::{Failed, NoMemory, Sink};

/// A sink in memory, which tells what was written.
#[derive(Debug, Drop)]
pub struct MemSink {
    bytes: Vec<u8>,
    room: usize,
    calls: Failing,
    ghost within: { vec_len bytes ≤ room },
    ghost reserved: { room ≤ vec_capacity bytes },
}

impl MemSink {
    ghost use Rattle.std.specs.Prelude.{◌≡◌, IfOk};
    ghost use Rattle.vr_memory_links.specs.Sinks.{IsUnused};

    /// A sink with room for so many bytes, which is reserved now, so that no write takes memory. The writes fail whose
    /// numbers, counted from 0, are listed, and so does a write of something where no room is left. Another write takes
    /// what fits.
    pub fn new(alloc: Global, room: usize, failing: Vec<u64>) -> Result<MemSink, NoMemory>
        ensures { IfOk result (λ sink. IsUnused room failing.items sink) }
    {
        Ok(MemSink {
            bytes: Vec::with_capacity(alloc, room)?,
            room,
            calls: Failing::new(failing),
        })
    }

    /// What was written.
    pub fn written(&self) -> &[u8]
        ensures { result.now ≡ self.now.bytes.items }
    {
        self.bytes.as_slice()
    }
}

impl Sink for MemSink {
    ghost use Rattle.std.specs.Io.KnownBytes.{WriteAppends};
    ghost use Rattle.std.specs.Prelude.{◌≡◌, [], length, Some, IfOk};
    ghost use Rattle.vr_base.specs.Causes.{HasCause};
    ghost use Rattle.vr_base.specs.Outside.{TakesPart, nothing_beside};
    ghost use Rattle.vr_memory_links.specs.Sinks.{TakesWhatFits};

    ghost written = { λ sink. Some sink.bytes.items };

    ghost faults = { λ sink. sink.calls.faults };

    ghost beside = { λ _. nothing_beside };

    /// As the trait says. A write that isn't listed fails only where no room is left, and no write takes memory.
    fn write(&mut self, piece: &[u8]) -> Result<usize, Failed>
        ensures taken { IfOk result (λ count. TakesPart count (length piece.now)) }
        ensures bytes { WriteAppends (Some self.old.bytes.items) (Some self.new.bytes.items)
            result piece.now }
        ensures cause { HasCause self.old.calls.faults self.new.calls.faults result }
        ensures listed { self.new.calls.listed ≡ self.old.calls.listed }
        ensures room { self.new.room ≡ self.old.room }
        ensures fits { self.old.calls.listed.items ≡ [] →
            TakesWhatFits self.old (length piece.now) result }
    {
        self.calls.call()?;
        match add_fitting(&mut self.bytes, self.room, piece) {
            Some(count) => Ok(count),
            None => Err(self.calls.fault()),
        }
    }
}
