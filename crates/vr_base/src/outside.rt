ghost use Rattle.std.specs.Prelude.{◌≡◌, ◌≤◌, ℕ, Bool, List, Option, length, is_ok, IfOk, IfSome, IsSome, OnOk, OnErr};
ghost use Rattle.std.specs.Io.KnownBytes.{Appends, ReadConsumes, WriteAppends};
ghost use Rattle.vr_base.specs.Causes.{HasCause};
ghost use Rattle.vr_base.specs.Links.{EndedLink, IsFresh, IsGivenBack, IsHandedOut};
ghost use Rattle.vr_base.specs.Outside.{FolderCounts, HasFolderCause, Beside, beside_of, Holds, IsNotThere, AppendsPrefix, TakesPart};

use crate::bytes::Bytes;
use std::alloc::Global;

/// The outside failed: a read, a write, a connection.
#[derive(Clone, Copy, Debug, PartialEq, Eq)]
pub struct Failed;

/// Why a file was not read.
#[derive(Clone, Copy, Debug, PartialEq, Eq)]
pub enum FolderFault {
    /// There is no file of that name.
    Absent,
    Failed,
    OutOfMemory,
}

/// A folder of named files that are read.
pub trait Folder {
    /// The files by name, where the folder tells them. Of two with one name the first counts.
    ghost files: { Self → Option (List (List ℕ × List ℕ)) };

    /// How often a file was not there, and how often a read failed.
    ghost counts: { Self → FolderCounts };

    /// The first `most` bytes of a file, or all where it has fewer.
    fn read(&mut self, alloc: Global, name: &str, most: usize) -> Result<Bytes, FolderFault>
        ensures same { files self.new ≡ files self.old }
        ensures within { IfOk result (λ bytes. length bytes ≤ most) }
        ensures bytes { IfOk result (λ bytes. Holds (files self.old) name.now most bytes) }
        ensures not_there { result ≡ Err FolderFault.Absent → IsNotThere (files self.old) name.now }
        ensures cause { HasFolderCause (counts self.old) (counts self.new) result };
}

/// What gives bytes, as a file or a connection does.
pub trait Source {
    /// The bytes that are left, where the source tells them.
    ghost left: { Self → Option (List ℕ) };

    /// How often a read has failed.
    ghost faults: { Self → ℕ };

    /// Of a source that is a half of a link, what the other half tells.
    ghost beside: { Self → Beside };

    /// Fills a prefix of the buffer and answers how many bytes it gave. No byte for a buffer that
    /// isn't empty is the end. A read that fails leaves what is left.
    fn read(&mut self, into: &mut [u8]) -> Result<usize, Failed>
        ensures given { IfOk result (λ count. count ≤ length into.new) }
        ensures bytes { ReadConsumes (left self.old) (left self.new) result into.new }
        ensures beside { beside self.new ≡ beside self.old }
        ensures cause { HasCause (faults self.old) (faults self.new) result };
}

/// What takes bytes, as a terminal, a file or a connection does.
pub trait Sink {
    /// The bytes written, where the sink tells them.
    ghost written: { Self → Option (List ℕ) };

    /// How often a write has failed.
    ghost faults: { Self → ℕ };

    /// Of a sink that is a half of a link, what the other half tells.
    ghost beside: { Self → Beside };

    /// Takes a prefix of the piece and answers how many bytes it took, at least one of a piece that
    /// isn't empty. A write that fails leaves what was written.
    fn write(&mut self, piece: &[u8]) -> Result<usize, Failed>
        ensures taken { IfOk result (λ count. TakesPart count (length piece.now)) }
        ensures bytes { WriteAppends (written self.old) (written self.new) result piece.now }
        ensures beside { beside self.new ≡ beside self.old }
        ensures cause { HasCause (faults self.old) (faults self.new) result };
}

/// A connection: what is read from it and what is written to it. Its two counts of faults are one,
/// and each half knows what the other tells.
pub trait Link: Source + Sink {
    /// All the bytes that the link was given to read, where it tells them. No call changes them.
    ghost input: { Self → Option (List ℕ) };

    ghost one_count: { (link : Self) → Self.Source.faults link ≡ Self.Sink.faults link };

    ghost beside_source: { (link : Self) →
        Self.Source.beside link ≡ beside_of (Self.written link) (input link) };

    ghost beside_sink: { (link : Self) →
        Self.Sink.beside link ≡ beside_of (Self.left link) (input link) };
}

/// Hands out connections and takes them back.
pub trait Listener {
    type Conn: Link;

    ghost listens: { Self → Bool };

    /// How many connections were handed out.
    ghost handed_out: { Self → ℕ };

    /// The connections that were given back, where the listener tells them.
    ghost ended: { Self → Option (List EndedLink) };

    /// How often a call has failed.
    ghost faults: { Self → ℕ };

    /// Listens at a port of this machine.
    fn listen(&mut self, port: u16) -> Result<(), Failed>
        ensures listens { listens self.new ≡ is_ok result }
        ensures handed_out { handed_out self.new ≡ handed_out self.old }
        ensures ended { ended self.new ≡ ended self.old }
        ensures cause { HasCause (faults self.old) (faults self.new) result };

    /// Waits for the next connection. After 2^64 - 1 of them each call fails.
    fn accept(&mut self) -> Result<Self::Conn, Failed>
        ensures fresh { IfOk result (λ conn. IsFresh (Self.Conn.input conn) (Self.Conn.left conn)
            (Self.Conn.written conn) (Self.Conn.Source.faults conn)) }
        ensures told { IfOk result (λ conn. IfSome (ended self.old) (λ _.
            IsSome (Self.Conn.input conn) × IsSome (Self.Conn.written conn))) }
        ensures handed_out { IsHandedOut (handed_out self.old) (handed_out self.new) result }
        ensures listens { listens self.new ≡ listens self.old }
        ensures ended { ended self.new ≡ ended self.old }
        ensures cause { HasCause (faults self.old) (faults self.new) result };

    /// Takes back a connection that has ended.
    fn back(&mut self, conn: Self::Conn)
        ensures ended { IsGivenBack (ended self.old) (ended self.new) (Self.Conn.input conn)
            (Self.Conn.written conn) (Self.Conn.Source.faults conn) }
        ensures handed_out { handed_out self.new ≡ handed_out self.old }
        ensures listens { listens self.new ≡ listens self.old }
        ensures later { faults self.old ≤ faults self.new };
}

/// Writes all the bytes. Where a write fails, a prefix of them was written.
pub fn write_all<O: Sink>(out: &mut O, bytes: &[u8]) -> Result<(), Failed>
    ensures ok { OnOk result (Appends (O.written out.old) (O.written out.new) bytes.now) }
    ensures err { OnErr result (AppendsPrefix (O.written out.old) (O.written out.new) bytes.now) }
    ensures beside { O.beside out.new ≡ O.beside out.old }
    ensures cause { HasCause (O.faults out.old) (O.faults out.new) result }
{
    let mut at = 0;
    while at < bytes.len() {
        at += out.write(&bytes[at..])?;
    }
    Ok(())
}
