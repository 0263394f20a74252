ghost use Rattle.std.specs.Prelude.{◌≡◌, ◌≤◌, vec_len, IfOk};

use std::alloc::{AllocError, Global};
use vr_base::{Failed, NoMemory, Source};

/// The most bytes of a head, with the CR and LF before it counted.
pub const MOST_HEAD: usize = 16_384;

/// The bytes of a connection that were read and not yet used. It has room for one head.
#[derive(Debug, Drop)]
pub struct Inbox {
    buffer: Vec<u8>,
    start: usize,
    end: usize,
    ghost whole: { vec_len buffer ≡ 16384 },
    ghost ordered: { start ≤ end },
    ghost within: { end ≤ 16384 },
}

/// So many zeros.
fn zeros(alloc: Global, count: usize) -> Result<Vec<u8>, AllocError>
    ensures { IfOk result (λ bytes. vec_len bytes ≡ count) }
{
    vec![in alloc; 0; count]
}

impl Inbox {
    ghost use Rattle.std.specs.Prelude.{◌<◌, ◌↔◌, [], length, drop, IsTrue};
    ghost use Rattle.vr_base.specs.Causes.{HasCause};
    ghost use Rattle.vr_http.specs.Inboxes.{unread, AddsBytes, Gathers};

    /// An inbox without bytes, whose room is reserved now.
    pub fn new(alloc: Global) -> Result<Inbox, NoMemory>
        ensures { IfOk result (λ inbox. unread inbox ≡ []) }
    {
        Ok(Inbox {
            buffer: zeros(alloc, MOST_HEAD)?,
            start: 0,
            end: 0,
        })
    }

    pub(crate) fn unread(&self) -> &[u8]
        ensures value { result.now ≡ unread self.now }
        ensures fits { length result.now ≤ 16384 }
    {
        &self.buffer[self.start..self.end]
    }

    /// Uses up the first bytes.
    pub(crate) fn skip(&mut self, count: usize)
        requires { count ≤ length (unread self.old) }
        ensures { unread self.new ≡ drop count (unread self.old) }
    {
        self.start += count;
    }

    pub(crate) fn is_full(&self) -> bool
        ensures { IsTrue result ↔ (length (unread self.now) ≡ 16384) }
    {
        self.end - self.start == MOST_HEAD
    }

    fn move_to_front(&mut self)
        ensures held { unread self.new ≡ unread self.old }
        ensures room { self.new.end ≡ length (unread self.old) }
    {
        let (start, end) = (self.start, self.end);
        self.buffer.as_mut_slice().copy_within(start..end, 0);
        self.start = 0;
        self.end = end - start;
    }

    fn read_on<S: Source>(&mut self, source: &mut S) -> Result<usize, Failed>
        requires { self.old.end < 16384 }
        ensures gathered { Gathers (unread self.old) (unread self.new)
            (S.left source.old) (S.left source.new) }
        ensures added { IfOk result
            (AddsBytes (unread self.old) (unread self.new) (S.left source.new)) }
        ensures beside { S.beside source.new ≡ S.beside source.old }
        ensures cause { HasCause (S.faults source.old) (S.faults source.new) result }
    {
        let end = self.end;
        let count = source.read(&mut self.buffer[end..])?;
        self.end = end + count;
        Ok(count)
    }

    /// Reads once more from the source, and answers how many bytes came: none at its end.
    pub(crate) fn fill<S: Source>(&mut self, source: &mut S) -> Result<usize, Failed>
        requires { length (unread self.old) < 16384 }
        ensures gathered { Gathers (unread self.old) (unread self.new)
            (S.left source.old) (S.left source.new) }
        ensures added { IfOk result
            (AddsBytes (unread self.old) (unread self.new) (S.left source.new)) }
        ensures beside { S.beside source.new ≡ S.beside source.old }
        ensures cause { HasCause (S.faults source.old) (S.faults source.new) result }
    {
        if self.end == MOST_HEAD {
            self.move_to_front();
        }
        self.read_on(source)
    }
}
