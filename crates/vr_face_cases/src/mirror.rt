ghost use Rattle.std.specs.Prelude.{◌≡◌, true, IfOk};
ghost use Rattle.vr_base.specs.Calls.{is_made};

use std::alloc::Global;
use vr_base::{Bytes, Call, Desk, Entry, Front, NoMemory, Reply};

/// A desk of one thread that answers each call from the call itself.
#[derive(Drop)]
pub struct Mirror {
    alloc: Global,
    seen: Vec<Entry>,
}

/// A file reads as its name, and a pipeline ends with its id.
fn reply_to(alloc: Global, call: &Call) -> Result<Reply, NoMemory>
    ensures { IfOk result (λ reply. is_made reply ≡ true) }
{
    match call {
        Call::Read { name } => Ok(Reply::Read { body: name.copy()? }),
        Call::Write { .. } | Call::Append { .. } => Ok(Reply::Stored),
        Call::Run { pipeline } => Ok(Reply::Ended {
            code: *pipeline,
            out: Bytes::from_slice(alloc, b"out")?,
        }),
        Call::Hash => Ok(Reply::PolicyHash { digits: [b'f'; 64] }),
    }
}

impl Mirror {
    ghost use Rattle.std.specs.Prelude.{◌≢◌};
    ghost use Rattle.vr_base.specs.Desks.{Sees};
    ghost use Rattle.vr_face_cases.specs.Mirrors.{Records};

    pub fn new(alloc: Global) -> Mirror {
        Mirror {
            alloc,
            seen: Vec::new(alloc),
        }
    }

    /// How many calls were made.
    pub fn count(&self) -> usize {
        self.seen.len()
    }

    fn record(&mut self, who: u32, call: Call) -> Result<Reply, NoMemory>
        ensures { Records who call self.old.seen.items self.new.seen.items result }
    {
        let reply = reply_to(self.alloc, &call)?;
        let kept = reply.copy()?;
        self.seen.push(Entry {
            seat: 0,
            who,
            call,
            reply: kept,
        })?;
        Ok(reply)
    }

    fn answer(&mut self, who: u32, call: Call) -> Reply
        ensures seen { Sees 0 who call result self.old.seen.items self.new.seen.items }
        ensures calm { result ≢ Reply.Unavailable }
    {
        match self.record(who, call) {
            Ok(reply) => reply,
            Err(_) => Reply::OutOfMemory,
        }
    }
}

impl Desk for Mirror {
    ghost Origin = { Unit {0} };

    ghost origin = { λ _. tt };

    ghost seat = { λ _. 0 };

    ghost seen = { λ mirror. mirror.seen.items };

    ghost faults = { λ _. 0 };

    ghost found = { λ _. 0 };

    fn ask(&mut self, who: u32, call: Call) -> (Reply, Front) {
        let reply = self.answer(who, call);
        let front = Front {
            entries: self.seen.len() as u64,
        };
        (reply, front)
    }
}
