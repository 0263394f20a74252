ghost use Rattle.std.specs.Prelude.{◌≤◌, All, vec_len, vec_capacity};
ghost use Rattle.vr_memory_links.specs.Links.{IsNewLink};

use crate::failing::Failing;
use crate::link::MemLink;
use std::alloc::Global;
use vr_base::{Failed, Listener, NoMemory};

/// A listener in memory, which tells the connections that were given back.
#[derive(Debug, Drop)]
pub struct MemListener {
    /// The last one is handed out first.
    waiting: Vec<MemLink>,
    ended: Vec<MemLink>,
    room: usize,
    told: bool,
    listening: bool,
    handed_out: u64,
    calls: Failing,
    ghost fresh: { All IsNewLink waiting.items },
    ghost fits: { vec_len ended ≤ room },
    ghost reserved: { room ≤ vec_capacity ended },
}

impl MemListener {
    ghost use Rattle.std.specs.Prelude.{◌≡◌, [], false, reverse, Some, IfOk};
    ghost use Rattle.vr_memory_links.specs.Listeners.{ended_told};

    /// A listener that hands out these connections, the first one first, and has room for as many
    /// that are given back. The calls fail whose numbers, `listen` and `accept` counted together
    /// from 0, are listed, and so does an accept without a connection left.
    pub fn new(
        alloc: Global,
        mut links: Vec<MemLink>,
        failing: Vec<u64>,
    ) -> Result<MemListener, NoMemory>
        requires { All IsNewLink links.items }
        ensures waiting { IfOk result (λ listener. listener.waiting.items ≡ reverse links.items) }
        ensures ended { IfOk result (λ listener. ended_told listener ≡ Some []) }
        ensures listening { IfOk result (λ listener. listener.listening ≡ false) }
        ensures handed_out { IfOk result (λ listener. listener.handed_out ≡ 0) }
        ensures faults { IfOk result (λ listener. listener.calls.faults ≡ 0) }
        ensures listed { IfOk result (λ listener. listener.calls.listed ≡ failing) }
    {
        let room = links.len();
        let ended = Vec::with_capacity(alloc, room)?;
        links.reverse();
        Ok(MemListener {
            waiting: links,
            ended,
            room,
            told: true,
            listening: false,
            handed_out: 0,
            calls: Failing::new(failing),
        })
    }

    /// The connections that were given back and found room.
    pub fn ended(&self) -> &[MemLink]
        ensures { result.now ≡ self.now.ended.items }
    {
        self.ended.as_slice()
    }
}

impl Listener for MemListener {
    ghost use Rattle.std.specs.Prelude.{◌≡◌, ◌<◌, ◌-◌, ◌^◌, [], ◌∷◌, ◌++◌, is_ok, IfOk, IfSome, IsSome, IsOk, Some};
    ghost use Rattle.vr_base.specs.Causes.{HasCause};
    ghost use Rattle.vr_base.specs.Links.{IsFresh, IsGivenBack, IsHandedOut};
    ghost use Rattle.vr_memory_links.specs.Links.{input_left};
    ghost use Rattle.vr_memory_links.specs.Listeners.{ended_told};

    type Conn = MemLink;

    ghost listens = { λ listener. listener.listening };

    ghost handed_out = { λ listener. listener.handed_out };

    ghost ended = { ended_told };

    ghost faults = { λ listener. listener.calls.faults };

    /// As the trait says, at no real port. A call that isn't listed doesn't fail.
    fn listen(&mut self, _port: u16) -> Result<(), Failed>
        ensures listens { self.new.listening ≡ is_ok result }
        ensures handed_out { self.new.handed_out ≡ self.old.handed_out }
        ensures ended { ended_told self.new ≡ ended_told self.old }
        ensures cause { HasCause self.old.calls.faults self.new.calls.faults result }
        ensures listed { self.new.calls.listed ≡ self.old.calls.listed }
        ensures waiting { self.new.waiting ≡ self.old.waiting }
        ensures sound { self.old.calls.listed.items ≡ [] → IsOk result }
    {
        let answer = self.calls.call();
        self.listening = answer.is_ok();
        answer
    }

    /// As the trait says, without waiting. The connections are handed out in their order.
    fn accept(&mut self) -> Result<MemLink, Failed>
        ensures fresh { IfOk result (λ conn. IsFresh (Some conn.input) (Some (input_left conn))
            (Some conn.written.items) conn.calls.faults) }
        ensures told { IfOk result (λ conn. IfSome (ended_told self.old) (λ _.
            IsSome (Some conn.input) × IsSome (Some conn.written.items))) }
        ensures handed_out { IsHandedOut self.old.handed_out self.new.handed_out result }
        ensures listens { self.new.listening ≡ self.old.listening }
        ensures ended { ended_told self.new ≡ ended_told self.old }
        ensures cause { HasCause self.old.calls.faults self.new.calls.faults result }
        ensures listed { self.new.calls.listed ≡ self.old.calls.listed }
        ensures next { IfOk result (λ conn.
            self.old.waiting.items ≡ self.new.waiting.items ++ conn ∷ []) }
        ensures sound { self.old.calls.listed.items ≡ [] → 0 < vec_len self.old.waiting
            → self.old.handed_out < 2 ^ 64 - 1 → IsOk result }
    {
        self.calls.call()?;
        if self.handed_out == u64::MAX {
            return Err(self.calls.fault());
        }
        match self.waiting.pop() {
            Some(link) => {
                self.handed_out += 1;
                Ok(link)
            }
            None => Err(self.calls.fault()),
        }
    }

    /// As the trait says. A connection for which there is no room is dropped, and from then on the
    /// list isn't told.
    fn back(&mut self, conn: MemLink)
        ensures ended { IsGivenBack (ended_told self.old) (ended_told self.new)
            (Some conn.input) (Some conn.written.items) conn.calls.faults }
        ensures handed_out { self.new.handed_out ≡ self.old.handed_out }
        ensures listens { self.new.listening ≡ self.old.listening }
        ensures later { self.old.calls.faults ≤ self.new.calls.faults }
        ensures kept { vec_len self.old.ended < self.old.room →
            self.new.ended.items ≡ self.old.ended.items ++ conn ∷ [] }
        ensures told { vec_len self.old.ended < self.old.room → self.new.told ≡ self.old.told }
        ensures room { self.new.room ≡ self.old.room }
    {
        if self.ended.len() == self.room {
            self.told = false;
            return;
        }
        if self.ended.push(conn).is_err() {
            self.told = false;
        }
    }
}
