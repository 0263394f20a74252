ghost use Rattle.std.specs.Prelude.{◌≡◌, ◌≢◌, ◌≤◌, ◌⊎◌, ℕ, ◌++◌, ◌∷◌, [], IfOk, IfErr, OnOk, OnErr, IsTrue, length, Ok, Err};
ghost use Rattle.std.specs.FinMap.{insert};
ghost use Rattle.std.specs.Result.{result_unwrap_or};
ghost use Rattle.vr_base.specs.Calls.{is_made};
ghost use Rattle.vr_base.specs.Causes.{HasCauseOf, Rose};
ghost use Rattle.vr_base.specs.Checks.{result_map, result_map_err};
ghost use Rattle.vr_core.specs.Crashes.{StepsSafely};
ghost use Rattle.vr_core.specs.History.{IsBook, Opens, Steps, TellsAsBefore, entry, keeper_of};
ghost use Rattle.vr_core.specs.Isolation.{IsIsolated, IsIsolatedHistory};
ghost use Rattle.vr_core.specs.Loading.{LeavesLoaded, OpensListed, start_answer};
ghost use Rattle.vr_core.specs.Machine.{IsNextFiles, IsRunStep, IsStep, append_effect, body_for, bytes_at, effect, ended_effect, files_with, hash_effect, read_effect, run_place, write_effect};
ghost use Rattle.vr_core.specs.Opening.{ComesFromRows};
ghost use Rattle.vr_core.specs.Plans.{AsksRightly, HasDifferences, plan_effect};
ghost use Rattle.vr_core.specs.Replies.{Gives, GivesStep, IsKept, IsUnkept};
ghost use Rattle.vr_core.specs.Starts.{StartsRightly};
ghost use Rattle.vr_files.specs.Changes.{applied};
ghost use Rattle.vr_files.specs.FileMaps.{FileMap};
ghost use Rattle.vr_keeper.specs.Crashes.{LoadKeepsCrashes};

use crate::checks::{check_caller, check_file, check_path, check_size};
use crate::opening::{Opening, StartFault, load};
use crate::policy_files::{PolicyFiles, one_change, size_at};
use std::alloc::Global;
use std::marker::Model;
use vr_base::{
    APPEND_RIGHTS, Bytes, Call, Entry, NoMemory, Path, READ_RIGHTS, Reply, WRITE_RIGHTS,
};
use vr_exec::Outcome;
use vr_files::{Changes, FileBody, FileFault, Files};
use vr_keeper::{KeepFault, Keeper};
use vr_policy_check::CheckedPolicy;

/// The history of a runtime, the files after it, and the keeper that stores them. Contracts see where the history began,
/// the journal of its calls, the files and the keeper. The journal is legal from the beginning on, and the files are those
/// after it, which the keeper's rows are, where it tells them.
#[derive(Debug, Drop)]
pub struct Book<K: Keeper> {
    files: PolicyFiles,
    hash: [u8; 64],
    fuel: u64,
    /// The files with which the history began.
    opening: Files,
    journal: Vec<Entry>,
    keeper: K,
}

impl<K: Keeper> Model for Book<K> {
    ghost use Rattle.std.specs.Coded.{codes};
    ghost use Rattle.vr_core.specs.History.{BookState, IsBook, book_state};
    ghost use Rattle.vr_files.specs.FileMaps.{coded_files};
    ghost use Rattle.vr_pipe.specs.contracts.trees.Tree as trees;

    ghost Value = { BookState K };

    ghost coded = { Prim.hlevel (codes, coded_files, trees.the_row.coded, K.code) };

    ghost view = { λ b. book_state b.files.policy b.hash b.fuel b.opening.map b.journal.items
        b.files.files.map b.keeper };

    ghost invariant = { λ b. IsBook K.rows K.is_loaded
        (book_state b.files.policy b.hash b.fuel b.opening.map b.journal.items
        b.files.files.map b.keeper) };
}

/// What is to be done for a call that its checks let pass. What needs memory for it was made already.
#[derive(Drop)]
enum Plan {
    /// To answer, and to change no file.
    Answer(Reply),
    /// To have changes kept, and then to answer.
    Keep { reply: Reply, changes: Changes },
}

impl<K: Keeper> Book<K> {
    /// A book without calls, over the files that the keeper loads from a store, under a policy with the hash of its
    /// file, in 64 digits. All programs of a run may make as many steps together as there is fuel. After an error the
    /// keeper comes back.
    pub fn start(
        alloc: Global,
        policy: CheckedPolicy,
        hash: [u8; 64],
        keeper: K,
        store: &[u8],
        fuel: u64,
    ) -> Result<Book<K>, (StartFault, K)>
        ensures opens { IfOk result (Opens policy hash fuel (K.rows keeper)) }
        ensures opening { IfOk result (λ book.
            ComesFromRows (K.rows keeper) (Ok book.origin.opening)) }
        ensures bad_row { IfErr result (λ refusal. (place : ℕ) → refusal.0 ≡ StartFault.BadRow place
            → ComesFromRows (K.rows keeper) (Err (StartFault.BadRow place))) }
        ensures exact { OpensListed (K.listed keeper) (start_answer result) }
        ensures left { IfErr result (λ refusal.
            LeavesLoaded (K.listed keeper) refusal.0 (K.is_loaded refusal.1)) }
        ensures cause { HasCauseOf StartFault.KeeperFailed
            (K.faults keeper) (K.faults (keeper_of result))
            (result_map_err (λ refusal. refusal.0) result) }
        ensures rows { K.rows (keeper_of result) ≡ K.rows keeper }
        ensures listed { K.listed (keeper_of result) ≡ K.listed keeper }
        ensures tells { K.tells_crashes (keeper_of result) ≡ K.tells_crashes keeper }
        ensures crashes { IsTrue (K.tells_crashes keeper) →
            LoadKeepsCrashes (K.clock keeper) (K.clock (keeper_of result))
            (K.may_leave keeper) (K.may_leave (keeper_of result)) }
        ensures book { IfOk result (IsBook K.rows K.is_loaded) }
    {
        // A checked policy keeps its rules, and the book with it.
        let _listed = policy.policy();
        let mut keeper = keeper;
        match load(alloc, policy, &mut keeper, store) {
            Ok(Opening { files, opening }) => Ok(Book {
                files,
                hash,
                fuel,
                opening,
                journal: Vec::new(alloc),
                keeper,
            }),
            Err(fault) => Err((fault, keeper)),
        }
    }

    /// The calls that were made, in order.
    pub fn journal(&self) -> &[Entry]
        ensures entries { result.now ≡ self.now.journal }
        ensures book { IsBook K.rows K.is_loaded self.now }
    {
        self.journal.as_slice()
    }

    /// The files after the calls.
    pub fn files(&self) -> &Files
        ensures files { result.now.map ≡ self.now.files }
        ensures book { IsBook K.rows K.is_loaded self.now }
    {
        self.files.files()
    }

    pub fn policy(&self) -> &CheckedPolicy
        ensures { result.now ≡ self.now.origin.policy }
    {
        self.files.policy()
    }

    /// Ends the book, and gives the keeper back.
    pub fn finish(self) -> K
        ensures { result ≡ self.keeper }
    {
        self.keeper
    }

    /// Makes a call of an identity, which came by a seat, and answers it. A call that is answered `OutOfMemory` or
    /// `Unavailable` was not made, and changes neither the journal nor the files. The keeper is asked at most once, when all
    /// that needs memory is there: for each write and append, and for a run that has changes.
    pub fn step(&mut self, seat: u32, who: u32, call: Call) -> Reply
        ensures steps { Steps self.old self.new seat who call result }
        ensures faults { K.faults self.old.keeper ≤ K.faults self.new.keeper }
        ensures cause { result ≡ Reply.Unavailable
            → IsUnkept (IsStep self.old.origin self.old.files who call) self.old.files
            (K.faults self.old.keeper) (K.faults self.new.keeper) }
        ensures tells { TellsAsBefore K.rows K.tells_crashes self.old.keeper self.new.keeper }
        ensures crashes { IsTrue (K.tells_crashes self.old.keeper)
            → StepsSafely (K.may_leave self.old.keeper) (K.may_leave self.new.keeper)
            (K.clock self.old.keeper) (K.clock self.new.keeper) self.old.files
            (IsNextFiles self.old.origin self.old.files who call) self.new.files result }
        ensures starts { StartsRightly self.old.origin.policy self.old.files who call }
        ensures isolated { IsTrue (is_made result)
            → IsIsolated self.old.origin self.old.files who call (effect result self.new.files) }
        ensures history { IsIsolatedHistory self.new.origin self.new.journal }
        ensures book { IsBook K.rows K.is_loaded self.new }
    {
        match self.plan(who, &call) {
            Ok(Plan::Keep { reply, changes }) => {
                let kept = self.keep(seat, who, call, reply, changes);
                kept.unwrap_or(Reply::OutOfMemory)
            }
            Ok(Plan::Answer(reply)) => self.answer(seat, who, call, reply),
            Err(refusal) => self.answer(seat, who, call, refusal),
        }
    }

    /// Answers a call, which changes no file, and adds its entry where it was made.
    fn answer(&mut self, seat: u32, who: u32, call: Call, reply: Reply) -> Reply
        requires outcome { IsTrue (is_made reply)
            → IsStep self.old.origin self.old.files who call (effect reply self.old.files) }
        requires available { reply ≢ Reply.Unavailable }
        requires book { IsBook K.rows K.is_loaded self.old }
        ensures steps { Steps self.old self.new seat who call result }
        ensures unasked { self.new.keeper ≡ self.old.keeper }
        ensures answered { (result ≡ Reply.OutOfMemory) ⊎ (result ≡ reply) }
        ensures book { IsBook K.rows K.is_loaded self.new }
    {
        if !is_made(&reply) {
            return reply;
        }
        match self.record(seat, who, call, &reply) {
            Ok(()) => reply,
            Err(NoMemory) => Reply::OutOfMemory,
        }
    }

    /// Adds the entry of a call that was made and changed no file.
    fn record(&mut self, seat: u32, who: u32, call: Call, reply: &Reply) -> Result<(), NoMemory>
        requires outcome { IsStep self.old.origin self.old.files who call
            (effect reply.now self.old.files) }
        requires made { IsTrue (is_made reply.now) }
        requires book { IsBook K.rows K.is_loaded self.old }
        ensures ok { OnOk result
            (self.new.journal ≡ self.old.journal ++ entry seat who call reply.now ∷ []) }
        ensures err { OnErr result (self.new.journal ≡ self.old.journal) }
        ensures origin { self.new.origin ≡ self.old.origin }
        ensures files { self.new.files ≡ self.old.files }
        ensures keeper { self.new.keeper ≡ self.old.keeper }
        ensures book { IsBook K.rows K.is_loaded self.new }
    {
        let kept = reply.copy()?;
        self.journal.push(Entry {
            seat,
            who,
            call,
            reply: kept,
        })?;
        Ok(())
    }

    /// Has changes kept, by the keeper first, and adds the entry of the call that asks for them.
    fn keep(
        &mut self,
        seat: u32,
        who: u32,
        call: Call,
        reply: Reply,
        changes: Changes,
    ) -> Result<Reply, NoMemory>
        requires outcome { IsStep self.old.origin self.old.files who call
            (effect reply (applied self.old.files changes)) }
        requires asked { IsKept self.old.files (effect reply (applied self.old.files changes)) }
        ensures steps { Steps self.old self.new seat who call
            (result_unwrap_or result Reply.OutOfMemory) }
        ensures faults { K.faults self.old.keeper ≤ K.faults self.new.keeper }
        ensures cause { result ≡ Ok Reply.Unavailable
            → Rose (K.faults self.old.keeper) (K.faults self.new.keeper) }
        ensures tells { TellsAsBefore K.rows K.tells_crashes self.old.keeper self.new.keeper }
        ensures crashes { IsTrue (K.tells_crashes self.old.keeper)
            → StepsSafely (K.may_leave self.old.keeper) (K.may_leave self.new.keeper)
            (K.clock self.old.keeper) (K.clock self.new.keeper) self.old.files
            (IsNextFiles self.old.origin self.old.files who call) self.new.files
            (result_unwrap_or result Reply.OutOfMemory) }
        ensures book { IsBook K.rows K.is_loaded self.new }
    {
        let alloc = *self.journal.allocator();
        self.journal.reserve(1)?;
        self.files.reserve(changes.as_slice().len())?;
        let told = reply.copy()?;
        match self.keeper.apply(alloc, &changes) {
            Ok(()) => {}
            Err(KeepFault::Failed) => return Ok(Reply::Unavailable),
            Err(KeepFault::OutOfMemory) => return Err(NoMemory),
        }
        self.files.keep(changes);
        let entry = Entry {
            seat,
            who,
            call,
            reply: told,
        };
        self.journal.push(entry).unwrap();
        Ok(reply)
    }

    /// What is to be done for the call, or the refusal of the first check that fails.
    fn plan(&self, who: u32, call: &Call) -> Result<Plan, Reply>
        ensures plan { GivesStep (IsStep self.now.origin self.now.files who call.now) self.now.files
            (result_map (plan_effect self.now.files) result) }
        ensures asks { IfOk result (AsksRightly self.now.files) }
        ensures book { IsBook K.rows K.is_loaded self.now }
    {
        let alloc = *self.journal.allocator();
        match call {
            Call::Read { name } => self.plan_read(alloc, who, name.as_slice()),
            Call::Write { name, body } => {
                self.plan_write(alloc, who, name.as_slice(), body.as_slice())
            }
            Call::Append { name, body } => {
                self.plan_append(alloc, who, name.as_slice(), body.as_slice())
            }
            Call::Run { pipeline } => self.plan_run(alloc, who, *pipeline),
            Call::Hash => self.plan_hash(who),
        }
    }

    /// What is to be done for a read.
    fn plan_read(&self, alloc: Global, who: u32, name: &[u8]) -> Result<Plan, Reply>
        ensures plan { Gives (result_map (plan_effect self.now.files) result)
            (read_effect self.now.origin self.now.files who name.now) }
        ensures asks { IfOk result (AsksRightly self.now.files) }
    {
        let body = self.read(alloc, who, name)?;
        Ok(Plan::Answer(Reply::Read { body }))
    }

    /// What is to be done for a write.
    fn plan_write(&self, alloc: Global, who: u32, name: &[u8], bytes: &[u8]) -> Result<Plan, Reply>
        ensures plan { Gives (result_map (plan_effect self.now.files) result)
            (write_effect self.now.origin self.now.files who name.now bytes.now) }
        ensures asks { IfOk result (AsksRightly self.now.files) }
    {
        let path = check_path(alloc, self.policy(), who, name, WRITE_RIGHTS)?;
        let body = self.written(alloc, &path, bytes)?;
        plan_store(alloc, path, body)
    }

    /// What is to be done for an append.
    fn plan_append(&self, alloc: Global, who: u32, name: &[u8], piece: &[u8]) -> Result<Plan, Reply>
        ensures plan { Gives (result_map (plan_effect self.now.files) result)
            (append_effect self.now.origin self.now.files who name.now piece.now) }
        ensures asks { IfOk result (AsksRightly self.now.files) }
    {
        let path = check_path(alloc, self.policy(), who, name, APPEND_RIGHTS)?;
        let body = self.extended(alloc, &path, piece)?;
        plan_store(alloc, path, body)
    }

    /// What is to be done for a call for the policy's hash.
    fn plan_hash(&self, who: u32) -> Result<Plan, Reply>
        ensures plan { Gives (result_map (plan_effect self.now.files) result)
            (hash_effect self.now.origin self.now.files who) }
        ensures asks { IfOk result (AsksRightly self.now.files) }
    {
        check_caller(self.policy(), who)?;
        Ok(Plan::Answer(Reply::PolicyHash { digits: self.hash }))
    }

    /// What is to be done for a run, which is made here over a share of the files.
    fn plan_run(&self, alloc: Global, who: u32, id: u32) -> Result<Plan, Reply>
        ensures plan { GivesStep
            (IsRunStep self.now.origin self.now.files
            (run_place self.now.origin.policy self.now.files who id))
            self.now.files (result_map (plan_effect self.now.files) result) }
        ensures asks { IfOk result (AsksRightly self.now.files) }
    {
        let pipeline = self.files.check_run(who, id)?;
        match self.files.run(alloc, pipeline, self.fuel) {
            Ok(Outcome::Ended { code, out, changes }) => self.plan_ended(alloc, code, out, changes),
            Ok(Outcome::BadProgram { path, why }) => Err(Reply::BadProgram { path, why }),
            Ok(Outcome::Trapped { path, kind }) => Err(Reply::Trapped { path, kind }),
            Ok(Outcome::OutOfFuel { path }) => Err(Reply::OutOfFuel { path }),
            Err(NoMemory) => Err(Reply::OutOfMemory),
        }
    }

    /// What is to be done for a run that ended with a code.
    fn plan_ended(
        &self,
        alloc: Global,
        code: u32,
        out: Bytes,
        changes: Changes,
    ) -> Result<Plan, Reply>
        requires { HasDifferences self.now.files changes }
        ensures plan { Gives (result_map (plan_effect self.now.files) result)
            (ended_effect self.now.origin.policy self.now.files code out changes) }
        ensures asks { IfOk result (AsksRightly self.now.files) }
    {
        if changes.as_slice().is_empty() {
            return Ok(Plan::Answer(Reply::Ended { code, out }));
        }
        self.files.check_quotas(alloc, &changes)?;
        Ok(Plan::Keep {
            reply: Reply::Ended { code, out },
            changes,
        })
    }

    /// The body that a read answers.
    fn read(&self, alloc: Global, who: u32, name: &[u8]) -> Result<Bytes, Reply>
        ensures { Gives result (body_for self.now.origin self.now.files who name.now) }
    {
        let path = check_path(alloc, self.policy(), who, name, READ_RIGHTS)?;
        let body = check_file(self.files(), &path)?;
        body.to_bytes().or(Err(Reply::OutOfMemory))
    }

    /// The body of a file that is written whole.
    fn written(&self, alloc: Global, path: &Path, bytes: &[u8]) -> Result<FileBody, Reply>
        ensures { Gives (result_map (insert self.now.files path.now) result)
            (files_with self.now.origin self.now.files path.now bytes.now) }
    {
        check_size(bytes.len())?;
        self.files.check_quota(alloc, path, bytes.len())?;
        FileBody::from_slice(alloc, bytes).or(Err(Reply::OutOfMemory))
    }

    /// The body of a file with a piece at its end, which is the whole of it where there was no file.
    fn extended(&self, alloc: Global, path: &Path, piece: &[u8]) -> Result<FileBody, Reply>
        ensures { Gives (result_map (insert self.now.files path.now) result)
            (files_with self.now.origin self.now.files path.now
            (bytes_at self.now.files path.now ++ piece.now)) }
    {
        let size = size_at(self.files(), path) as usize;
        check_size(size.saturating_add(piece.len()))?;
        self.files.check_quota(alloc, path, size + piece.len())?;
        self.joined(alloc, path, piece).or(Err(Reply::OutOfMemory))
    }

    /// The bytes at the path and the piece after them, which a file may have together.
    fn joined(&self, alloc: Global, path: &Path, piece: &[u8]) -> Result<FileBody, FileFault>
        requires { length (bytes_at self.now.files path.now ++ piece.now) ≤ 16777216 }
        ensures { IfOk result (λ body. body ≡ bytes_at self.now.files path.now ++ piece.now) }
    {
        match self.files().get(path) {
            Some(body) => {
                let mut body = body.share()?;
                body.append(piece)?;
                Ok(body)
            }
            None => FileBody::from_slice(alloc, piece),
        }
    }
}

/// To have a body kept at a path, which is answered as stored.
fn plan_store(alloc: Global, path: Path, body: FileBody) -> Result<Plan, Reply>
    ensures plan { (files : FileMap) → Gives (result_map (plan_effect files) result)
        (Ok (effect Reply.Stored (insert files path body))) }
    ensures asks { (files : FileMap) → IfOk result (AsksRightly files) }
{
    match one_change(alloc, path, body) {
        Ok(changes) => Ok(Plan::Keep {
            reply: Reply::Stored,
            changes,
        }),
        Err(NoMemory) => Err(Reply::OutOfMemory),
    }
}

/// Whether a call with this reply was made.
fn is_made(reply: &Reply) -> bool
    ensures { result ≡ is_made reply.now }
{
    !matches!(reply, Reply::Unavailable | Reply::OutOfMemory)
}
