ghost use Rattle.std.specs.Prelude.{◌≡◌, ◌↔◌, ◌≤◌, ◌≢◌, ℕ, [], Ok, length, map, string_bytes, IfOk, IfSome, IsOk};
ghost use Rattle.vr_base.specs.Checks.{result_map};
ghost use Rattle.vr_face.specs.Porches.{KeepsServed};
ghost use Rattle.vr_session.specs.Attendings.{ComesBack, told};
ghost use Rattle.vr_words.specs.Grammar.{AskFor, IsWrongAt, Task};
ghost use Rattle.vr_words.specs.Views.{placed, serving_of};
ghost use Rattle.vr_cli.specs.ServerEndings.{ComesAfter, EndsStarted, EndsUnstarted, HandsOut, IfBook, IfStore, IsBeforeListening, IsCounted, IsPastReading, IsServedAlone, IsUnder, IsUnserved, KeepsCrashes, MayStillCome, NothingFailed, SaysOfBasis, ServerCauses, ServesListener, WritesUpTo, kept_keeper, outside, status_at_end, status_for_start, wants_memory};
ghost use Rattle.vr_cli.specs.FileWords.{IfAbsent, IsFileOf, IsPlaceOf, NamesFile};
ghost use Rattle.vr_cli.specs.ServerFiles.{IsSaid};
ghost use Rattle.vr_policy_check.specs.Rules.{identity_ids};
ghost use Rattle.vr_cli.specs.Servings.{WhereAsked, basis_over, first_lines, last_lines, servers, server_text, task_asked};

use crate::gathering::TextFault;
use crate::kept::Kept;
use crate::server_files::load_basis;
use crate::server_texts::{write_first_lines, write_last_lines};
use crate::status::Status;
use std::alloc::Global;
use std::sync::Wait;
use std::thread::Threads;
use vr_base::{Folder, Gate, Listener, Sink};
use vr_core::{Book, StartFault};
use vr_face::{AttendFault, Keys};
use vr_keeper::Keeper;
use vr_policy_check::CheckedPolicy;
use vr_session::attend_all;
use vr_words::{Command, Serving, Verbs, Word, parse};

/// What the words of a server's command line say.
#[derive(Clone, Copy)]
pub struct Asked<'a> {
    serving: Serving<'a>,
    policy: Word<'a>,
    keys: Word<'a>,
}

/// What the words ask of a server, or the place of the first word that is out of place.
fn parse_serve(words: &[String]) -> Result<Asked<'_>, u32>
    ensures accepted { (task : Task) → (result_map task_asked result ≡ Ok task)
        ↔ AskFor servers task (map string_bytes words.now) }
    ensures refused { (place : ℕ) →
        (result ≡ Err place) ↔ IsWrongAt servers (map string_bytes words.now) place }
    ensures workers { IfOk result (λ asked.
        (1 ≤ asked.serving.workers) × (asked.serving.workers ≤ 16)) }
{
    let servers = Verbs {
        hash: false,
        check: false,
        flows: false,
        replay: false,
        make: false,
        serve: true,
    };
    match parse(words, servers) {
        Ok(command) => match command {
            Command::Serve {
                serving,
                policy,
                keys,
            } => Ok(Asked {
                serving,
                policy,
                keys,
            }),
            _ => unreachable!(),
        },
        Err(place) => Err(place),
    }
}

/// The status of a book that was not started.
fn start_status(fault: StartFault) -> Status
    ensures { result ≡ status_for_start fault }
{
    match fault {
        StartFault::KeeperFailed => Status::KeeperFault,
        StartFault::BadRow(row) => Status::StoreRefused { row },
        StartFault::OutOfMemory => Status::WantOfMemory,
    }
}

/// How a server ends whose sessions came to this and whose last lines were written so.
fn status_after(attended: Result<(), AttendFault>, written: Result<(), TextFault>) -> Status
    ensures { result ≡ status_at_end attended written }
{
    let whole = match attended {
        Ok(()) => Status::Ok,
        Err(AttendFault::Failed) => Status::ListenFault,
        Err(AttendFault::OutOfMemory) => return Status::WantOfMemory,
    };
    match written {
        Ok(()) => whole,
        Err(fault) => Status::from(fault),
    }
}

/// Serves the connections over a book without calls, and then writes the last lines.
fn run<
    R: Wait + Threads + Sync,
    L: Listener + Send + Drop,
    K: Keeper + Send,
    O: Sink,
    G: Gate + Sync + Drop,
>(
    rt: &R,
    alloc: Global,
    serving: Serving<'_>,
    keys: &Keys,
    listener: L,
    book: Book<K>,
    gate: G,
    out: &mut O,
) -> (Status, L, Book<K>)
where
    L::Conn: Send,
    requires fresh { book.journal ≡ [] }
    requires workers { (1 ≤ serving.workers) × (serving.workers ≤ 16) }
    ensures book { ComesBack K.rows K.is_loaded K.faults serving.entry.workers book result.2 }
    ensures writes { WritesUpTo result.0 (O.written out.old) (O.written out.new)
        (last_lines (length result.2.journal) result.2.files) }
    ensures listens { L.listens result.1 ≡ L.listens listener }
    ensures listener { ServesListener K.faults keys.now (serving_of serving.entry) result.0
        (told (L.listens listener) (L.handed_out listener) (L.ended listener) (L.faults listener))
        (told (L.listens result.1) (L.handed_out result.1) (L.ended result.1) (L.faults result.1))
        (K.faults book.keeper) (Kept.Book result.2) }
    ensures text { IsCounted Status.WriteFault result.0 (O.faults out.old) (O.faults out.new) }
{
    let Serving {
        workers,
        sessions,
        ..
    } = serving;
    let (attended, listener, book) = attend_all(
        rt, alloc, book, gate, keys, listener, workers, sessions,
    );
    let written = write_last_lines(alloc, &book, out);
    (status_after(attended, written), listener, book)
}

/// Writes the first lines, serves the connections over a book without calls, and writes the last lines.
fn report<
    R: Wait + Threads + Sync,
    L: Listener + Send + Drop,
    K: Keeper + Send,
    O: Sink,
    G: Gate + Sync + Drop,
>(
    rt: &R,
    alloc: Global,
    serving: Serving<'_>,
    hash: &[u8; 64],
    keys: &Keys,
    listener: L,
    book: Book<K>,
    gate: G,
    out: &mut O,
) -> (Status, L, Book<K>)
where
    L::Conn: Send,
    requires fresh { book.journal ≡ [] }
    requires digits { book.origin.hash ≡ hash.now }
    requires workers { (1 ≤ serving.workers) × (serving.workers ≤ 16) }
    ensures book { ComesBack K.rows K.is_loaded K.faults serving.entry.workers book result.2 }
    ensures writes { WritesUpTo result.0 (O.written out.old) (O.written out.new)
        (server_text serving.entry.port result.2) }
    ensures first { ComesAfter (O.written out.old) (O.written out.new)
        (first_lines result.2.origin.hash serving.entry.port)
        (IsUnserved (L.handed_out listener) (L.ended listener)
        (L.handed_out result.1) (L.ended result.1)) }
    ensures listens { L.listens result.1 ≡ L.listens listener }
    ensures listener { ServesListener K.faults keys.now (serving_of serving.entry) result.0
        (told (L.listens listener) (L.handed_out listener) (L.ended listener) (L.faults listener))
        (told (L.listens result.1) (L.handed_out result.1) (L.ended result.1) (L.faults result.1))
        (K.faults book.keeper) (Kept.Book result.2) }
    ensures text { IsCounted Status.WriteFault result.0 (O.faults out.old) (O.faults out.new) }
{
    let _started = book.journal();
    match write_first_lines(alloc, hash, serving.port, out) {
        Ok(()) => run(rt, alloc, serving, keys, listener, book, gate, out),
        Err(fault) => (Status::from(fault), listener, book),
    }
}

/// Listens, starts the book and serves the connections over it.
fn open<
    R: Wait + Threads + Sync,
    L: Listener + Send + Drop,
    K: Keeper + Send,
    O: Sink,
    G: Gate + Sync + Drop,
>(
    rt: &R,
    alloc: Global,
    serving: Serving<'_>,
    policy: CheckedPolicy,
    hash: [u8; 64],
    keys: &Keys,
    listener: L,
    keeper: K,
    gate: G,
    out: &mut O,
) -> (Status, L, Kept<K>)
where
    L::Conn: Send,
    requires workers { (1 ≤ serving.workers) × (serving.workers ≤ 16) }
    ensures begun { IsPastReading result.0 }
    ensures unstarted { IfStore result.2 (EndsUnstarted K.rows K.listed K.is_loaded
        result.0 (L.listens result.1) (O.written out.old) (O.written out.new) keeper) }
    ensures crashes { IfStore result.2 (KeepsCrashes K.tells_crashes K.clock K.may_leave keeper) }
    ensures started { IfBook result.2 (EndsStarted K.rows K.listed K.is_loaded
        (serving_of serving.entry) result.0 (L.listens result.1)
        (O.written out.old) (O.written out.new) keeper) }
    ensures under { IfBook result.2 (λ book.
        (book.origin.policy ≡ policy) × (book.origin.hash ≡ hash)) }
    ensures unserved { IfStore result.2 (λ _. IsUnserved
        (L.handed_out listener) (L.ended listener) (L.handed_out result.1) (L.ended result.1)) }
    ensures first { IfBook result.2 (λ book. ComesAfter (O.written out.old) (O.written out.new)
        (first_lines book.origin.hash serving.entry.port)
        (IsUnserved (L.handed_out listener) (L.ended listener)
        (L.handed_out result.1) (L.ended result.1))) }
    ensures listener { ServesListener K.faults keys.now (serving_of serving.entry) result.0
        (told (L.listens listener) (L.handed_out listener) (L.ended listener) (L.faults listener))
        (told (L.listens result.1) (L.handed_out result.1) (L.ended result.1) (L.faults result.1))
        (K.faults keeper) result.2 }
    ensures text { IsCounted Status.WriteFault result.0 (O.faults out.old) (O.faults out.new) }
    ensures keeper { IsCounted Status.KeeperFault result.0
        (K.faults keeper) (K.faults (kept_keeper result.2)) }
{
    let mut listener = listener;
    if listener.listen(serving.port).is_err() {
        return (Status::ListenFault, listener, Kept::Store(keeper));
    }
    let store = serving.store.as_bytes();
    match Book::start(alloc, policy, hash, keeper, store, serving.fuel) {
        Ok(book) => {
            let (status, listener, book) = report(
                rt, alloc, serving, &hash, keys, listener, book, gate, out,
            );
            (status, listener, Kept::Book(book))
        }
        Err((fault, keeper)) => (start_status(fault), listener, Kept::Store(keeper)),
    }
}

/// Reads the two files, and serves what they say.
fn serve_asked<
    R: Wait + Threads + Sync,
    L: Listener + Send + Drop,
    K: Keeper + Send,
    F: Folder,
    O: Sink,
    G: Gate + Sync + Drop,
>(
    rt: &R,
    alloc: Global,
    asked: Asked<'_>,
    folder: &mut F,
    listener: L,
    keeper: K,
    gate: G,
    out: &mut O,
) -> (Status, L, Kept<K>)
where
    L::Conn: Send,
    requires workers { (1 ≤ asked.serving.workers) × (asked.serving.workers ≤ 16) }
    ensures same { F.files folder.new ≡ F.files folder.old }
    ensures asked { (place : ℕ) → result.0 ≢ Status.Usage place }
    ensures says { IfSome (F.files folder.old) (λ files. SaysOfBasis result.0
        (basis_over (placed asked.entry.policy) (placed asked.entry.keys) files)) }
    ensures word { IfAbsent result.0 (IsPlaceOf (IsFileOf (task_asked asked.entry))) }
    ensures causes { ServerCauses result.0
        (outside (F.counts folder.old) (O.faults out.old) (L.faults listener) (K.faults keeper))
        (outside (F.counts folder.new) (O.faults out.new) (L.faults result.1)
        (K.faults (kept_keeper result.2))) }
    ensures unheard { IsBeforeListening result.0
        → (result.1 ≡ listener) × (result.2 ≡ Kept.Store keeper) }
    ensures unstarted { IfStore result.2 (EndsUnstarted K.rows K.listed K.is_loaded
        result.0 (L.listens result.1) (O.written out.old) (O.written out.new) keeper) }
    ensures crashes { IfStore result.2 (KeepsCrashes K.tells_crashes K.clock K.may_leave keeper) }
    ensures started { IfBook result.2 (EndsStarted K.rows K.listed K.is_loaded
        (serving_of asked.entry.serving) result.0 (L.listens result.1)
        (O.written out.old) (O.written out.new) keeper) }
    ensures under { IfSome (F.files folder.old) (λ files. IfBook result.2 (IsUnder
        (basis_over (placed asked.entry.policy) (placed asked.entry.keys) files))) }
    ensures said { IfBook result.2 (λ book. IsSaid (book.origin.policy, book.origin.hash)) }
    ensures unserved { IfStore result.2 (λ _. IsUnserved
        (L.handed_out listener) (L.ended listener) (L.handed_out result.1) (L.ended result.1)) }
    ensures first { IfBook result.2 (λ book. ComesAfter (O.written out.old) (O.written out.new)
        (first_lines book.origin.hash asked.entry.serving.port)
        (IsUnserved (L.handed_out listener) (L.ended listener)
        (L.handed_out result.1) (L.ended result.1))) }
    ensures count { HandsOut result.0 asked.entry.serving.sessions
        (L.handed_out listener) (L.handed_out result.1) }
    ensures served { KeepsServed (L.ended listener) (L.ended result.1) (wants_memory result.0) }
    ensures alone { asked.entry.serving.workers ≡ 1 → IfSome (L.ended result.1) (λ list.
        IfBook result.2 (λ book. IsServedAlone (identity_ids book.origin.policy.policy)
        (F.files folder.old)
        (basis_over (placed asked.entry.policy) (placed asked.entry.keys))
        result.0 (L.ended listener) list (L.handed_out listener) (L.handed_out result.1)
        (K.faults keeper) (K.faults book.keeper) book.journal)) }
{
    match load_basis(alloc, folder, asked.policy, asked.keys) {
        Ok(basis) => {
            let (policy, hash, keys) = basis;
            open(
                rt,
                alloc,
                asked.serving,
                policy,
                hash,
                &keys,
                listener,
                keeper,
                gate,
                out,
            )
        }
        Err(status) => (status, listener, Kept::Store(keeper)),
    }
}

/// Serves what the words of a command line ask for: `serve POLICY KEYS`, where the options say how. The words are those
/// after the program's name; the two files are read from the folder by their names, and the store is the keeper's.
///
/// It listens at the port, starts a book over the store, writes the hash of the policy and the port, and serves the stated
/// number of connections. So many workers serve them, each in a thread of its own, one connection after the other; a single
/// worker serves in this thread. Then it writes how many calls were made, and a line for each file that is left. The
/// listener comes back, and the keeper, under its book where one was started.
///
/// The checks come in this order, and the first that fails is the status: the words, the policy's file, what it says, the
/// keys file, what it says, the port, the store. After that, want of memory in a session comes before a failed write, and
/// that before a connection that was not accepted. What the outside did is named by counts that rise, and that never fall.
/// A fault of a session ends that session alone. It may wait, for connections, for the book and for its threads.
pub fn serve<
    R: Wait + Threads + Sync,
    L: Listener + Send + Drop,
    K: Keeper + Send,
    F: Folder,
    O: Sink,
    G: Gate + Sync + Drop,
>(
    rt: &R,
    alloc: Global,
    words: &[String],
    folder: &mut F,
    listener: L,
    keeper: K,
    gate: G,
    out: &mut O,
) -> (Status, L, Kept<K>)
where
    L::Conn: Send,
    // The files of the folder stay.
    ensures same { F.files folder.new ≡ F.files folder.old }

    // The status is a faulty word's exactly where there is one, and over the files of the folder each refusal is the first
    // that they meet.
    ensures usage { (place : ℕ) → (result.0 ≡ Status.Usage place)
        ↔ IsWrongAt servers (map string_bytes words.now) place }
    ensures says { WhereAsked (map string_bytes words.now) (λ _ policy keys.
        IfSome (F.files folder.old) (λ files.
        SaysOfBasis result.0 (basis_over policy keys files))) }

    // A file that isn't there is one that a word names, and what the outside did; and without a refusal and a fault all
    // is done, but for want of memory.
    ensures word { IfAbsent result.0 (NamesFile servers (map string_bytes words.now)) }
    ensures causes { ServerCauses result.0
        (outside (F.counts folder.old) (O.faults out.old) (L.faults listener) (K.faults keeper))
        (outside (F.counts folder.new) (O.faults out.new) (L.faults result.1)
        (K.faults (kept_keeper result.2))) }
    ensures complete { WhereAsked (map string_bytes words.now) (λ _ policy keys.
        IfSome (F.files folder.old) (λ files. IsOk (basis_over policy keys files)
        → NothingFailed
        (outside (F.counts folder.old) (O.faults out.old) (L.faults listener) (K.faults keeper))
        (outside (F.counts folder.new) (O.faults out.new) (L.faults result.1)
        (K.faults (kept_keeper result.2)))
        → MayStillCome result.0)) }

    // A book was started or not, and what was written says so.
    ensures unheard { IsBeforeListening result.0
        → (result.1 ≡ listener) × (result.2 ≡ Kept.Store keeper) }
    ensures unstarted { IfStore result.2 (EndsUnstarted K.rows K.listed K.is_loaded
        result.0 (L.listens result.1) (O.written out.old) (O.written out.new) keeper) }
    ensures crashes { IfStore result.2 (KeepsCrashes K.tells_crashes K.clock K.may_leave keeper) }
    ensures started { WhereAsked (map string_bytes words.now) (λ serving _ _.
        IfBook result.2 (EndsStarted K.rows K.listed K.is_loaded serving
        result.0 (L.listens result.1) (O.written out.old) (O.written out.new) keeper)) }
    ensures under { WhereAsked (map string_bytes words.now) (λ _ policy keys.
        IfSome (F.files folder.old) (λ files.
        IfBook result.2 (IsUnder (basis_over policy keys files)))) }
    ensures said { IfBook result.2 (λ book. IsSaid (book.origin.policy, book.origin.hash)) }

    // The connections: none without a book, and none before the first lines; their number, how each was served, and, with
    // one worker, that the journal is of their calls alone.
    ensures unserved { IfStore result.2 (λ _. IsUnserved
        (L.handed_out listener) (L.ended listener) (L.handed_out result.1) (L.ended result.1)) }
    ensures first { WhereAsked (map string_bytes words.now) (λ serving _ _.
        IfBook result.2 (λ book. ComesAfter (O.written out.old) (O.written out.new)
        (first_lines book.origin.hash serving.port)
        (IsUnserved (L.handed_out listener) (L.ended listener)
        (L.handed_out result.1) (L.ended result.1)))) }
    ensures count { WhereAsked (map string_bytes words.now) (λ serving _ _.
        HandsOut result.0 serving.sessions (L.handed_out listener) (L.handed_out result.1)) }
    ensures served { KeepsServed (L.ended listener) (L.ended result.1) (wants_memory result.0) }
    ensures alone { WhereAsked (map string_bytes words.now) (λ serving policy keys.
        serving.workers ≡ 1 → IfSome (L.ended result.1) (λ list.
        IfBook result.2 (λ book. IsServedAlone (identity_ids book.origin.policy.policy)
        (F.files folder.old) (basis_over policy keys)
        result.0 (L.ended listener) list (L.handed_out listener) (L.handed_out result.1)
        (K.faults keeper) (K.faults book.keeper) book.journal))) }
{
    match parse_serve(words) {
        Ok(asked) => serve_asked(rt, alloc, asked, folder, listener, keeper, gate, out),
        Err(index) => (Status::Usage { index }, listener, Kept::Store(keeper)),
    }
}
