ghost use Rattle.std.specs.Prelude.{◌≡◌, ◌∷◌, [], IfOk, Some};
ghost use Rattle.vr_base.specs.Causes.{HasCauseOf};
ghost use Rattle.vr_cli.specs.Gathering.{HandsIn, HandsInLines, WritesOne};
ghost use Rattle.vr_cli.specs.Outputs.{origin_under};
ghost use Rattle.vr_cli.specs.Replays.{AreCallLines, AreFirstLines, IsReplaySoFar, IsReplayText, TellsReplay, reached};
ghost use Rattle.vr_core.specs.Machine.{no_calls};
ghost use Rattle.vr_files.specs.FileMaps.{no_files};
ghost use Rattle.vr_report.specs.Texts.{files_text};

use crate::gathering::{TextFault, finish, gather, pass_on};
use std::alloc::Global;
use vr_base::{Bytes, NoMemory, Reply, Sink};
use vr_core::{Book, StartFault};
use vr_files::Files;
use vr_keeper::{Keeper, NeverFails, Rows};
use vr_policy_check::CheckedPolicy;
use vr_report::{Line, Script, add_call_line, add_file_line, add_policy_line};

/// The one seat from which a script's calls come.
const SEAT: u32 = 0;

/// Makes a call of the script and adds its line to the text. The answer is what is left to be written.
fn write_call<K: Keeper, O: Sink>(
    book: &mut Book<K>,
    line: Line,
    text: Bytes,
    out: &mut O,
) -> Result<Bytes, TextFault>
    requires never { (k : K) → K.faults k ≡ 0 }
    ensures lines { HandsInLines result (O.written out.old) (O.written out.new) text
        (AreCallLines book.old.origin (reached book.old) (line ∷ []) (reached book.new))
        (AreFirstLines book.old.origin (reached book.old) (line ∷ [])) }
    ensures origin { book.new.origin ≡ book.old.origin }
    ensures cause { HasCauseOf TextFault.Failed (O.faults out.old) (O.faults out.new) result }
{
    let Line {
        line: number,
        who,
        call,
    } = line;
    let reply = book.step(SEAT, who, call);
    if let Reply::OutOfMemory = reply {
        return Err(TextFault::OutOfMemory);
    }
    pass_on(add_call_line(text, number, who, &reply)?, out)
}

/// Makes the calls of the script in order, and adds a line for each.
#[tactic(auto, using(crate::proofs::ReplayLemmas::called_none))]
fn write_calls<K: Keeper, O: Sink>(
    book: &mut Book<K>,
    script: Script,
    text: Bytes,
    out: &mut O,
) -> Result<Bytes, TextFault>
    requires never { (k : K) → K.faults k ≡ 0 }
    ensures lines { HandsInLines result (O.written out.old) (O.written out.new) text
        (AreCallLines book.old.origin (reached book.old) script (reached book.new))
        (AreFirstLines book.old.origin (reached book.old) script) }
    ensures origin { book.new.origin ≡ book.old.origin }
    ensures cause { HasCauseOf TextFault.Failed (O.faults out.old) (O.faults out.new) result }
{
    let mut left = text;
    for line in script.into_vec() {
        left = write_call(book, line, left, out)?;
    }
    Ok(left)
}

/// Adds a line for each file, in the order of their paths.
#[tactic(auto, using(crate::proofs::GatheringLemmas::reaches_none, crate::proofs::GatheringLemmas::reaches_all))]
pub fn write_files<O: Sink>(files: &Files, text: Bytes, out: &mut O) -> Result<Bytes, TextFault>
    ensures text { HandsIn result (O.written out.old) (O.written out.new) text
        (files_text files.now.map) }
    ensures cause { HasCauseOf TextFault.Failed (O.faults out.old) (O.faults out.new) result }
{
    let mut left = text;
    for place in 0..files.len() {
        if let Some((path, body)) = files.entry(place) {
            left = pass_on(add_file_line(left, path, body)?, out)?;
        }
    }
    Ok(left)
}

/// A book without calls and files, over a keeper that has no rows and never fails. All programs of a run may make as many
/// steps together as there is fuel.
fn start_over<K: Keeper + Drop>(
    alloc: Global,
    policy: CheckedPolicy,
    hash: [u8; 64],
    fuel: u64,
    keeper: K,
) -> Result<Book<K>, NoMemory>
    requires empty { K.rows keeper ≡ Some no_files }
    requires never { (k : K) → K.faults k ≡ 0 }
    ensures origin { IfOk result (λ book. book.origin ≡ origin_under fuel policy hash) }
    ensures fresh { IfOk result (λ book. reached book ≡ no_calls no_files) }
{
    match Book::start(alloc, policy, hash, keeper, b"", fuel) {
        Ok(book) => Ok(book),
        Err((fault, _)) => match fault {
            StartFault::OutOfMemory => Err(NoMemory),
            _ => unreachable!(),
        },
    }
}

/// Makes the calls of the script by a book without calls, whose keeper never fails, and writes the text of the replay.
fn write_text<K: Keeper, O: Sink>(
    alloc: Global,
    book: &mut Book<K>,
    hash: &[u8; 64],
    script: Script,
    out: &mut O,
) -> Result<(), TextFault>
    requires never { (k : K) → K.faults k ≡ 0 }
    requires fresh { reached book.old ≡ no_calls book.old.origin.opening }
    requires digits { book.old.origin.hash ≡ hash.now }
    ensures text { WritesOne result (O.written out.old) (O.written out.new)
        (λ _. TellsReplay book.old.origin script (reached book.new))
        (IsReplaySoFar book.old.origin script) }
    ensures cause { HasCauseOf TextFault.Failed (O.faults out.old) (O.faults out.new) result }
{
    let text = add_policy_line(gather(alloc)?, hash)?;
    let text = write_calls(book, script, text, out)?;
    let text = write_files(book.files(), text, out)?;
    finish(text, out)
}

/// Replays the script from no files on, under a policy with this hash, and writes its text. All programs of a run may make
/// as many steps together as there is fuel. The answer is the book with the calls, their replies and the files that are left.
pub fn replay_script<O: Sink>(
    alloc: Global,
    policy: CheckedPolicy,
    hash: [u8; 64],
    fuel: u64,
    script: Script,
    out: &mut O,
) -> Result<Book<NeverFails>, TextFault>
    ensures text { WritesOne result (O.written out.old) (O.written out.new)
        (λ book. TellsReplay (origin_under fuel policy hash) script (reached book))
        (IsReplaySoFar (origin_under fuel policy hash) script) }
    ensures cause { HasCauseOf TextFault.Failed (O.faults out.old) (O.faults out.new) result }
{
    let keeper = NeverFails::new(alloc, Rows::of(Vec::new(alloc)));
    let mut book = start_over(alloc, policy, hash, fuel, keeper)?;
    write_text(alloc, &mut book, &hash, script, out)?;
    Ok(book)
}

/// Replays the script as `replay_script` does, and keeps nothing of it but the text.
pub fn write_replay<O: Sink>(
    alloc: Global,
    policy: CheckedPolicy,
    hash: [u8; 64],
    fuel: u64,
    script: Script,
    out: &mut O,
) -> Result<(), TextFault>
    ensures text { WritesOne result (O.written out.old) (O.written out.new)
        (λ _. IsReplayText (origin_under fuel policy hash) script)
        (IsReplaySoFar (origin_under fuel policy hash) script) }
    ensures cause { HasCauseOf TextFault.Failed (O.faults out.old) (O.faults out.new) result }
{
    let _book = replay_script(alloc, policy, hash, fuel, script, out)?;
    Ok(())
}
