ghost use Rattle.std.specs.Io.KnownBytes.{Keeps};
ghost use Rattle.std.specs.Prelude.{◌≡◌, ℕ, ◌↔◌, ◌≤◌, Option, map, string_bytes, IfOk, IfSome};
ghost use Rattle.vr_base.specs.Checks.{result_map};
ghost use Rattle.vr_base.specs.Outside.{FolderCounts};
ghost use Rattle.vr_cli.specs.Commands.{commands, IsOurs};
ghost use Rattle.vr_cli.specs.Endings.{Ends, EndsTask, HasCauses, IsQuiet, around, status_of};
ghost use Rattle.vr_cli.specs.FileWords.{IfAbsent, NamesFile};
ghost use Rattle.vr_cli.specs.Outputs.{NamedFiles, counts_line, files_for, output_of};
ghost use Rattle.vr_cli.specs.declared.status.Status.{Status};
ghost use Rattle.vr_words.specs.Grammar.{Task, AskFor, IsWrongAt, hash, check, flows, replay, make};
ghost use Rattle.vr_words.specs.Views.{placed, task_of};

use crate::reading::{
    load_checked, load_hash, load_policy, load_script, parse_policy, parse_script,
};
use crate::replaying::write_replay;
use crate::status::Status;
use crate::summing::summarize;
use std::alloc::{AllocError, Global};
use vr_base::{Folder, Sink, write_all};
use vr_generator::generate;
use vr_policy_read::Policy;
use vr_report::flow_text;
use vr_words::{Command, Verbs, Word, parse};

/// How many steps all programs of a run of `make` may make together.
const USUAL_FUEL: u64 = 50_000_000;

/// Writes the hash of a policy and a line feed.
#[tactic(auto, using(crate::proofs::EndingLemmas::unchanged))]
fn hash<F: Folder, O: Sink>(
    alloc: Global,
    policy: Word<'_>,
    folder: &mut F,
    out: &mut O,
) -> Result<(), Status>
    ensures { EndsTask (hash (placed policy.entry)) (status_of result)
        (around (F.files folder.old) (F.counts folder.old) (O.written out.old) (O.faults out.old))
        (around (F.files folder.new) (F.counts folder.new) (O.written out.new) (O.faults out.new)) }
{
    let digits = load_hash(alloc, folder, policy)?;
    let mut line = [b'\n'; 65];
    line[..64].copy_from_slice(&digits);
    write_all(out, &line)?;
    Ok(())
}

/// Writes how many entries the lists of a policy have that meets every rule.
#[tactic(auto, using(crate::proofs::EndingLemmas::unchanged))]
fn check<F: Folder, O: Sink>(
    alloc: Global,
    policy: Word<'_>,
    folder: &mut F,
    out: &mut O,
) -> Result<(), Status>
    ensures { EndsTask (check (placed policy.entry)) (status_of result)
        (around (F.files folder.old) (F.counts folder.old) (O.written out.old) (O.faults out.old))
        (around (F.files folder.new) (F.counts folder.new) (O.written out.new) (O.faults out.new)) }
{
    let checked = load_checked(alloc, folder, policy)?;
    let line = counts_line(alloc, checked.policy())?;
    write_all(out, line.as_bytes())?;
    Ok(())
}

/// How many entries each list of a policy has: the identities, the programs, the pipelines and the hashes of files.
fn counts_line(alloc: Global, policy: &Policy) -> Result<String, AllocError>
    ensures { IfOk result (λ line. string_bytes line ≡ counts_line policy.now) }
{
    let identities = policy.identities.as_slice().len();
    let programs = policy.programs.as_slice().len();
    let pipelines = policy.pipelines.as_slice().len();
    let pins = policy.pins.as_slice().len();
    format!(in alloc; "ok {identities} {programs} {pipelines} {pins}\n")
}

/// Writes the flows of a policy that meets every rule. The text is made before any of it is written.
#[tactic(auto, using(crate::proofs::EndingLemmas::unchanged))]
fn flows<F: Folder, O: Sink>(
    alloc: Global,
    policy: Word<'_>,
    folder: &mut F,
    out: &mut O,
) -> Result<(), Status>
    ensures { EndsTask (flows (placed policy.entry)) (status_of result)
        (around (F.files folder.old) (F.counts folder.old) (O.written out.old) (O.faults out.old))
        (around (F.files folder.new) (F.counts folder.new) (O.written out.new) (O.faults out.new)) }
{
    let checked = load_checked(alloc, folder, policy)?;
    let text = flow_text(alloc, &checked)?;
    write_all(out, text.as_slice())?;
    Ok(())
}

/// Replays a script under a policy and writes the text of it.
#[tactic(auto, using(crate::proofs::EndingLemmas::unchanged))]
fn replay<F: Folder, O: Sink>(
    alloc: Global,
    fuel: u64,
    policy: Word<'_>,
    script: Word<'_>,
    folder: &mut F,
    out: &mut O,
) -> Result<(), Status>
    ensures { EndsTask (replay fuel (placed policy.entry) (placed script.entry)) (status_of result)
        (around (F.files folder.old) (F.counts folder.old) (O.written out.old) (O.faults out.old))
        (around (F.files folder.new) (F.counts folder.new) (O.written out.new) (O.faults out.new)) }
{
    let (policy, hash) = load_policy(alloc, folder, policy)?;
    let script = load_script(alloc, folder, script)?;
    write_replay(alloc, policy, hash, fuel, script, out)?;
    Ok(())
}

/// Replays what the generator makes for a number and writes the summary of it, which is made before any of it is written.
#[tactic(auto, using(crate::proofs::EndingLemmas::unchanged))]
fn make<O: Sink>(alloc: Global, count: u32, out: &mut O) -> Result<(), Status>
    requires within { count ≤ 1000 }
    ensures { (files : Option NamedFiles) (counts : FolderCounts) →
        EndsTask (make count) (status_of result)
        (around files counts (O.written out.old) (O.faults out.old))
        (around files counts (O.written out.new) (O.faults out.new)) }
{
    let (policy_bytes, script_bytes) = generate(alloc, count)?;
    let (policy, hash) = parse_policy(alloc, policy_bytes.as_slice())?;
    let script = parse_script(alloc, script_bytes.as_slice())?;
    let summary = summarize(alloc, count, policy, hash, USUAL_FUEL, script)?;
    write_all(out, summary.as_slice())?;
    Ok(())
}

/// Does what is asked for.
fn run<F: Folder, O: Sink>(
    alloc: Global,
    command: Command<'_>,
    folder: &mut F,
    out: &mut O,
) -> Result<(), Status>
    requires ours { IsOurs (task_of command) }
    ensures { EndsTask (task_of command.entry) (status_of result)
        (around (F.files folder.old) (F.counts folder.old) (O.written out.old) (O.faults out.old))
        (around (F.files folder.new) (F.counts folder.new) (O.written out.new) (O.faults out.new)) }
{
    match command {
        Command::Hash { policy } => hash(alloc, policy, folder, out),
        Command::Check { policy } => check(alloc, policy, folder, out),
        Command::Flows { policy } => flows(alloc, policy, folder, out),
        Command::Replay {
            fuel,
            policy,
            script,
        } => replay(alloc, fuel, policy, script, folder, out),
        Command::Make { count } => make(alloc, count, out),
        Command::Serve { .. } => unreachable!(),
    }
}

/// What the words ask of the commands that are done here, or the place of the first word that is out of place.
fn parse_ours(words: &[String]) -> Result<Command<'_>, u32>
    ensures accepted { (task : Task) →
        (result_map task_of result ≡ Ok task) ↔ AskFor commands task (map string_bytes words.now) }
    ensures refused { (place : ℕ) →
        (result ≡ Err place) ↔ IsWrongAt commands (map string_bytes words.now) place }
    ensures ours { IfOk (result_map task_of result) IsOurs }
{
    let commands = Verbs {
        hash: true,
        check: true,
        flows: true,
        replay: true,
        make: true,
        serve: false,
    };
    parse(words, commands)
}

/// Does what the words of a command line ask for. The words are those after the program's name; files are read from the
/// folder by their names.
///
/// - `hash POLICY` writes the SHA-256 of the policy's file.
/// - `check POLICY` writes `ok` and how many identities, programs, pipelines and hashes of files a policy has that meets
///   every rule.
/// - `flows POLICY` writes a line for each identity of the policy, with the identities whose calls can lead to what it
///   learns and the regions over which they do.
/// - `replay POLICY SCRIPT` makes the calls of a script in order, from no files on, and writes a line for each and one for
///   each file that is left. `--fuel N` says how many steps all programs of a run may make together.
/// - `make N` replays a policy and a script that are made by a rule from the number, and writes a summary of it: the calls,
///   how many replies had each number, the files that are left, and the SHA-256 of the text of the replay. Two builds of the
///   program that write the same are taken to be the same.
///
/// The checks come in this order, and the first that fails is the status: the words, the policy's file, what it says, the
/// script's file, what it says. What the outside did is named by counts that rise, and that never fall.
pub fn command<F: Folder, O: Sink>(
    alloc: Global,
    words: &[String],
    folder: &mut F,
    out: &mut O,
) -> Status
    // The files of the folder stay.
    ensures same { F.files folder.new ≡ F.files folder.old }

    // The status is a faulty word's exactly where there is one, and where the words ask for a task, the status says of
    // the output of this task how much of it was written, or why there is none: over the files of the folder, where it
    // tells them, and for `make` whether it does or not.
    ensures usage { (place : ℕ) →
        (result ≡ Status.Usage place) ↔ IsWrongAt commands (map string_bytes words.now) place }
    ensures ends { (task : Task) → AskFor commands task (map string_bytes words.now) →
        IfSome (files_for task (F.files folder.old)) (λ files.
        Ends (output_of task files) result (O.written out.old) (O.written out.new)) }

    // A file that isn't there is one that a word names, and what the outside did.
    ensures word { IfAbsent result (NamesFile commands (map string_bytes words.now)) }
    ensures causes { HasCauses result (F.counts folder.old) (F.counts folder.new)
        (O.faults out.old) (O.faults out.new) }

    // A refusal and a fault of reading leave the sink as it was, whether the folder tells its files or not.
    ensures quiet { IsQuiet result → Keeps (O.written out.old) (O.written out.new) }
{
    match parse_ours(words) {
        Err(index) => Status::Usage { index },
        Ok(command) => match run(alloc, command, folder, out) {
            Ok(()) => Status::Ok,
            Err(status) => status,
        },
    }
}
