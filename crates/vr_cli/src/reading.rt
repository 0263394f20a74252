ghost use Rattle.std.specs.Prelude.{◌≡◌, take, IfErr, IfOk};
ghost use Rattle.vr_base.specs.Checks.{result_map, result_map_err};
ghost use Rattle.vr_base.specs.Outside.{file_of};
ghost use Rattle.vr_cli.specs.Endings.{Gives, GivesOver, HasReadCause, IsRefusal};
ghost use Rattle.vr_cli.specs.FileWords.{BlamesOnly};
ghost use Rattle.vr_cli.specs.ServerFiles.{IsOfPolicy, IsSaid};
ghost use Rattle.vr_cli.specs.Outputs.{bytes_named, in_file, checked_from, policy_from, rule_refusal, script_in, digits_from};
ghost use Rattle.vr_policy_check.specs.Rules.{check_of};
ghost use Rattle.vr_policy_read.specs.Limits.{most_policy};
ghost use Rattle.vr_report.specs.Script.{most_script};
ghost use Rattle.vr_words.specs.Views.{placed};

use crate::status::Status;
use std::alloc::Global;
use vr_base::{Bytes, Folder, FolderFault};
use vr_policy_check::{CheckFault, CheckKind, CheckedPolicy, check};
use vr_policy_read::{MOST_POLICY, Policy, ReadFault, ReadKind, policy_hash, read_policy};
use vr_report::{MOST_SCRIPT, Script, ScriptFault, read_script};
use vr_words::Word;

/// The first `most` bytes of the file that a word names.
#[tactic(auto, using(crate::proofs::FileLemmas::told_bytes, crate::proofs::FileLemmas::told_absent, crate::proofs::FileLemmas::told_freely))]
pub fn read_file<F: Folder>(
    alloc: Global,
    folder: &mut F,
    word: Word<'_>,
    most: usize,
) -> Result<Bytes, Status>
    ensures same { F.files folder.new ≡ F.files folder.old }
    ensures told { GivesOver (F.files folder.old) result (λ files.
        result_map (take most) (bytes_named (placed word.entry) files)) }
    ensures cause { HasReadCause (F.counts folder.old) (F.counts folder.new) result }
    ensures word { IfErr result (BlamesOnly (placed word.entry)) }
    ensures policy { IfErr result IsOfPolicy }
{
    match folder.read(alloc, word.text, most) {
        Ok(bytes) => Ok(bytes),
        Err(FolderFault::Absent) => Err(Status::Absent { word: word.place }),
        Err(FolderFault::Failed) => Err(Status::ReadFault),
        Err(FolderFault::OutOfMemory) => Err(Status::WantOfMemory),
    }
}

/// The policy that the bytes say, checked.
fn parse_checked(alloc: Global, bytes: &[u8]) -> Result<CheckedPolicy, Status>
    ensures answer { Gives result (checked_from most_policy bytes.now) }
    ensures refusal { IfErr result IsRefusal }
    ensures policy { IfErr result IsOfPolicy }
{
    match read_policy(alloc, bytes) {
        Ok(policy) => check_policy(alloc, policy),
        Err(
            ReadFault {
                kind: ReadKind::OutOfMemory,
                ..
            },
        ) => Err(Status::WantOfMemory),
        Err(fault) => Err(Status::PolicyRefused {
            stage: 1,
            rule: fault.kind.number(),
            index: fault.at,
        }),
    }
}

/// The policy, where it meets every rule.
fn check_policy(alloc: Global, policy: Policy) -> Result<CheckedPolicy, Status>
    ensures answer { Gives result (result_map_err rule_refusal (check_of policy)) }
    ensures refusal { IfErr result IsRefusal }
    ensures policy { IfErr result IsOfPolicy }
{
    match check(alloc, policy) {
        Ok(checked) => Ok(checked),
        Err(
            CheckFault {
                kind: CheckKind::OutOfMemory,
                ..
            },
        ) => Err(Status::WantOfMemory),
        Err(fault) => Err(Status::PolicyRefused {
            stage: 2,
            rule: fault.kind.number(),
            index: fault.at,
        }),
    }
}

/// The policy that the bytes say, checked, and their hash.
pub fn parse_policy(alloc: Global, bytes: &[u8]) -> Result<(CheckedPolicy, [u8; 64]), Status>
    ensures answer { Gives result (policy_from most_policy bytes.now) }
    ensures refusal { IfErr result IsRefusal }
    ensures policy { IfErr result IsOfPolicy }
{
    let checked = parse_checked(alloc, bytes)?;
    Ok((checked, policy_hash(bytes)))
}

/// The calls of the script that the bytes are.
pub fn parse_script(alloc: Global, bytes: &[u8]) -> Result<Script, Status>
    ensures answer { Gives result (script_in most_script bytes.now) }
    ensures refusal { IfErr result IsRefusal }
{
    match read_script(alloc, bytes) {
        Ok(script) => Ok(script),
        Err(ScriptFault::Line(line)) => Err(Status::ScriptRefused { line }),
        Err(ScriptFault::OutOfMemory) => Err(Status::WantOfMemory),
    }
}

/// The hash of a policy file with these bytes.
fn hash_policy(bytes: &[u8]) -> Result<[u8; 64], Status>
    ensures answer { Gives result (digits_from most_policy bytes.now) }
    ensures refusal { IfErr result IsRefusal }
{
    if bytes.len() > MOST_POLICY {
        return Err(Status::PolicyRefused {
            stage: 1,
            rule: ReadKind::TooLong.number(),
            index: 0,
        });
    }
    Ok(policy_hash(bytes))
}

/// The policy in the file that a word names, checked, and the hash of the file.
#[tactic(auto, using(crate::proofs::FileLemmas::refusal_is_counted, crate::proofs::FileLemmas::refusal_blames_none))]
pub fn load_policy<F: Folder>(
    alloc: Global,
    folder: &mut F,
    word: Word<'_>,
) -> Result<(CheckedPolicy, [u8; 64]), Status>
    ensures same { F.files folder.new ≡ F.files folder.old }
    ensures told { GivesOver (F.files folder.old) result
        (in_file (policy_from most_policy) (placed word.entry)) }
    ensures cause { HasReadCause (F.counts folder.old) (F.counts folder.new) result }
    ensures word { IfErr result (BlamesOnly (placed word.entry)) }
    ensures policy { IfErr result IsOfPolicy }
    ensures said { IfOk result IsSaid }
{
    let bytes = read_file(alloc, folder, word, MOST_POLICY + 1)?;
    parse_policy(alloc, bytes.as_slice())
}

/// The policy in the file that a word names, checked.
#[tactic(auto, using(crate::proofs::FileLemmas::refusal_is_counted, crate::proofs::FileLemmas::refusal_blames_none))]
pub fn load_checked<F: Folder>(
    alloc: Global,
    folder: &mut F,
    word: Word<'_>,
) -> Result<CheckedPolicy, Status>
    ensures same { F.files folder.new ≡ F.files folder.old }
    ensures told { GivesOver (F.files folder.old) result
        (in_file (checked_from most_policy) (placed word.entry)) }
    ensures cause { HasReadCause (F.counts folder.old) (F.counts folder.new) result }
    ensures word { IfErr result (BlamesOnly (placed word.entry)) }
{
    let bytes = read_file(alloc, folder, word, MOST_POLICY + 1)?;
    parse_checked(alloc, bytes.as_slice())
}

/// The script in the file that a word names.
#[tactic(auto, using(crate::proofs::FileLemmas::refusal_is_counted, crate::proofs::FileLemmas::refusal_blames_none))]
pub fn load_script<F: Folder>(
    alloc: Global,
    folder: &mut F,
    word: Word<'_>,
) -> Result<Script, Status>
    ensures same { F.files folder.new ≡ F.files folder.old }
    ensures told { GivesOver (F.files folder.old) result
        (in_file (script_in most_script) (placed word.entry)) }
    ensures cause { HasReadCause (F.counts folder.old) (F.counts folder.new) result }
    ensures word { IfErr result (BlamesOnly (placed word.entry)) }
{
    let bytes = read_file(alloc, folder, word, MOST_SCRIPT + 1)?;
    parse_script(alloc, bytes.as_slice())
}

/// The hash of the policy file that a word names.
#[tactic(auto, using(crate::proofs::FileLemmas::refusal_is_counted, crate::proofs::FileLemmas::refusal_blames_none))]
pub fn load_hash<F: Folder>(
    alloc: Global,
    folder: &mut F,
    word: Word<'_>,
) -> Result<[u8; 64], Status>
    ensures same { F.files folder.new ≡ F.files folder.old }
    ensures told { GivesOver (F.files folder.old) result
        (in_file (digits_from most_policy) (placed word.entry)) }
    ensures cause { HasReadCause (F.counts folder.old) (F.counts folder.new) result }
    ensures word { IfErr result (BlamesOnly (placed word.entry)) }
{
    let bytes = read_file(alloc, folder, word, MOST_POLICY + 1)?;
    hash_policy(bytes.as_slice())
}
