ghost use Rattle.std.specs.Prelude.{◌≡◌, IfOk};
ghost use Rattle.std.specs.FinMap.{len};
ghost use Rattle.vr_cli.specs.Outputs.{origin_under};
ghost use Rattle.vr_cli.specs.Replays.{reached};
ghost use Rattle.vr_cli.specs.Summaries.{IsSummary, reply_counts, summary_of, total_size};
ghost use Rattle.vr_core.specs.History.{replies_of};

use crate::digest_sink::DigestSink;
use crate::gathering::TextFault;
use crate::replaying::replay_script;
use std::alloc::Global;
use vr_base::{Bytes, Entry, NoMemory};
use vr_core::Book;
use vr_files::Files;
use vr_generator::{Summary, summary_text};
use vr_keeper::Keeper;
use vr_policy_check::CheckedPolicy;
use vr_report::Script;

/// How many replies of a journal have each number from 0 to 13.
fn count_replies(journal: &[Entry]) -> [u64; 14]
    ensures { result ≡ reply_counts (replies_of journal.now) }
{
    let mut counts = [0; 14];
    for entry in journal {
        let number = usize::from(entry.reply.number());
        if number < counts.len() {
            counts[number] += 1;
        }
    }
    counts
}

/// The sum of the files' sizes.
fn sum_sizes(files: &Files) -> u128
    ensures { result ≡ total_size files.now.map }
{
    let mut sum = 0;
    for place in 0..files.len() {
        if let Some((_, body)) = files.entry(place) {
            sum += u128::from(body.len());
        }
    }
    sum
}

/// What is told of the calls of a book and of its files.
fn sum_up<K: Keeper>(made: u32, book: &Book<K>, hash: [u8; 64]) -> Summary
    ensures { result ≡ summary_of made (reached book.now) hash }
{
    let journal = book.journal();
    let files = book.files();
    Summary {
        made,
        calls: journal.len() as u64,
        replies: count_replies(journal),
        files: files.len() as u64,
        bytes: sum_sizes(files),
        hash,
    }
}

/// Replays the script from no files on, as `replay_script` does, and gives the summary of it, with the number that the
/// script was made for. The text of the replay is hashed piece by piece, and not kept.
pub fn summarize(
    alloc: Global,
    made: u32,
    policy: CheckedPolicy,
    hash: [u8; 64],
    fuel: u64,
    script: Script,
) -> Result<Bytes, NoMemory>
    ensures { IfOk result (IsSummary made (origin_under fuel policy hash) script) }
{
    let mut digest = DigestSink::new();
    match replay_script(alloc, policy, hash, fuel, script, &mut digest) {
        Ok(book) => {
            let summary = sum_up(made, &book, digest.digits());
            let _keeper = book.finish();
            summary_text(alloc, &summary)
        }
        Err(TextFault::OutOfMemory) => Err(NoMemory),
        Err(TextFault::Failed) => unreachable!(),
    }
}
