ghost use Rattle.std.specs.Prelude.{◌≡◌, IfOk, length, string_bytes};
ghost use Rattle.vr_base.specs.Causes.{HasCauseOf};
ghost use Rattle.vr_core.specs.History.{IsBook};
ghost use Rattle.vr_cli.specs.Gathering.{Writes};
ghost use Rattle.vr_cli.specs.Servings.{entries_line, first_lines, last_lines, listening_line};

use crate::gathering::{TextFault, finish, gather};
use crate::replaying::write_files;
use std::alloc::Global;
use vr_base::{NoMemory, Sink};
use vr_core::Book;
use vr_keeper::Keeper;
use vr_report::add_policy_line;

fn listening_line(alloc: Global, port: u16) -> Result<String, NoMemory>
    ensures { IfOk result (λ line. string_bytes line ≡ listening_line port) }
{
    Ok(format!(in alloc; "listening {port}\n")?)
}

fn entries_line(alloc: Global, count: usize) -> Result<String, NoMemory>
    ensures { IfOk result (λ line. string_bytes line ≡ entries_line count) }
{
    Ok(format!(in alloc; "entries {count}\n")?)
}

/// Writes what stands before the first connection: the hash of the policy, and the port.
pub fn write_first_lines<O: Sink>(
    alloc: Global,
    hash: &[u8; 64],
    port: u16,
    out: &mut O,
) -> Result<(), TextFault>
    ensures text { Writes result (O.written out.old) (O.written out.new)
        (first_lines hash.now port) }
    ensures cause { HasCauseOf TextFault.Failed (O.faults out.old) (O.faults out.new) result }
{
    let mut text = add_policy_line(gather(alloc)?, hash)?;
    let line = listening_line(alloc, port)?;
    text.push_slice(line.as_bytes())?;
    finish(text, out)
}

/// Writes what stands at the end: how many calls were made, and a line a file that is left.
pub fn write_last_lines<K: Keeper, O: Sink>(
    alloc: Global,
    book: &Book<K>,
    out: &mut O,
) -> Result<(), TextFault>
    ensures text { Writes result (O.written out.old) (O.written out.new)
        (last_lines (length book.now.journal) book.now.files) }
    ensures cause { HasCauseOf TextFault.Failed (O.faults out.old) (O.faults out.new) result }
    ensures book { IsBook K.rows K.is_loaded book.now }
{
    let line = entries_line(alloc, book.journal().len())?;
    let mut text = gather(alloc)?;
    text.push_slice(line.as_bytes())?;
    let text = write_files(book.files(), text, out)?;
    finish(text, out)
}
