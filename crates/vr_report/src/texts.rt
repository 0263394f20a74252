ghost use Rattle.std.specs.Prelude.{◌≡◌, ◌++◌, IfOk};
ghost use Rattle.vr_report.specs.Texts.{reply_text, call_line, policy_line, file_line, files_text};

use std::alloc::Global;
use vr_base::{Bytes, NoMemory, Path, Reply};
use vr_digests::file_digits;
use vr_files::{FileBody, Files};
use vr_text::{Writer, write_refusal};

/// Adds how a pipeline ended.
#[tactic(auto, using(std::proofs::Common::append_assoc))]
fn write_ended(text: Writer, code: u32, out: &Bytes) -> Result<Writer, NoMemory>
    ensures { IfOk result (λ written. written ≡ text ++ reply_text (Reply.Ended code out.now)) }
{
    text.bytes(b"done code")?
        .number(code)?
        .bytes(b" out")?
        .sized_bytes(out)
}

/// Adds what a reply says.
#[tactic(auto, using(std::proofs::Common::append_assoc))]
fn write_reply(text: Writer, reply: &Reply) -> Result<Writer, NoMemory>
    ensures { IfOk result (λ written. written ≡ text ++ reply_text reply.now) }
{
    match reply {
        Reply::Stored => text.bytes(b"done"),
        Reply::Read { body } => text.bytes(b"done bytes")?.sized_bytes(body),
        Reply::Ended { code, out } => write_ended(text, *code, out),
        Reply::PolicyHash { digits } => text.bytes(b"done hash")?.word(digits),
        refused => write_refusal(text, refused),
    }
}

/// What a reply says, without a line's end.
pub fn reply_text(alloc: Global, reply: &Reply) -> Result<Bytes, NoMemory>
    ensures { IfOk result (λ text. text ≡ reply_text reply.now) }
{
    Ok(write_reply(Writer::new(alloc), reply)?.finish())
}

/// The text with the line of a call, which stood in this line of the script: the identity that called and what it was
/// answered. Without memory for it the text is dropped.
#[tactic(auto, using(std::proofs::Common::append_assoc))]
pub fn add_call_line(text: Bytes, line: u32, who: u32, reply: &Reply) -> Result<Bytes, NoMemory>
    ensures { IfOk result (λ added. added ≡ text ++ call_line line who reply.now) }
{
    let asked = Writer::on(text).digits(line)?.number(who)?.bytes(b" ")?;
    Ok(write_reply(asked, reply)?.bytes(b"\n")?.finish())
}

/// The text with the first line of a replay: the hash of the policy file, in 64 hex digits. Without memory for it the text
/// is dropped.
#[tactic(auto, using(std::proofs::Common::append_assoc))]
pub fn add_policy_line(text: Bytes, hash: &[u8; 64]) -> Result<Bytes, NoMemory>
    ensures { IfOk result (λ added. added ≡ text ++ policy_line hash.now) }
{
    Ok(
        Writer::on(text)
            .bytes(b"policy")?
            .word(hash)?
            .bytes(b"\n")?
            .finish(),
    )
}

/// Adds the line of a file: its path, its size in bytes and its SHA-256.
#[tactic(auto, using(std::proofs::Common::append_assoc))]
fn write_file(text: Writer, path: &Path, body: &FileBody) -> Result<Writer, NoMemory>
    ensures { IfOk result (λ written. written ≡ text ++ file_line (path.now, body.now)) }
{
    let sized = text.about(b"file", path)?.number(body.len())?;
    sized.word(&file_digits(body))?.bytes(b"\n")
}

/// The text with the line of a file: its path, its size in bytes and its SHA-256. Without memory for it the text is
/// dropped.
pub fn add_file_line(text: Bytes, path: &Path, body: &FileBody) -> Result<Bytes, NoMemory>
    ensures { IfOk result (λ added. added ≡ text ++ file_line (path.now, body.now)) }
{
    Ok(write_file(Writer::on(text), path, body)?.finish())
}

/// A line a file, in the byte order of their paths.
pub fn file_text(alloc: Global, files: &Files) -> Result<Bytes, NoMemory>
    ensures { IfOk result (λ text. text ≡ files_text files.now.map) }
{
    let mut text = Writer::new(alloc);
    for place in 0..files.len() {
        if let Some((path, body)) = files.entry(place) {
            text = write_file(text, path, body)?;
        }
    }
    Ok(text.finish())
}
