//! What all cases print.

use crate::servers::Served;
use anyhow::Result;

/// Prints bytes as a text in quotes, or that they are none.
pub fn print_text(rt: &impl Print, bytes: &[u8]) -> Result<()> {
    match str::from_utf8(bytes) {
        Ok(text) => println!(rt; "  {text:?}")?,
        Err(_) => println!(rt; "  no text")?,
    }
    Ok(())
}

/// Prints the exit status, whether the calls were there in time, and how many connections came back.
pub fn print_end(rt: &impl Print, served: &Served) -> Result<()> {
    let met = if served.meeting.is_missed() {
        "in vain"
    } else {
        "in time"
    };
    let back = served.listener.ended().len();
    println!(rt;
        "  status {}, {met}, {back} connections",
        served.status.code()
    )?;
    Ok(())
}
