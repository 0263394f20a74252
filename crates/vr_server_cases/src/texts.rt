//! Cases of texts: the text of the server and what was written on each connection are the same whoever comes first. The
//! text is printed, and for each input what was written on its connection, if it came back.

use crate::links::{find_link, read_bytes};
use crate::servers::Served;
use crate::shown::{print_end, print_text};
use anyhow::Result;

fn print_link(rt: &(impl Print + AllocGlobal), served: &Served, input: &str) -> Result<()> {
    let input = read_bytes(rt.alloc(), input)?;
    match find_link(rt.alloc(), served.listener.ended(), &input)? {
        Some(link) => print_text(rt, link.written()),
        None => Ok(println!(rt; "  not back")?),
    }
}

pub fn print_texts(rt: &(impl Print + AllocGlobal), inputs: &str, served: &Served) -> Result<()> {
    print_end(rt, served)?;
    print_text(rt, served.text.written())?;
    for input in inputs.split(' ') {
        print_link(rt, served, input)?;
    }
    Ok(())
}
