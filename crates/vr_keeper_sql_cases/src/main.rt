//! Loads store files and prints their rows, in memory and in files; makes changes and loads what it changed.
//! `tests/store.py` makes the files, and reads those that the program wrote.
#![tactic(auto)]

use std::alloc::Global;
use std::io;
use vr_base::{Path, parse_path};
use vr_files::{Changes, Files, Overlay};
use vr_keeper::{Keeper, Rows};
use vr_keeper_sql::SqlKeeper;

/// The store files that are refused, each for a reason of its own.
const REFUSED: [&str; 11] = [
    "foreign.db",
    "other_columns.db",
    "third.db",
    "two_versions.db",
    "missing_size.db",
    "wrong_size.db",
    "no_text.db",
    "cut.db",
    "damaged.db",
    "no_database.db",
    "nowhere/made.db",
];

fn print_rows(rt: &impl Print, store: &str, rows: &Rows) -> io::Result<()> {
    println!(rt; "'{store}' has {} rows", rows.as_slice().len())?;
    for (path, body) in rows.as_slice() {
        let path = std::str::from_utf8(path.as_slice()).unwrap_or("no text");
        println!(rt; "  '{path}' {} bytes", body.as_slice().len())?;
    }
    Ok(())
}

/// Loads a store, and makes the changes where it is ready for them.
fn change(
    rt: &(impl Print + AllocGlobal),
    keeper: &mut SqlKeeper,
    store: &str,
    changes: &Changes,
) -> io::Result<()> {
    match keeper.load(rt.alloc(), store.as_bytes()) {
        Ok(rows) => {
            print_rows(rt, store, &rows)?;
            if rows.have_names() {
                let made = keeper.apply(rt.alloc(), changes);
                println!(rt; "'{store}' changed: {made:?}")?;
            }
            Ok(())
        }
        Err(fault) => println!(rt; "'{store}' {fault:?}"),
    }
}

/// Loads a store and prints what it has.
fn show(rt: &(impl Print + AllocGlobal), keeper: &mut SqlKeeper, store: &[u8]) -> io::Result<()> {
    let name = std::str::from_utf8(store).unwrap_or("no text");
    match keeper.load(rt.alloc(), store) {
        Ok(rows) => print_rows(rt, name, &rows),
        Err(fault) => println!(rt; "'{name}' {fault:?}"),
    }
}

fn path(alloc: Global, name: &[u8]) -> Option<Path> {
    parse_path(alloc, name).ok()
}

/// The changes that make a file of these bytes and one without bytes, where neither is there.
fn first_changes(alloc: Global) -> Option<Changes> {
    let mut files = Overlay::new(alloc, Files::new(alloc));
    files.put(&path(alloc, b"/b/c")?, b"abc").ok()?;
    files.put(&path(alloc, b"/a")?, b"").ok()?;
    files.put(&path(alloc, b"/old")?, b"old").ok()?;
    files.changes().ok()
}

/// The changes that replace one file and remove another, where both are there.
fn second_changes(alloc: Global) -> Option<Changes> {
    let mut base = Files::new(alloc);
    base.put(&path(alloc, b"/b/c")?, b"abc").ok()?;
    base.put(&path(alloc, b"/old")?, b"old").ok()?;
    let mut files = Overlay::new(alloc, base);
    files.put(&path(alloc, b"/b/c")?, b"xyz").ok()?;
    files.remove(&path(alloc, b"/old")?).ok()?;
    files.changes().ok()
}

/// Makes changes in a store of this name twice, and loads what they made.
fn change_twice(
    rt: &(impl Print + AllocGlobal),
    keeper: &mut SqlKeeper,
    store: &str,
) -> io::Result<()> {
    let (Some(first), Some(second)) = (first_changes(rt.alloc()), second_changes(rt.alloc())) else {
        return println!(rt; "out of memory");
    };
    change(rt, keeper, store, &first)?;
    change(rt, keeper, store, &second)?;
    show(rt, keeper, store.as_bytes())
}

fn main(rt: HostRuntime) -> io::Result<()> {
    change_twice(&rt, &mut SqlKeeper::new(rt), "")?;
    change_twice(&rt, &mut SqlKeeper::new(rt), "made.db")?;
    show(&rt, &mut SqlKeeper::new(rt), b"made.db")?;
    for name in ["first.db", "first.db", "second.db", "no_name.db"] {
        show(&rt, &mut SqlKeeper::new(rt), name.as_bytes())?;
    }
    let mut keeper = SqlKeeper::new(rt);
    for name in REFUSED {
        show(&rt, &mut keeper, name.as_bytes())?;
    }
    show(&rt, &mut keeper, b"\xff.db")?;
    show(&rt, &mut keeper, b"first.db")
}
