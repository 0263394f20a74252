use crate::faults::StoreFault;
use sqlite::{Alter, Connection, Transaction, params};
use std::alloc::Global;
use vr_base::{Bytes, Path};
use vr_files::{Changes, FileBody};
use vr_keeper::Rows;

/// The version of the tables.
const VERSION: i64 = 2;

/// How many tables, views and triggers the database has that no store has.
const COUNT_FOREIGN: &str = "SELECT count(*) FROM sqlite_schema \
    WHERE type <> 'index' AND substr(name, 1, 7) <> 'sqlite_' \
    AND name NOT IN ('files', 'sizes', 'version')";

/// Makes the tables that are missing.
const MAKE_TABLES: &str = "\
    CREATE TABLE IF NOT EXISTS files(path TEXT PRIMARY KEY NOT NULL, body BLOB NOT NULL) STRICT; \
    CREATE TABLE IF NOT EXISTS sizes(path TEXT PRIMARY KEY NOT NULL \
    REFERENCES files(path) ON DELETE CASCADE, size INTEGER NOT NULL) STRICT; \
    CREATE TABLE IF NOT EXISTS version(n INTEGER PRIMARY KEY NOT NULL) STRICT";

const VERSIONS: &str = "SELECT n FROM version";

/// Gives each file of a store without a version its size, and the store its version.
const TAKE_OVER: &str = "\
    INSERT INTO sizes(path, size) SELECT path, length(body) FROM files; \
    INSERT INTO version(n) VALUES(2)";

const FILES: &str = "SELECT path, body FROM files ORDER BY path";

/// How many files have no size, or one that isn't that of their body.
const COUNT_MISSIZED: &str = "SELECT count(*) FROM files \
    LEFT JOIN sizes ON sizes.path = files.path WHERE size IS NOT length(body)";

const PUT_FILE: &str = "INSERT INTO files(path, body) VALUES(?1, ?2) \
    ON CONFLICT(path) DO UPDATE SET body = excluded.body";

const PUT_SIZE: &str = "INSERT INTO sizes(path, size) VALUES(?1, ?2) \
    ON CONFLICT(path) DO UPDATE SET size = excluded.size";

/// Removes a file, and its size with it.
const REMOVE_FILE: &str = "DELETE FROM files WHERE path = ?1";

/// The number that a query gives in its only column.
fn number<S: Alter + Drop>(
    transaction: &mut Transaction<'_, S>,
    sql: &str,
) -> Result<i64, StoreFault> {
    Ok(transaction.query_row(sql, &[])?.get(0)?)
}

/// Makes the tables that are missing, where the database holds nothing else.
fn make_tables<S: Alter + Drop>(transaction: &mut Transaction<'_, S>) -> Result<(), StoreFault> {
    if number(transaction, COUNT_FOREIGN)? != 0 {
        return Err(StoreFault::Refused);
    }
    transaction.execute_batch(MAKE_TABLES)?;
    Ok(())
}

/// Takes over a store without a version, and refuses one with another.
fn take_over<S: Alter + Drop>(transaction: &mut Transaction<'_, S>) -> Result<(), StoreFault> {
    let versions = transaction.query_all(VERSIONS, &[])?;
    match versions.as_slice() {
        [] => Ok(transaction.execute_batch(TAKE_OVER)?),
        [version] if version.get::<i64>(0)? == VERSION => Ok(()),
        _ => Err(StoreFault::Refused),
    }
}

/// The files of a store, each of which has to have its size.
fn rows_of<S: Alter + Drop>(
    alloc: Global,
    transaction: &mut Transaction<'_, S>,
) -> Result<Rows, StoreFault> {
    if number(transaction, COUNT_MISSIZED)? != 0 {
        return Err(StoreFault::Refused);
    }
    let shown = transaction.query_all(FILES, &[])?;
    let mut rows = Vec::with_capacity(alloc, shown.len())?;
    for row in &shown {
        let path: String = row.get(0)?;
        let body: Vec<u8> = row.get(1)?;
        rows.push((Bytes::of(path.into_bytes()), Bytes::of(body)))?;
    }
    Ok(Rows::of(rows))
}

/// Makes a store of the database, or finds the store that it is, and gives its rows. A database that is none is left as it
/// was.
pub fn load_rows<S: Alter + Drop>(
    alloc: Global,
    connection: &mut Connection<S>,
) -> Result<Rows, StoreFault> {
    if !connection.is_autocommit() {
        return Err(StoreFault::Refused);
    }
    let mut transaction = connection.transaction();
    make_tables(&mut transaction)?;
    take_over(&mut transaction)?;
    let rows = rows_of(alloc, &mut transaction)?;
    transaction.commit()?;
    Ok(rows)
}

/// Makes or replaces a file, or removes it.
fn change_file<S: Alter + Drop>(
    transaction: &mut Transaction<'_, S>,
    path: &Path,
    body: &Option<FileBody>,
) -> Result<(), StoreFault> {
    let Ok(path) = std::str::from_utf8(path.as_slice()) else {
        return Err(StoreFault::Refused);
    };
    match body {
        Some(body) => {
            let bytes = body.to_bytes()?;
            transaction.execute(PUT_FILE, params![path, bytes.as_slice()])?;
            transaction.execute(PUT_SIZE, params![path, bytes.as_slice().len() as i64])?;
        }
        None => {
            transaction.execute(REMOVE_FILE, params![path])?;
        }
    }
    Ok(())
}

/// Makes the changes in one transaction.
pub fn make_changes<S: Alter + Drop>(
    connection: &mut Connection<S>,
    changes: &Changes,
) -> Result<(), StoreFault> {
    if !connection.is_autocommit() {
        return Err(StoreFault::Refused);
    }
    let mut transaction = connection.transaction();
    for (path, body) in changes.as_slice() {
        change_file(&mut transaction, path, body)?;
    }
    transaction.commit()?;
    Ok(())
}
