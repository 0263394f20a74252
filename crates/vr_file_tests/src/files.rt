//! Bodies, files and overlays: gaps, cuts, shares, and what differs.
use std::alloc::Global;
use std::sync::Arc;
use std::test::Fail;
use vr_base::{Path, parse_path};
use vr_files::{FileBody, Files, Overlay, PAGE, Page};

fn path(alloc: Global, name: &str) -> Option<Path> {
    parse_path(alloc, name.as_bytes()).ok()
}

fn has_bytes(body: &FileBody, wanted: &[u8]) -> bool {
    match body.to_bytes() {
        Ok(bytes) => bytes.as_slice() == wanted,
        Err(_) => false,
    }
}

/// Whether the bytes are these and zeros.
fn begin_and_end_with_zeros(bytes: &[u8], first: &[u8]) -> bool {
    match bytes.strip_prefix(first) {
        Some(rest) => rest.iter().all(|byte| *byte == 0),
        None => false,
    }
}

/// Whether a page as it is kept has these bytes and zeros.
fn is_padded(page: Option<&Arc<Page>>, first: &[u8]) -> bool {
    match page {
        Some(page) => begin_and_end_with_zeros(&page.bytes, first),
        None => false,
    }
}

/// Whether there is a whole page of these bytes and zeros.
fn is_whole_page(page: Option<&[u8]>, first: &[u8]) -> bool {
    match page {
        Some(page) => page.len() == PAGE && begin_and_end_with_zeros(page, first),
        None => false,
    }
}

/// A body of one byte, and another one far behind it.
fn body_with_a_gap(alloc: Global) -> Option<FileBody> {
    let mut body = FileBody::from_slice(alloc, b"a").ok()?;
    body.write_at(8_192, b"b").ok()?;
    Some(body)
}

/// Whether a body is an `a`, zeros, and a `b` at 8,192.
fn has_a_gap(body: &FileBody) -> bool {
    body.len() == 8_193
        && is_whole_page(body.page(0), b"a")
        && is_whole_page(body.page(1), b"")
        && body.page(2) == Some(b"b")
        && body.page(3).is_none()
        && is_padded(body.shared_page(2), b"b")
        && body.shared_page(3).is_none()
}

fn keeps_its_gap(alloc: Global) -> Option<bool> {
    let mut body = body_with_a_gap(alloc)?;
    let before = body.share().ok()?;
    body.set_size(0).ok()?;
    body.set_size(1).ok()?;
    Some(has_bytes(&body, b"\0") && has_a_gap(&before))
}

#[test]
fn a_share_keeps_its_bytes(rt: HostRuntime) -> Result<(), Fail> {
    assert_eq!(rt; keeps_its_gap(rt.alloc()), Some(true));
    Ok(())
}

/// What is done to a file.
#[derive(Clone, Copy, Debug)]
enum Step {
    Put(&'static str),
    Append(&'static str),
    Remove,
    Write(u64, &'static str),
    Size(u64),
}

/// Steps, and the files after all of them.
const STEPS: [(&str, Step); 8] = [
    ("/c", Step::Put("old")),
    ("/a", Step::Put("old")),
    ("/b/b", Step::Put("old")),
    ("/c", Step::Append("er")),
    ("/new", Step::Append("n")),
    ("/a", Step::Remove),
    ("/a", Step::Remove),
    ("/b/b", Step::Put("")),
];

const FILES: [(&str, &str); 3] = [("/b/b", ""), ("/c", "older"), ("/new", "n")];

fn go(files: &mut Files, name: &Path, step: Step) -> Option<()> {
    match step {
        Step::Put(text) => files.put(name, text.as_bytes()).ok(),
        Step::Append(text) => files.append(name, text.as_bytes()).ok(),
        _ => {
            files.remove(name);
            Some(())
        }
    }
}

/// Whether the files are these, in this order.
fn are_files(files: &Files, rows: &[(&str, &str)]) -> Option<bool> {
    for (k, (name, text)) in rows.iter().enumerate() {
        let (path, body) = files.entry(k)?;
        if path.as_slice() != name.as_bytes() || !has_bytes(body, text.as_bytes()) {
            return Some(false);
        }
    }
    Some(files.len() == rows.len() && files.entry(rows.len()).is_none())
}

/// The files after the steps.
fn files_after(alloc: Global, steps: &[(&str, Step)]) -> Option<Files> {
    let mut files = Files::new(alloc);
    for (name, step) in steps {
        go(&mut files, &path(alloc, name)?, *step)?;
    }
    Some(files)
}

/// Whether a share of the files keeps its file as `/c` of the files grows.
fn grows_apart(alloc: Global, files: &mut Files, shared: &Files) -> Option<bool> {
    let name = path(alloc, "/c")?;
    files.append(&name, b"!").ok()?;
    Some(are_files(shared, &FILES)? && has_bytes(files.get(&name)?, b"older!"))
}

/// Whether the files and a share of them are these, and the share keeps its file as the other one grows.
fn share_is_apart(alloc: Global) -> Option<bool> {
    let mut files = files_after(alloc, &STEPS)?;
    let shared = files.share().ok()?;
    let same = are_files(&files, &FILES)?;
    Some(same && grows_apart(alloc, &mut files, &shared)?)
}

#[test]
fn files_are_a_map(rt: HostRuntime) -> Result<(), Fail> {
    assert_eq!(rt; share_is_apart(rt.alloc()), Some(true));
    Ok(())
}

/// Steps over `/a`, `/b` and `/c`, which hold `old`, and the changes that they make.
const EDITS: [(&str, Step); 9] = [
    ("/b", Step::Put("new")),
    ("/b", Step::Put("old")),
    ("/d", Step::Put("made")),
    ("/d", Step::Remove),
    ("/c", Step::Remove),
    ("/a", Step::Write(4, "er")),
    ("/a", Step::Size(7)),
    ("/b", Step::Size(3)),
    ("/b", Step::Write(9, "")),
];

const DIFFERENCES: [(&str, Option<&str>); 2] = [("/a", Some("old\0er\0")), ("/c", None)];

fn edit(overlay: &mut Overlay, name: &Path, step: Step) -> Option<()> {
    let there = overlay.get(name).is_some();
    match step {
        Step::Put(text) => overlay.put(name, text.as_bytes()).ok(),
        Step::Write(at, text) if there => overlay.write_at(name, at, text.as_bytes()).ok(),
        Step::Size(size) if there => overlay.set_size(name, size).ok(),
        _ => {
            overlay.remove(name).ok()?;
            Some(())
        }
    }
}

/// Whether the changes are these, in this order.
fn are_changes(changes: &[(Path, Option<FileBody>)], rows: &[(&str, Option<&str>)]) -> bool {
    for ((path, body), (name, text)) in changes.iter().zip(rows) {
        if path.as_slice() != name.as_bytes() || !is_change(body, *text) {
            return false;
        }
    }
    changes.len() == rows.len()
}

fn is_change(body: &Option<FileBody>, text: Option<&str>) -> bool {
    match (body, text) {
        (Some(body), Some(text)) => has_bytes(body, text.as_bytes()),
        (None, None) => true,
        _ => false,
    }
}

fn put(alloc: Global, files: &mut Files, name: &str, text: &str) -> Option<()> {
    let path = path(alloc, name)?;
    files.put(&path, text.as_bytes()).ok()
}

/// An overlay over `/a`, `/b` and `/c`, each of which has these bytes.
fn overlay_over(alloc: Global, text: &str) -> Option<Overlay> {
    let mut base = Files::new(alloc);
    put(alloc, &mut base, "/a", text)?;
    put(alloc, &mut base, "/b", text)?;
    put(alloc, &mut base, "/c", text)?;
    Some(Overlay::new(alloc, base))
}

fn overlay_after(alloc: Global, steps: &[(&str, Step)]) -> Option<Overlay> {
    let mut overlay = overlay_over(alloc, "old")?;
    for (name, step) in steps {
        edit(&mut overlay, &path(alloc, name)?, *step)?;
    }
    Some(overlay)
}

fn lists_what_differs(alloc: Global) -> Option<bool> {
    let changes = overlay_after(alloc, &EDITS)?.changes().ok()?;
    Some(are_changes(changes.as_slice(), &DIFFERENCES))
}

#[test]
fn an_overlay_lists_what_differs(rt: HostRuntime) -> Result<(), Fail> {
    assert_eq!(rt; lists_what_differs(rt.alloc()), Some(true));
    Ok(())
}

/// A file of one byte, with another one far behind it, cut to nothing and to one byte, over a base that is shared.
fn overlay_leaves_a_share(alloc: Global) -> Option<bool> {
    let name = path(alloc, "/a")?;
    let mut base = Files::new(alloc);
    base.put(&name, b"a").ok()?;
    let before = base.share().ok()?;
    let mut overlay = Overlay::new(alloc, base);
    edit(&mut overlay, &name, Step::Write(8_192, "b"))?;
    let gap = has_a_gap(overlay.get(&name)?);
    edit(&mut overlay, &name, Step::Size(0))?;
    edit(&mut overlay, &name, Step::Size(1))?;
    Some(gap && has_bytes(overlay.get(&name)?, b"\0") && has_bytes(before.get(&name)?, b"a"))
}

#[test]
fn a_gap_is_zeros_and_a_share_of_the_base_is_as_before(rt: HostRuntime) -> Result<(), Fail> {
    assert_eq!(rt; overlay_leaves_a_share(rt.alloc()), Some(true));
    Ok(())
}
