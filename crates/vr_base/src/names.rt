ghost use Rattle.std.specs.Prelude.{◌≡◌, ◌==◌, ◌<◌, not, length, position, bytes_eq, refl, Some, IfOk, IfSome};
ghost use Rattle.std.specs.Cmp.{partial_equiv_from_equiv};
ghost use Rattle.std.specs.Cmp.Lexicographic.{slice_cmp, nat_list_eq_equiv, nat_list_cmp_total, texts_ties, texts_po};
ghost use Rattle.std.specs.Ordering.{nat_cmp};
ghost use Rattle.vr_base.specs.Names.{Gives, path_of, grant_of, covers, is_name_byte, names_directory, normal_form, grant_segments, segments, segment_fault, first_segment_fault, length_fault, byte_fault, name_fault, IsPath, IsGrantName};
ghost use Rattle.vr_base.specs.Cuts.{parts_at};
ghost use Rattle.vr_base.specs.Signs.{slash};
ghost use Rattle.std.specs.Option.{option_or};

use crate::cuts::cut_at;
use crate::memory::NoMemory;
use std::alloc::{AllocError, Global};
use std::cmp::Ordering;
use std::marker::Model;

/// The most bytes of a name, with its leading `/`.
pub const MOST_NAME: usize = 1024;

/// The most bytes of a segment of a name.
pub const MOST_SEGMENT: usize = 255;

/// Why a name stands for no path, or for no grant's name. Of several faults the first in this order
/// is answered: its length, its bytes, then its segments from left to right.
#[derive(Clone, Copy, Debug, PartialEq, Eq)]
pub enum PathFault {
    /// A segment has no bytes.
    EmptySegment,
    /// The first byte that is no letter, no digit and none of `.`, `_`, `-` and `/`, by its
    /// offset in the name as given.
    BadByte(u32),
    /// A segment is `.` or `..`.
    DotSegment,
    /// The name has more than 1,024 bytes with its leading `/`, or a segment more than 255.
    TooLong,
    OutOfMemory,
}

impl From<AllocError> for PathFault {
    ghost use Rattle.vr_base.specs.declared.names.PathFault.TheVariants.{OutOfMemory};
    ghost use Rattle.std.specs.Prelude.{◌≡◌};

    ghost from_gives = { λ _ e. e ≡ OutOfMemory };

    fn from(_refused: AllocError) -> PathFault {
        PathFault::OutOfMemory
    }
}

/// The path of a file: it begins with `/`, and its segments are neither empty nor `.` nor `..`.
/// Contracts see it as its bytes.
#[derive(Debug, Drop)]
pub struct Path {
    bytes: Vec<u8>,
}

impl Model for Path {
    ghost use Rattle.std.specs.Prelude.{List, ℕ};
    ghost use Rattle.vr_base.specs.Names.{IsPath};

    ghost Value = { List ℕ };

    ghost view = { λ path. path.bytes.items };

    ghost invariant = { λ path. IsPath path.bytes.items };
}

impl Path {
    pub fn as_slice(&self) -> &[u8]
        ensures bytes { result.now ≡ self.now }
        ensures is_path { IsPath self.now }
    {
        self.bytes.as_slice()
    }

    pub fn copy(&self) -> Result<Path, NoMemory>
        ensures { IfOk result (λ path. path ≡ self.now) }
    {
        let bytes = self.bytes.clone()?;
        Ok(Path { bytes })
    }
}

impl PartialEq for Path {
    ghost eq = { bytes_eq };

    ghost laws = { partial_equiv_from_equiv nat_list_eq_equiv };

    fn eq(&self, other: &Path) -> bool {
        self.as_slice() == other.as_slice()
    }
}

impl Eq for Path {
    ghost laws = { nat_list_eq_equiv };
}

impl PartialOrd for Path {
    ghost partial_cmp = { λ a b. Some (slice_cmp nat_cmp a b) };

    ghost laws = { texts_po };

    fn partial_cmp(&self, other: &Path) -> Option<Ordering> {
        Some(self.cmp(other))
    }
}

/// Paths are in the order of their bytes.
impl Ord for Path {
    ghost cmp = { slice_cmp nat_cmp };

    ghost total = { nat_list_cmp_total };

    ghost matches_partial_cmp = { λ a b. refl };

    ghost matches_eq = { texts_ties };

    fn cmp(&self, other: &Path) -> Ordering {
        self.as_slice().cmp(other.as_slice())
    }
}

/// The name of a grant: a path, or a directory, which is `/` or a path and a `/`.
/// Contracts see it as its bytes.
#[derive(Debug, Drop)]
pub struct GrantName {
    bytes: Vec<u8>,
}

impl Model for GrantName {
    ghost use Rattle.std.specs.Prelude.{List, ℕ};
    ghost use Rattle.vr_base.specs.Names.{IsGrantName};

    ghost Value = { List ℕ };

    ghost view = { λ name. name.bytes.items };

    ghost invariant = { λ name. IsGrantName name.bytes.items };
}

impl GrantName {
    pub fn as_slice(&self) -> &[u8]
        ensures bytes { result.now ≡ self.now }
        ensures is_grant_name { IsGrantName self.now }
    {
        self.bytes.as_slice()
    }

    pub fn copy(&self) -> Result<GrantName, NoMemory>
        ensures { IfOk result (λ name. name ≡ self.now) }
    {
        let bytes = self.bytes.clone()?;
        Ok(GrantName { bytes })
    }

    /// Whether it names a directory, and not a file.
    pub fn is_dir(&self) -> bool
        ensures { result ≡ names_directory self.now }
    {
        ends_in_slash(&self.bytes)
    }

    /// Whether the grant is one on this path: a path covers itself alone, a directory each
    /// longer path that begins with it.
    pub fn covers(&self, path: &Path) -> bool
        ensures { result ≡ covers self.now path.now }
    {
        let name = self.bytes.as_slice();
        let path = path.as_slice();
        if ends_in_slash(name) {
            path.starts_with(name) && name.len() < path.len()
        } else {
            name == path
        }
    }
}

fn ends_in_slash(name: &[u8]) -> bool
    ensures { result ≡ names_directory name.now }
{
    name.ends_with(b"/")
}

fn is_allowed(byte: u8) -> bool
    ensures { result ≡ is_name_byte byte }
{
    byte.is_ascii_alphanumeric() || byte == b'.' || byte == b'_' || byte == b'-' || byte == b'/'
}

fn check_segment(segment: &[u8]) -> Option<PathFault>
    ensures { result ≡ segment_fault segment.now }
{
    if segment.is_empty() {
        Some(PathFault::EmptySegment)
    } else if segment == b".".as_slice() || segment == b"..".as_slice() {
        Some(PathFault::DotSegment)
    } else if segment.len() > MOST_SEGMENT {
        Some(PathFault::TooLong)
    } else {
        None
    }
}

/// What is wrong with the first bad segment of a name, whose bytes after its leading `/` these are.
fn check_segments(rest: &[u8]) -> Option<PathFault>
    ensures { result ≡ first_segment_fault (parts_at slash rest.now) }
{
    let mut left = Some(rest);
    while let Some(bytes) = left {
        let (segment, others) = cut_at(bytes, b'/');
        if let Some(fault) = check_segment(segment) {
            return Some(fault);
        }
        left = others;
    }
    None
}

/// What is wrong with the first bad segment of a path in normal form.
fn check_path_segments(path: &[u8]) -> Option<PathFault>
    requires { 0 < length path.now }
    ensures { result ≡ first_segment_fault (segments path.now) }
{
    check_segments(&path[1..])
}

/// What is wrong with the first bad segment of a grant's name in normal form, where a directory's
/// are those before its last `/`.
fn check_grant_segments(path: &[u8]) -> Option<PathFault>
    requires { 0 < length path.now }
    ensures { result ≡ first_segment_fault (grant_segments path.now) }
{
    if !ends_in_slash(path) {
        check_path_segments(path)
    } else if path.len() > 1 {
        check_segments(&path[1..path.len() - 1])
    } else {
        None
    }
}

fn first_bad_byte(name: &[u8]) -> Option<usize>
    ensures place { result ≡ position (λ b. not (is_name_byte b)) name.now }
    ensures within { IfSome result (λ at. at < length name.now) }
{
    name.iter().position(|b| !is_allowed(*b))
}

/// The first fault of a name, whose normal form is `path`, but for its segments.
fn check_name(name: &[u8], path: &[u8]) -> Option<PathFault>
    requires { path.now ≡ normal_form name.now }
    ensures { result ≡ option_or (length_fault path.now) (byte_fault name.now) }
{
    if path.len() > MOST_NAME {
        return Some(PathFault::TooLong);
    }
    match first_bad_byte(name) {
        Some(at) => Some(PathFault::BadByte(at as u32)),
        None => None,
    }
}

/// The first fault of a name, whose normal form is `path`, as the name of a file.
fn path_fault(name: &[u8], path: &[u8]) -> Option<PathFault>
    requires { path.now ≡ normal_form name.now }
    ensures { result ≡ name_fault name.now (segments path.now) }
{
    check_name(name, path).or_else(|| check_path_segments(path))
}

/// The first fault of a name, whose normal form is `path`, as the name of a grant.
fn grant_fault(name: &[u8], path: &[u8]) -> Option<PathFault>
    requires { path.now ≡ normal_form name.now }
    ensures { result ≡ name_fault name.now (grant_segments path.now) }
{
    check_name(name, path).or_else(|| check_grant_segments(path))
}

fn normalise(alloc: Global, name: &[u8]) -> Result<Vec<u8>, AllocError>
    ensures { IfOk result (λ path. path.items ≡ normal_form name.now) }
{
    let name = name.strip_prefix(b"./").unwrap_or(name);
    let mut path = Vec::with_capacity(alloc, name.len() + 1)?;
    if !name.starts_with(b"/") {
        path.push(b'/')?;
    }
    path.extend_from_slice(name)?;
    Ok(path)
}

/// The path that a name stands for.
pub fn parse_path(alloc: Global, name: &[u8]) -> Result<Path, PathFault>
    ensures { Gives result (path_of name.now) }
{
    let bytes = normalise(alloc, name)?;
    match path_fault(name, &bytes) {
        Some(fault) => Err(fault),
        None => Ok(Path { bytes }),
    }
}

/// The path or the directory that a grant's name stands for.
pub fn parse_grant_name(alloc: Global, name: &[u8]) -> Result<GrantName, PathFault>
    ensures { Gives result (grant_of name.now) }
{
    let bytes = normalise(alloc, name)?;
    match grant_fault(name, &bytes) {
        Some(fault) => Err(fault),
        None => Ok(GrantName { bytes }),
    }
}
