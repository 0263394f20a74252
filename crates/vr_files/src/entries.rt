//! Vectors of paths with values, in the order of the paths and searched by halving.
ghost use Rattle.std.specs.Prelude.{◌≡◌, ◌+◌, ◌<◌, ◌≤◌, vec_len, vec_capacity, IsOk, IfOk, IfErr, OnOk, OnErr};
ghost use Rattle.std.specs.Option.{option_copied};
ghost use Rattle.std.specs.FinMap.{find, put as put_lem};
ghost use Rattle.vr_files.specs.FileMaps.{path_cmp};
ghost use Rattle.vr_files.specs.Entries.{AreSorted, IsAt, IsGap};

use vr_base::{NoMemory, Path};

/// Where a name stands among the paths, or would stand.
pub(crate) fn place_of_name<V>(entries: &[(Path, V)], name: &[u8]) -> Result<usize, usize>
    requires { AreSorted entries.now }
    ensures found { IfOk result (IsAt name.now entries.now) }
    ensures absent { IfErr result (IsGap name.now entries.now) }
{
    entries.binary_search_by(|entry| entry.0.as_slice().cmp(name))
}

/// Where the path stands, or would stand.
pub(crate) fn place_of<V>(entries: &[(Path, V)], path: &Path) -> Result<usize, usize>
    requires { AreSorted entries.now }
    ensures found { IfOk result (IsAt path.now entries.now) }
    ensures absent { IfErr result (IsGap path.now entries.now) }
{
    place_of_name(entries, path.as_slice())
}

/// The value of a path.
pub(crate) fn get<'a, V>(entries: &'a [(Path, V)], path: &Path) -> Option<&'a V>
    requires { AreSorted entries.now }
    ensures { option_copied result ≡ find path_cmp path.now entries.now }
{
    match place_of(entries, path) {
        Ok(place) => Some(&entries[place].1),
        Err(_) => None,
    }
}

/// Gives a path a value, in place of the one that it has. It takes memory only for a path more, where there is no room.
pub(crate) fn put<V: Drop>(
    entries: &mut Vec<(Path, V)>,
    path: Path,
    value: V,
) -> Result<(), NoMemory>
    requires { AreSorted entries.old.items }
    ensures ok { OnOk result (entries.new.items ≡ put_lem path_cmp path value entries.old.items) }
    ensures err { OnErr result (entries.new.items ≡ entries.old.items) }
    ensures succeeds { vec_len entries.old < vec_capacity entries.old → IsOk result }
    ensures len { vec_len entries.new ≤ vec_len entries.old + 1 }
    ensures capacity { vec_capacity entries.old ≤ vec_capacity entries.new }
{
    match place_of(entries, &path) {
        Ok(place) => {
            entries[place].1 = value;
            Ok(())
        }
        Err(place) => Ok(entries.insert(place, (path, value))?),
    }
}
