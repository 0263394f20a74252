//! The programs of a run, before the first of them runs.

ghost use Rattle.std.specs.Prelude.{◌≡◌, ◌≤◌, ℕ, List, length, bytes_eq, find, IsSome, IfErr, IfOk, OnOk};
ghost use Rattle.std.specs.Option.{option_copied};
ghost use Rattle.std.specs.FinMap.{get};
ghost use Rattle.vr_wasm_ast.specs.Modules.{IsModule};
ghost use Rattle.vr_wasm_valid.specs.Parts.{IsTyped};
ghost use Rattle.vr_exec.specs.Loaded.{AreLoaded, IfBad, IfReason, IsChecked, IsLinkable, IsLoaded, IsProgramOf, IsRead};
ghost use Rattle.vr_exec.specs.Outcomes.{IsFirstBad};
ghost use Rattle.vr_exec.specs.Programs.{HasNoProgram, IsNoProgram};
ghost use Rattle.vr_exec.specs.Starts.{HaveFiles};

use std::alloc::{AllocFailed, Global};
use vr_base::{Bytes, Grants, NoMemory, Path, Why};
use vr_files::{Files, Overlay};
use vr_wasi_fs::World;
use vr_wasm_ast::Module;
use vr_wasm_decode::{DecodeKind, decode};
use vr_wasm_link::{LinkKind, link};
use vr_wasm_valid::{Invalid, ValidModule, validate};

/// A program that is ready to run: its path and its module.
#[derive(Debug, Drop)]
pub struct Loaded {
    pub path: Path,
    pub tree: ValidModule,
}

/// Why bytes are not read as a program.
#[derive(Clone, Copy, Debug)]
enum NoProgram {
    Because(Why),
    OutOfMemory,
}

/// Why the programs of a pipeline are not loaded.
#[derive(Debug, Drop)]
pub enum NotLoaded {
    /// The first file that is no program, and why.
    Bad { path: Path, why: Why },
    OutOfMemory,
}

impl From<NoMemory> for NotLoaded {
    ghost use Rattle.vr_exec.specs.declared.loading.NotLoaded.TheVariants.{OutOfMemory};

    ghost from_gives = { λ _ e. e ≡ OutOfMemory };

    fn from(_refused: NoMemory) -> NotLoaded {
        NotLoaded::OutOfMemory
    }
}

impl<T: Drop> From<AllocFailed<T>> for NotLoaded {
    ghost use Rattle.vr_exec.specs.declared.loading.NotLoaded.TheVariants.{OutOfMemory};

    ghost from_gives = { λ _ e. e ≡ OutOfMemory };

    fn from(_refused: AllocFailed<T>) -> NotLoaded {
        NotLoaded::OutOfMemory
    }
}

/// The module that bytes spell.
fn read_module(alloc: Global, bytes: &[u8]) -> Result<Module, NoProgram>
    requires { length bytes.now ≤ 16777216 }
    ensures read { IfOk result (IsRead bytes.now) }
    ensures none { IfErr result (λ refused.
        IfReason refused (λ why. (pages : ℕ) → IsNoProgram pages bytes.now why)) }
{
    match decode(alloc, bytes) {
        Ok(tree) => Ok(tree),
        Err(fault) => match fault.kind {
            DecodeKind::OutOfMemory => Err(NoProgram::OutOfMemory),
            kind => Err(NoProgram::Because(Why::Decode {
                kind: kind.number(),
                at: fault.at,
            })),
        },
    }
}

/// The module that bytes spell, if it is valid.
fn check_module(alloc: Global, bytes: &[u8]) -> Result<ValidModule, NoProgram>
    requires { length bytes.now ≤ 16777216 }
    ensures checked { IfOk result (IsChecked bytes.now) }
    ensures none { IfErr result (λ refused.
        IfReason refused (λ why. (pages : ℕ) → IsNoProgram pages bytes.now why)) }
{
    let tree = read_module(alloc, bytes)?;
    match validate(alloc, tree) {
        Ok(valid) => Ok(valid),
        Err((Invalid::Part { part, index }, _tree)) => Err(NoProgram::Because(Why::Invalid {
            part,
            index,
        })),
        Err((Invalid::OutOfMemory, _tree)) => Err(NoProgram::OutOfMemory),
    }
}

/// Whether a module can be linked to the calls of WASI, which each world has.
fn check_links(
    alloc: Global,
    tree: &ValidModule,
    world: &World,
    pages: u32,
) -> Result<(), NoProgram>
    requires { pages ≤ 1024 }
    ensures linked { OnOk result (IsLinkable pages tree.now) }
    ensures none { IfErr result (λ refused. IfReason refused (λ why. (bytes : List ℕ)
        → IsModule bytes tree.now → IsTyped tree.now → IsNoProgram pages bytes why)) }
{
    match link(alloc, tree, world, pages) {
        Ok(_linked) => Ok(()),
        Err(fault) => match fault.kind {
            LinkKind::OutOfMemory => Err(NoProgram::OutOfMemory),
            kind => Err(NoProgram::Because(Why::Link {
                kind: kind.number(),
                index: fault.index,
            })),
        },
    }
}

/// The program that bytes are.
fn read_program(
    alloc: Global,
    bytes: &[u8],
    world: &World,
    pages: u32,
) -> Result<ValidModule, NoProgram>
    requires size { length bytes.now ≤ 16777216 }
    requires pages { pages ≤ 1024 }
    ensures program { IfOk result (IsProgramOf pages bytes.now) }
    ensures none { IfErr result (λ refused. IfReason refused (IsNoProgram pages bytes.now)) }
{
    let tree = check_module(alloc, bytes)?;
    check_links(alloc, &tree, world, pages)?;
    Ok(tree)
}

/// A world to link to; what is in it doesn't matter.
fn any_world(alloc: Global, path: &Path) -> Result<World, NoMemory> {
    World::new(
        alloc,
        path.copy()?,
        Grants::of(Vec::new(alloc)),
        Overlay::new(alloc, Files::new(alloc)),
        Bytes::of(Vec::new(alloc)),
    )
}

/// The program of a path, whose file is there.
fn load_program(alloc: Global, files: &Files, path: &Path, pages: u32) -> Result<Loaded, NotLoaded>
    requires there { IsSome (get files.now.map path.now) }
    requires pages { pages ≤ 1024 }
    ensures loaded { IfOk result (IsLoaded pages files.now.map) }
    ensures path { IfOk result (λ loaded. loaded.path ≡ path.now) }
    ensures bad { IfErr result (λ refused. IfBad refused (λ at why.
        (at ≡ path.now) × HasNoProgram pages files.now.map path.now why)) }
{
    let world = any_world(alloc, path)?;
    let body = files.get(path).unwrap();
    let _size = body.len();
    let bytes = body.to_bytes()?;
    let path = path.copy()?;
    match read_program(alloc, bytes.as_slice(), &world, pages) {
        Ok(tree) => Ok(Loaded { path, tree }),
        Err(NoProgram::Because(why)) => Err(NotLoaded::Bad { path, why }),
        Err(NoProgram::OutOfMemory) => Err(NotLoaded::OutOfMemory),
    }
}

/// The program of a path among those that are loaded.
pub fn find_program<'l>(programs: &'l [Loaded], path: &Path) -> Option<&'l Loaded>
    ensures { option_copied result ≡ find (λ loaded. bytes_eq loaded.path path.now) programs.now }
{
    programs
        .iter()
        .find(|loaded| loaded.path.as_slice() == path.as_slice())
}

/// The programs of paths whose files are there, each once, or the first file that is no program.
pub fn load_programs(
    alloc: Global,
    files: &Files,
    paths: &[Path],
    pages: u32,
) -> Result<Vec<Loaded>, NotLoaded>
    requires there { HaveFiles files.now.map paths.now }
    requires pages { pages ≤ 1024 }
    ensures loaded { IfOk result (λ programs.
        AreLoaded pages files.now.map paths.now programs.items) }
    ensures bad { IfErr result (λ refused.
        IfBad refused (IsFirstBad pages files.now.map paths.now)) }
{
    let mut programs = Vec::new(alloc);
    for path in paths {
        if find_program(&programs, path).is_none() {
            programs.push(load_program(alloc, files, path, pages)?)?;
        }
    }
    Ok(programs)
}
