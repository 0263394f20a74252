//! Runs of pipelines.

ghost use Rattle.std.specs.Prelude.{◌≡◌, ◌<◌, ◌++◌, [], ◌∷◌, length, bytes_eq, find, IfOk, MatchResult};
ghost use Rattle.std.specs.Option.{option_copied};
ghost use Rattle.vr_pipe.specs.Trees.{pipe_tree, programs_of};
ghost use Rattle.vr_exec.specs.Loaded.{AreLoaded, HasProgramFiles, IsToldBad};
ghost use Rattle.vr_exec.specs.Left.{EndsBy, setting_of};
ghost use Rattle.vr_exec.specs.Outcomes.{ComesTo, PipelineComesTo, PipelineIsIsolated};
ghost use Rattle.vr_exec.specs.Runs.{Runs, RunsProgram, grants_at};

use crate::loading::{Loaded, NotLoaded, find_program, load_programs};
use crate::outcome::Outcome;
use std::alloc::Global;
use vr_base::{Bytes, Grants, NoMemory, Path};
use vr_files::{Files, Overlay};
use vr_pipe::Tree;
use vr_policy_check::CheckedPolicy;
use vr_policy_read::{Policy, Program};
use vr_wasi_fs::World;
use vr_wasm_link::link;
use vr_wasm_run::{End, Machine};

/// What is left by a part of a pipeline that ended with a code.
#[derive(Drop)]
pub struct Left {
    pub code: u32,
    pub out: Bytes,
    pub files: Overlay,
    /// How many steps are left.
    pub fuel: u64,
}

/// Why a part of a pipeline did not end with a code.
#[derive(Drop)]
pub enum Stop {
    Trapped { path: Path, kind: u8 },
    OutOfFuel { path: Path },
    OutOfMemory,
    /// The program of a path is not among those that are loaded.
    NotLoaded,
}

impl From<NoMemory> for Stop {
    ghost use Rattle.vr_exec.specs.declared.running.Stop.TheVariants.{OutOfMemory};

    ghost from_gives = { λ _ e. e ≡ OutOfMemory };

    fn from(_refused: NoMemory) -> Stop {
        Stop::OutOfMemory
    }
}

/// The program of a path among those of a policy.
fn find_listed<'p>(programs: &'p [Program], path: &Path) -> Option<&'p Program>
    ensures { option_copied result ≡ find (λ listed. bytes_eq listed.name path.now) programs.now }
{
    programs
        .iter()
        .find(|listed| listed.name.as_slice() == path.as_slice())
}

/// The grants of the program with a path.
fn grants_of(alloc: Global, policy: &Policy, path: &Path) -> Result<Grants, NoMemory>
    ensures { IfOk result (λ grants. grants ≡ grants_at policy.now path.now) }
{
    match find_listed(policy.programs.as_slice(), path) {
        Some(listed) => listed.grants.copy(),
        None => Ok(Grants::of(Vec::new(alloc))),
    }
}

/// A pipeline that runs: its policy, and its programs.
#[derive(Clone, Copy)]
struct Runner<'r> {
    alloc: Global,
    policy: &'r Policy,
    programs: &'r [Loaded],
}

impl Runner<'_> {
    /// Runs the program of a path.
    fn run_program(
        &self,
        path: &Path,
        files: Overlay,
        input: Bytes,
        fuel: u64,
    ) -> Result<Left, Stop>
        ensures { AreLoaded self.now.policy.now.pages files.base
            (path.now ∷ []) self.now.programs.now
            → EndsBy files.base result (RunsProgram
            (setting_of self.now.policy.now files) path.now files.files input fuel) }
    {
        let policy = self.policy;
        let Some(loaded) = find_program(self.programs, path) else {
            return Err(Stop::NotLoaded);
        };
        let grants = grants_of(self.alloc, policy, path)?;
        let world = World::new(self.alloc, path.copy()?, grants, files, input)?;
        let Ok(linked) = link(self.alloc, &loaded.tree, &world, policy.pages) else {
            return Err(Stop::OutOfMemory);
        };
        let Ok(machine) = Machine::new(self.alloc, linked, world) else {
            return Err(Stop::OutOfMemory);
        };
        match machine.run(fuel) {
            (End::Ended { code, used }, world) => {
                let (files, out) = world.take();
                Ok(Left {
                    code,
                    out,
                    files,
                    fuel: fuel - used,
                })
            }
            (End::Trapped { kind, .. }, _world) => Err(Stop::Trapped {
                path: path.copy()?,
                kind,
            }),
            (End::OutOfFuel, _world) => Err(Stop::OutOfFuel { path: path.copy()? }),
            (End::HostStopped, _world) => Err(Stop::OutOfMemory),
        }
    }
}

/// Runs a part of a pipeline.
fn run_part(
    tree: &Tree,
    runner: &Runner<'_>,
    files: Overlay,
    input: Bytes,
    fuel: u64,
) -> Result<Left, Stop>
    ensures { AreLoaded runner.now.policy.now.pages files.base
        (programs_of (pipe_tree tree.now)) runner.now.programs.now
        → EndsBy files.base result (Runs
        (setting_of runner.now.policy.now files) (pipe_tree tree.now) files.files input fuel) }
{
    match tree {
        Tree::Program(path) => runner.run_program(path, files, input, fuel),
        Tree::If(path, taken, other) => {
            if files.get(path).is_some() {
                return run_part(taken.get(), runner, files, input, fuel);
            }
            match other {
                Some(other) => run_part(other.get(), runner, files, input, fuel),
                None => Ok(Left {
                    code: 0,
                    out: Bytes::of(Vec::new(runner.alloc)),
                    files,
                    fuel,
                }),
            }
        }
        Tree::Feed(first, second) => {
            let left = run_part(first.get(), runner, files, input, fuel)?;
            if left.code != 0 {
                return Ok(silenced(runner.alloc, left));
            }
            run_part(second.get(), runner, left.files, left.out, left.fuel)
        }
        Tree::Then(first, second) => {
            let left = run_part(first.get(), runner, files, input, fuel)?;
            if left.code != 0 {
                return Ok(left);
            }
            let input = Bytes::of(Vec::new(runner.alloc));
            let rest = run_part(second.get(), runner, left.files, input, left.fuel)?;
            preceded(left.out, rest)
        }
    }
}

/// The same without its output.
fn silenced(alloc: Global, left: Left) -> Left
    ensures { result ≡ record left { out = [] } }
{
    let Left {
        code,
        out: _out,
        files,
        fuel,
    } = left;
    Left {
        code,
        out: Bytes::of(Vec::new(alloc)),
        files,
        fuel,
    }
}

/// The same with an output before its own.
fn preceded(out: Bytes, left: Left) -> Result<Left, Stop>
    ensures { MatchResult result
        (λ joined. joined ≡ record left { out = out ++ left.out })
        (λ stop. stop ≡ Stop.OutOfMemory) }
{
    let mut out = out;
    let Left {
        code,
        out: more,
        files,
        fuel,
    } = left;
    out.push_slice(more.as_slice())?;
    Ok(Left {
        code,
        out,
        files,
        fuel,
    })
}

/// Runs a pipeline over files, whose programs are loaded.
fn run_loaded(
    alloc: Global,
    policy: &Policy,
    programs: &[Loaded],
    tree: &Tree,
    files: Files,
    fuel: u64,
) -> Result<Outcome, NoMemory>
    requires { AreLoaded policy.now.pages files.map (programs_of (pipe_tree tree.now))
        programs.now }
    ensures { IfOk result (ComesTo policy.now (pipe_tree tree.now) files.map fuel) }
{
    let runner = Runner {
        alloc,
        policy,
        programs,
    };
    let input = Bytes::of(Vec::new(alloc));
    match run_part(tree, &runner, Overlay::new(alloc, files), input, fuel) {
        Ok(left) => {
            let Left {
                code,
                out,
                files,
                fuel: _,
            } = left;
            Ok(Outcome::Ended {
                code,
                out,
                changes: files.changes()?,
            })
        }
        Err(Stop::Trapped { path, kind }) => Ok(Outcome::Trapped { path, kind }),
        Err(Stop::OutOfFuel { path }) => Ok(Outcome::OutOfFuel { path }),
        Err(Stop::OutOfMemory) => Err(NoMemory),
        Err(Stop::NotLoaded) => unreachable!(),
    }
}

/// The outcome where programs are not loaded.
fn refuse(refused: NotLoaded) -> Result<Outcome, NoMemory>
    ensures { IfOk result (IsToldBad refused) }
{
    match refused {
        NotLoaded::Bad { path, why } => Ok(Outcome::BadProgram { path, why }),
        NotLoaded::OutOfMemory => Err(NoMemory),
    }
}

/// Runs the pipeline at a place of the policy over files, with so many steps for all of its programs together.
///
/// The programs are those of the files as they are handed in. Each is read, checked and linked once, in the order of the
/// text, and the first that is no program is the answer, before any of them runs. The pipeline begins with an empty input.
/// Only one that ends with a code, zero or not, changes files.
pub fn run_pipeline(
    alloc: Global,
    policy: &CheckedPolicy,
    pipeline: u32,
    files: Files,
    fuel: u64,
) -> Result<Outcome, NoMemory>
    requires place { pipeline < length policy.now.policy.pipelines }
    requires there { HasProgramFiles policy.now pipeline files.map }
    ensures run { IfOk result (PipelineComesTo policy.now pipeline files.map fuel) }
    // It depends on no file that the pipeline doesn't observe, and changes only what it modifies.
    ensures isolated { IfOk result (PipelineIsIsolated policy.now pipeline files.map fuel) }
{
    let listed = policy.policy();
    let pipe = policy.pipe(pipeline);
    match load_programs(alloc, &files, pipe.programs(), listed.pages) {
        Ok(programs) => run_loaded(alloc, listed, &programs, pipe.tree(), files, fuel),
        Err(refused) => refuse(refused),
    }
}
