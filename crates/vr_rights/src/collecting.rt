ghost use Rattle.std.specs.Prelude.{◌≡◌, ◌++◌, map, IfOk, OnOk};
ghost use Rattle.std.specs.List.{flat_map};
ghost use Rattle.vr_policy_check.specs.Rules.{grant_names};
ghost use Rattle.vr_rights.specs.Tables.{names_of, names_of_pipes};

use crate::names::Name;
use std::alloc::Global;
use vr_base::{GrantName, Grants, NoMemory, Path, RightsWord, parse_grant_name};
use vr_policy_check::CheckedPolicy;
use vr_policy_read::{Identity, Pin, Program, Quota};

/// An entry of a policy that has a name.
trait Named {
    ghost use Rattle.std.specs.Prelude.{List, ℕ};

    ghost name: { Self → List ℕ };

    /// A copy of the name.
    fn copy_name(&self, alloc: Global) -> Result<Name, NoMemory>
        ensures { IfOk result (λ copy. copy ≡ name self.now) };
}

impl Named for (GrantName, RightsWord) {
    ghost name = { λ grant. grant.0 };

    fn copy_name(&self, _alloc: Global) -> Result<Name, NoMemory> {
        Ok(Name::new(self.0.copy()?))
    }
}

impl Named for Program {
    ghost name = { λ program. program.name };

    fn copy_name(&self, _alloc: Global) -> Result<Name, NoMemory> {
        Ok(Name::new(self.name.copy()?))
    }
}

impl Named for Quota {
    ghost name = { λ quota. quota.name };

    fn copy_name(&self, _alloc: Global) -> Result<Name, NoMemory> {
        Ok(Name::new(self.name.copy()?))
    }
}

impl Named for Path {
    ghost name = { λ path. path };

    fn copy_name(&self, alloc: Global) -> Result<Name, NoMemory> {
        match parse_grant_name(alloc, self.as_slice()) {
            Ok(name) => Ok(Name::new(name)),
            Err(_) => Err(NoMemory),
        }
    }
}

impl Named for Pin {
    ghost name = { λ pin. pin.path };

    fn copy_name(&self, alloc: Global) -> Result<Name, NoMemory> {
        self.path.copy_name(alloc)
    }
}

/// A holder of grants.
pub trait Granted {
    ghost use Rattle.std.specs.Prelude.{List, ℕ};

    ghost grants: { Self → List (List ℕ × ℕ) };

    fn grants(&self) -> &Grants
        ensures { result.now ≡ grants self.now };
}

impl Granted for Identity {
    ghost grants = { λ identity. identity.grants };

    fn grants(&self) -> &Grants {
        &self.grants
    }
}

impl Granted for Program {
    ghost grants = { λ program. program.grants };

    fn grants(&self) -> &Grants {
        &self.grants
    }
}

/// Adds the names of entries.
fn add_names<T: Named>(names: &mut Vec<Name>, alloc: Global, entries: &[T]) -> Result<(), NoMemory>
    ensures { OnOk result (names.new.items ≡ names.old.items ++ map T.name entries.now) }
{
    for entry in entries {
        names.push(entry.copy_name(alloc)?)?;
    }
    Ok(())
}

/// Adds the names of the grants of holders.
fn add_grants<H: Granted>(
    names: &mut Vec<Name>,
    alloc: Global,
    holders: &[H],
) -> Result<(), NoMemory>
    ensures { OnOk result (names.new.items
        ≡ names.old.items ++ flat_map (λ holder. grant_names (H.grants holder)) holders.now) }
{
    for holder in holders {
        add_names(names, alloc, holder.grants().as_slice())?;
    }
    Ok(())
}

/// Adds the names that pipelines write: their programs and tests.
fn add_pipes(names: &mut Vec<Name>, alloc: Global, policy: &CheckedPolicy) -> Result<(), NoMemory>
    ensures { OnOk result (names.new.items ≡ names.old.items ++ names_of_pipes policy.now.pipes) }
{
    let count = policy.policy().pipelines.as_slice().len();
    for place in 0..count {
        let pipe = policy.pipe(place as u32);
        add_names(names, alloc, pipe.programs())?;
        add_names(names, alloc, pipe.tests())?;
    }
    Ok(())
}

/// The names that a policy writes, in the order of its lists.
pub fn policy_names(alloc: Global, policy: &CheckedPolicy) -> Result<Vec<Name>, NoMemory>
    ensures { IfOk result (λ names. names.items ≡ names_of policy.now) }
{
    let listed = policy.policy();
    let mut names = Vec::new(alloc);
    add_grants(&mut names, alloc, listed.identities.as_slice())?;
    add_grants(&mut names, alloc, listed.programs.as_slice())?;
    add_names(&mut names, alloc, listed.programs.as_slice())?;
    add_names(&mut names, alloc, listed.pins.as_slice())?;
    add_pipes(&mut names, alloc, policy)?;
    add_names(&mut names, alloc, listed.quotas.as_slice())?;
    Ok(names)
}
