ghost use Rattle.std.specs.Prelude.{◌≡◌, ◌<◌, length, IfOk, IfSome, slice_get, Some};
ghost use Rattle.vr_policy_check.specs.Checked.{IsChecked, identity_place, pipeline_place};
ghost use Rattle.vr_policy_check.specs.Faults.{Gives};
ghost use Rattle.vr_policy_check.specs.Rules.{check_of};

use crate::faults::CheckFault;
use crate::rules::{Ids, Passed, check_rules};
use std::alloc::Global;
use std::marker::Model;
use vr_pipe::Pipe;
use vr_policy_read::Policy;

/// A policy that meets every rule, with its pipelines read. A place is an index in one of the
/// policy's lists. Contracts see the policy and its pipelines' trees.
#[derive(Debug, Drop)]
pub struct CheckedPolicy {
    policy: Policy,
    pipes: Vec<Pipe>,
    identity_places: Ids,
    pipeline_places: Ids,
}

impl Model for CheckedPolicy {
    ghost use Rattle.vr_policy_check.specs.Rules.{CheckedData, checked_data};
    ghost use Rattle.vr_policy_check.specs.Checked.{KeepsChecked};

    ghost Value = { CheckedData };

    ghost use Rattle.std.specs.Coded.{codes};
    ghost use Rattle.vr_pipe.specs.contracts.trees.Tree as trees;

    ghost coded = { Prim.hlevel (codes, trees.the_row.coded) };

    ghost view = { λ c. checked_data c.policy c.pipes.items };

    ghost invariant = { λ c.
        KeepsChecked (checked_data c.policy c.pipes.items) c.identity_places c.pipeline_places };
}

impl CheckedPolicy {
    pub fn policy(&self) -> &Policy
        ensures policy { result.now ≡ self.now.policy }
        ensures checked { IsChecked self.now }
    {
        &self.policy
    }

    /// The place of the identity with an id. None exactly where no identity has it.
    pub fn identity_place(&self, id: u32) -> Option<u32>
        ensures place { result ≡ identity_place self.now.policy id }
        ensures within { IfSome result (λ place. place < length self.now.policy.identities) }
    {
        self.identity_places.get(&id).copied()
    }

    /// The place of the pipeline with an id. None exactly where no pipeline has it.
    pub fn pipeline_place(&self, id: u32) -> Option<u32>
        ensures place { result ≡ pipeline_place self.now.policy id }
        ensures within { IfSome result (λ place. place < length self.now.policy.pipelines) }
    {
        self.pipeline_places.get(&id).copied()
    }

    /// What the text of the pipeline at a place spells.
    pub fn pipe(&self, place: u32) -> &Pipe
        requires { place < length self.now.policy.pipelines }
        ensures tree { slice_get self.now.pipes place ≡ Some result.now }
        ensures checked { IsChecked self.now }
    {
        &self.pipes[place as usize]
    }
}

/// Checks the rules on a whole policy, in the order of the kinds of their faults. The answer is the
/// first that fails, at the first index at which it does; then the policy is dropped.
///
/// It takes time in proportion to the policy's size and the logarithm of the lengths of its lists.
pub fn check(alloc: Global, policy: Policy) -> Result<CheckedPolicy, CheckFault>
    ensures answer { Gives result (check_of policy) }
    ensures checked { IfOk result IsChecked }
{
    let passed = check_rules(alloc, &policy)?;
    let Passed {
        pipes,
        identity_places,
        pipeline_places,
    } = passed;
    Ok(CheckedPolicy {
        policy,
        pipes,
        identity_places,
        pipeline_places,
    })
}
