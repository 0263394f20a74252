ghost use Rattle.std.specs.Prelude.{◌≡◌};
ghost use Rattle.vr_policy_read.specs.PolicyData.{IsWithinLimits};

use crate::entries::{Identity, Pin, Pipeline, Program, Quota};
use std::marker::Model;
use vr_base::List;

/// A policy as its file says it, within the limits on a policy's size. Whether its
/// parts fit together is another question: names and ids may come twice, and the
/// texts of pipelines are not read.
#[derive(Debug, Drop)]
pub struct Policy {
    pub identities: List<Identity>,
    pub programs: List<Program>,
    pub pipelines: List<Pipeline>,
    pub pins: List<Pin>,
    /// The most pages of memory of a run, of 64 KiB each.
    pub pages: u32,
    pub quotas: List<Quota>,
}

impl Model for Policy {
    ghost use Rattle.vr_policy_read.specs.PolicyData.{PolicyData, policy_data, IsWithinLimits};

    ghost Value = { PolicyData };

    ghost view = { λ p. policy_data p.identities p.programs p.pipelines p.pins p.pages p.quotas };

    ghost invariant = { λ p.
        IsWithinLimits (policy_data p.identities p.programs p.pipelines p.pins p.pages p.quotas) };
}

impl Policy {
    /// The most pages of memory of a run, of 64 KiB each.
    pub fn page_limit(&self) -> u32
        ensures pages { result ≡ self.now.pages }
        ensures limits { IsWithinLimits self.now }
    {
        self.pages
    }
}
