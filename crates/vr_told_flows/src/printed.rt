ghost use Rattle.vr_told_flows.specs.ToldFlows.{PrintsBounds};

/// The identities and the regions that a policy's flows print for an identity are closed for it, as
/// the isolation of histories takes it, and no smaller ones are. So the replies to it depend on the
/// calls of those identities and on the files of those regions alone. A call does nothing: it is
/// made for what it ensures.
pub fn printed_flows_bound_learning()
    ensures { PrintsBounds }
{}
