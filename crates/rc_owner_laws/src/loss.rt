//! Refused choices of the log.

ghost use Rattle.rc_owner_laws.specs.LossClaims.{RefusalsMeanLoss, FewDropsAreNoLoss, RefusedDecidesMeanLoss};
ghost use Rattle.rc_owner_laws.specs.LossClaims.{FewMissingAreNoLoss, DecidesPlanOrLoss};

/// After every list of events, of every setup: where all that any backup has of a master is among the
/// answers and the choice of its log is refused, there is a segment that isn't shut and was at one
/// moment placed on all its members, each of whose hosts has since been started with its open replica
/// of it dropped. So where of each segment fewer hosts than it has replicas have ever dropped one or
/// are missing from the answers, no choice is refused. And so a Decide of an attempt in which each
/// host that has anything of the master has answered, by its last server, plans, unless nobody is
/// ready or a segment is gone.
pub fn refusals_mean_loss()
    ensures all { RefusalsMeanLoss }
    ensures few { FewDropsAreNoLoss }
    ensures missing { FewMissingAreNoLoss }
    ensures decides { RefusedDecidesMeanLoss }
    ensures plans { DecidesPlanOrLoss }
{}
