//! The facts, and what follows from them in any world.

ghost use Rattle.rc_owner_laws.specs.VersionClaims.{AllFactsHold, FactsCutData, FactsStartGrants};
ghost use Rattle.rc_owner_laws.specs.VersionClaims.{FactsKeepWhatIsSafe, FactsKeepWhatWasAcknowledged};
ghost use Rattle.rc_owner_laws.specs.VersionClaims.{FactsLetVersionsRise};

/// Where all facts hold: each Data is its plan's row, cut to the part; each grant of a recovery starts
/// from its base, which is durable in the owner's log before anything else of its term; what stands at
/// a safe place, and so what was acknowledged, each later owner of its point has at one, or a greater
/// version of its key; and versions rise over the owners of a point.
pub fn facts_suffice()
    ensures cut { FactsCutData }
    ensures starts { FactsStartGrants }
    ensures safe { FactsKeepWhatIsSafe }
    ensures acknowledged { FactsKeepWhatWasAcknowledged }
    ensures rises { FactsLetVersionsRise }
{}

/// The facts hold after every list of events, of every setup: of each message and each node, of
/// grants and terms, of data, and of each master's parts. A master owns what was granted to it; its
/// parts are of plans that were sent to it; until a part's term is owned, what its log and its replay
/// have under the term is the part's base; a client's entry comes after its term's grant; and the end
/// of a part is told only where all of its base is durable.
pub fn facts_hold()
    ensures { AllFactsHold }
{}
