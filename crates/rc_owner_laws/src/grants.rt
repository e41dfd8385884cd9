//! What the steps of the coordinator keep of tablets and grants.

ghost use Rattle.rc_owner_laws.specs.OwnerClaims.{StepsKeepGrants, NewHasGoodGrants, StepsKeepWhatWasSent};
ghost use Rattle.rc_owner_laws.specs.OwnerClaims.{OthersKeepWhatWasSent, NothingWasSent, OwnersFormOneChain};
ghost use Rattle.rc_owner_laws.specs.OwnerClaims.{EarlierTermsAreLess, GrantedOnce};

/// After each step of the coordinator: tablets do not overlap; the grants of a point are a chain in
/// which each one's previous term is that of the one before, terms rise, and the last term is that of
/// the tablet that holds the point; each owner in it but the last has crashed, and none comes twice; a
/// part of a current attempt that isn't granted still is its crashed master's. A grant is remembered
/// for good and sent in the step that makes it, and each Own that is sent is of one that is remembered.
pub fn the_coordinator_keeps_the_grants()
    ensures steps { StepsKeepGrants }
    ensures new { NewHasGoodGrants }
{}

/// What was sent of the grants is what is remembered, in each step of any node: each grant that is
/// remembered was sent, each Own is of one of them, and each Plan is of a decision.
pub fn what_was_sent_is_remembered()
    ensures coordinator { StepsKeepWhatWasSent }
    ensures others { OthersKeepWhatWasSent }
    ensures new { NothingWasSent }
{}

/// Where they hold, the grants of a point form one chain: of two terms one is the earlier one, an
/// earlier term is less, and no id is granted it twice.
pub fn grants_form_one_chain()
    ensures chain { OwnersFormOneChain }
    ensures less { EarlierTermsAreLess }
    ensures once { GrantedOnce }
{}
