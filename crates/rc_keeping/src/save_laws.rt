//! What holds of all saves, as contracts of functions that do nothing.

ghost use Rattle.rc_codec.specs.Claims.{IsPrefixFree};
ghost use Rattle.rc_keeping.specs.Saved.{save_of};
ghost use Rattle.rc_keeping.specs.SaveClaims.{SavedIsLoaded, SavesAreTaken, SavesAreNoRecords};
ghost use Rattle.rc_keeping.specs.SaveClaims.{CutIsRefused, DamagedIsRefused, LoadedIsSame, LoadedGoesOn};
ghost use Rattle.rc_keeping.specs.SaveClaims.{HostsComeBack, LoadedIsTheSaved, CoordinatorsComeBack};

/// What was saved is loaded, whatever stands behind it, and takes exactly its own bytes; and no save is refused as
/// malformed. A save is no record of a journal, so a journal can begin with one.
pub fn what_is_saved_is_loaded()
    ensures loaded { SavedIsLoaded }
    ensures taken { SavesAreTaken }
    ensures no_record { SavesAreNoRecords }
{}

/// No save stands at the front of one that was cut short anywhere, nor of bytes that do not have their sum: so `load`
/// never answers a node there. No save begins another.
pub fn damage_is_refused()
    ensures cut { CutIsRefused }
    ensures damaged { DamagedIsRefused }
    ensures prefix_free { IsPrefixFree save_of }
{}

/// A coordinator that is loaded is the coordinator that was saved, in all that contracts see of it. And where it is
/// given what `keeps` kept of the works that the coordinator took after it was saved, all but Ticks, in the
/// same order, it is the coordinator that took all of them. So a coordinator comes back from the bytes of a save and of
/// a journal that was begun with it.
pub fn saved_coordinators_come_back()
    ensures same { LoadedIsTheSaved }
    ensures back { CoordinatorsComeBack }
{}

/// A host that is loaded is the host that was saved but for its master, and runs where that one ran: after a stop the
/// two are equal. And so it stays where it is given what `keeps` kept of the works that the host took after
/// it was saved, in the same order: it is then where the host was, but for its master. So a host comes back from the
/// bytes of a save and of a journal that was begun with it.
pub fn saved_hosts_come_back()
    ensures same { LoadedIsSame }
    ensures goes_on { LoadedGoesOn }
    ensures back { HostsComeBack }
{}
