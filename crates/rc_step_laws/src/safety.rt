//! The headline's first two clauses.

ghost use Rattle.rc_step_laws.specs.SafetyClaims.{NothingIsLost, NothingIsMadeUp};

/// After any list of events of the whole protocol (writes and rolls, stops and restarts, lost and
/// replaced backups, commits, timers, splits, recoveries to their end, freed segments), for each
/// accepted recovery of a master: every write that it has acknowledged, then or since, is in the
/// recovered log at its place, or a greater version of its key under its term is; and every
/// recovered entry is the one that this master sent at that place.
pub fn nothing_is_lost()
    ensures there { NothingIsLost }
    ensures one_entry { NothingIsMadeUp }
{}
