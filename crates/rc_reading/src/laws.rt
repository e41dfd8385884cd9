//! Sets of hosts and of kinds are sets.

ghost use Rattle.rc_reading.specs.Claims.{HostsAreSets, KindsAreSets};

/// The sets of hosts and of kinds are sets: a bit for each says no more and no less than that it was put in.
pub fn sets_hold_what_was_put_in()
    ensures hosts { HostsAreSets }
    ensures kinds { KindsAreSets }
{}
