//! Where masters free no segments.

ghost use Rattle.rc_step_laws.specs.KeptClaims.{NothingIsDroppedWhereNothingIsFreed, DurableIsHeldWhereNothingIsFreed};

/// Where masters free nothing, each accepted recovery has every acknowledged write of its master at
/// its place, and every place that was ever durable.
pub fn nothing_is_dropped_where_nothing_is_freed()
    ensures acknowledged { NothingIsDroppedWhereNothingIsFreed }
    ensures durable { DurableIsHeldWhereNothingIsFreed }
{}
