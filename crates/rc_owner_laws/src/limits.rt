//! Limits of logs.

ghost use Rattle.rc_owner_laws.specs.LimitClaims.{LogsStayWithinLimits, SegmentsTakeWhatIsSetUp};

/// Segments and epochs of a log are numbered within their limits, and no segment has more entries than
/// the setup says.
pub fn logs_stay_within_limits()
    ensures limits { LogsStayWithinLimits }
    ensures size { SegmentsTakeWhatIsSetUp }
{}
