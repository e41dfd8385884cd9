//! How a head goes on: the new one is placed, the old one closed, and the new one writes. The phase of the log decides
//! it, and its newest segments, of which the last is the head.

ghost use Rattle.std.specs.Prelude.{◌≡◌, ◌<◌, length, nat_eq, nat_lt, ◌&&◌};
ghost use Rattle.rc_model.specs.Config.{all_placed};
ghost use Rattle.rc_model.specs.Segment.{has_unclosed, is_all_closed, is_ready};
ghost use Rattle.rc_model.specs.Log.{is_closing, is_opening};
ghost use Rattle.rc_config.specs.Lists.{newest_of, previous_of};

use crate::segment::Segment;
use rc_types::Phase;

/// The newest segment.
pub fn newest(segments: &[Segment]) -> &Segment
    requires { 0 < length segments.now }
    ensures { result.now ≡ newest_of segments.now }
{
    &segments[segments.len() - 1]
}

/// The segment before the newest one.
pub fn previous(segments: &[Segment]) -> &Segment
    requires { 1 < length segments.now }
    ensures { result.now ≡ previous_of segments.now }
{
    &segments[segments.len() - 2]
}

/// Whether the old head is closed on all its members, under a committed epoch.
pub fn shuts(segments: &[Segment]) -> bool
    ensures { result ≡ (nat_lt 1 (length segments.now) && is_all_closed (previous_of segments.now)) }
{
    segments.len() > 1 && previous(segments).is_all_closed()
}

/// Whether the first head can write: it is placed on all its members, under a committed epoch.
pub fn may_start(phase: Phase, segments: &[Segment]) -> bool
    ensures { result ≡
        (is_opening phase && (nat_eq (length segments.now) 1 && is_ready (newest_of segments.now))) }
{
    is_opening(phase) && (segments.len() == 1 && newest(segments).is_ready())
}

/// Whether the old head can be closed: the new one is placed on all its members.
pub fn may_close(phase: Phase, segments: &[Segment]) -> bool
    ensures { result ≡ (is_opening phase
        && (nat_lt 1 (length segments.now) && all_placed (newest_of segments.now).config)) }
{
    is_opening(phase) && (segments.len() > 1 && newest(segments).config().all_placed())
}

/// Whether a Close is to be sent to members of the old head: their epoch is committed, and to some of them none was
/// sent under it.
pub fn close_is_due(phase: Phase, segments: &[Segment]) -> bool
    ensures { result ≡ (is_closing phase && (nat_lt 1 (length segments.now)
        && ((previous_of segments.now).config.committed && has_unclosed (previous_of segments.now)))) }
{
    is_closing(phase)
        && (segments.len() > 1
            && (previous(segments).config().is_committed() && previous(segments).has_unclosed()))
}

/// Whether the new head can write: the old one is shut, and the new one is placed on all its members, under a committed
/// epoch.
pub fn may_write(phase: Phase, segments: &[Segment]) -> bool
    ensures { result ≡ (is_closing phase && (nat_lt 1 (length segments.now)
        && ((previous_of segments.now).shut && is_ready (newest_of segments.now)))) }
{
    is_closing(phase)
        && (segments.len() > 1 && (previous(segments).is_shut() && newest(segments).is_ready()))
}

fn is_opening(phase: Phase) -> bool
    ensures { result ≡ is_opening phase }
{
    match phase {
        Phase::Opening => true,
        Phase::Closing | Phase::Writing => false,
    }
}

fn is_closing(phase: Phase) -> bool
    ensures { result ≡ is_closing phase }
{
    match phase {
        Phase::Closing => true,
        Phase::Opening | Phase::Writing => false,
    }
}
