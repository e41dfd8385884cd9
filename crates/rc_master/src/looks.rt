//! What is shown of a master to whoever runs it. Nothing here takes memory or changes anything.

ghost use Rattle.std.specs.Prelude.{◌≡◌, true, Some, length, slice_get, option_map};
ghost use Rattle.rc_model.specs.Log.{has_segment};
ghost use Rattle.rc_model.specs.FollowUps.{first_open};
ghost use Rattle.rc_model.specs.Master.{durable_replayed, not_lost};
ghost use Rattle.rc_headroll.specs.LogData.{log_of};
ghost use Rattle.rc_ownership.specs.Grants.{grants_in};
ghost use Rattle.rc_types.specs.Counts.{within_64_bits};
ghost use Rattle.rc_ownership.specs.Looks.{progress_of};
ghost use Rattle.rc_master.specs.Data.{master_of};
ghost use Rattle.rc_master.specs.Looks.{fewest_with, fewest_members};

use crate::master::Master;
use indexmap::IndexMap;
use rc_headroll::{LogHead, Segment};
use rc_ownership::PartProgress;
use rc_types::{KeyRange, Member};

impl Master {
    /// The ranges that were granted to it, by term, in the order of granting. Of two that hold one key the first
    /// counts.
    pub fn grants(&self) -> &IndexMap<u32, KeyRange>
        ensures { grants_in result.now.entries ≡ (master_of self.now).ownership.grants }
    {
        self.state.ownership.grants()
    }

    /// How many parts of crashed masters' logs it was ever given, also those that have long been granted.
    pub fn count_parts(&self) -> usize
        ensures { result ≡ length (master_of self.now).ownership.parts }
    {
        self.state.ownership.count_parts()
    }

    /// How far the part of this number has come; parts are numbered from 0 in the order in which they were given.
    /// Its cost does not grow with the part.
    pub fn part(&self, number: usize) -> Option<PartProgress>
        ensures { result ≡ option_map (progress_of (durable_replayed (master_of self.now)))
            (slice_get (master_of self.now).ownership.parts number) }
    {
        self.state.ownership.part(number)
    }

    /// How many recovered entries wait to be appended to its log, or the greatest number where more do. It goes over
    /// the rows of crashed masters' logs of which any wait, and over no entry.
    pub fn count_replay(&self) -> usize
        ensures { result ≡ within_64_bits (length (master_of self.now).ownership.replay) }
    {
        self.state.ownership.count_replay()
    }

    /// Of its open segments, how many members that are not lost the one has which has the fewest; none where no
    /// segment is open, so before the first head. At most the newest two segments are open, and these alone are
    /// looked at.
    pub fn fewest_members(&self) -> Option<usize>
        ensures { result ≡ fewest_members (master_of self.now).log }
    {
        fewest_members(&self.state.log)
    }
}

/// The fewest members that are not lost of an open segment.
fn fewest_members(log: &LogHead) -> Option<usize>
    ensures { result ≡ fewest_members (log_of log.now) }
{
    match log.first_open() {
        Some(first) => fewest_from(log, first),
        None => None,
    }
}

/// The same, where this is the first open segment.
fn fewest_from(log: &LogHead, first: u16) -> Option<usize>
    requires first { first_open (log_of log.now) ≡ Some first }
    requires known { has_segment (log_of log.now) first ≡ true }
    ensures { result ≡ fewest_members (log_of log.now) }
{
    let mut fewest = None;
    for before in first - 1..log.head() {
        fewest = fewest_at(fewest, log, before + 1);
    }
    fewest
}

/// How few with the segment of this number too.
fn fewest_at(fewest: Option<usize>, log: &LogHead, seg: u16) -> Option<usize>
    requires { has_segment (log_of log.now) seg ≡ true }
    ensures { result ≡ fewest_with fewest ((log_of log.now).segments seg) }
{
    match log.segment(seg) {
        Some(segment) => fewest_with(fewest, segment),
        None => fewest,
    }
}

/// How few with this segment too: its members that are not lost, where it is open.
fn fewest_with(fewest: Option<usize>, segment: &Segment) -> Option<usize>
    ensures { result ≡ fewest_with fewest segment.now }
{
    if segment.is_shut() {
        return fewest;
    }
    let left = count_left(segment.config().members());
    match fewest {
        Some(fewest) => Some(fewest.min(left)),
        None => Some(left),
    }
}

/// How many of the members are not lost.
fn count_left(members: &[Member]) -> usize
    ensures { result ≡ length (not_lost members.now) }
{
    members.iter().filter(|member| !member.lost).count()
}
