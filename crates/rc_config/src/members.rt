//! Members one by one, and what they have told.

ghost use Rattle.std.specs.Prelude.{◌≡◌, map};
ghost use Rattle.std.specs.List.{list_all, list_any};
ghost use Rattle.rc_model.specs.Config.{new_member, is_heard, told_with, told_if_heard, is_placed, told_closed};
ghost use Rattle.rc_model.specs.Config.{is_closed, told_len, least_told, lost_if_crashed};

use rc_serverlist::ServerList;
use rc_types::{Member, ServerId, Told};

/// A member that has told nothing yet.
pub(crate) fn new_member(id: ServerId) -> Member
    ensures { result ≡ new_member id }
{
    Member {
        id,
        lost: false,
        told: None,
    }
}

/// Whether the member is this server, and is not known lost.
pub(crate) fn is_heard(member: &Member, from: ServerId) -> bool
    ensures { result ≡ is_heard from member.now }
{
    from == member.id && !member.lost
}

/// Whether the server is one of the members that are not known lost.
pub(crate) fn any_heard(members: &[Member], from: ServerId) -> bool
    ensures { result ≡ list_any (is_heard from) members.now }
{
    members.iter().any(|member| is_heard(member, from))
}

/// Notes what the server has told, where it is a member that is not known lost.
pub(crate) fn note_told(members: &mut [Member], from: ServerId, len: usize, closed: bool)
    ensures { members.new ≡ map (told_if_heard from len closed) members.old }
{
    for member in members.iter_mut() {
        *member = told_if_heard(*member, from, len, closed);
    }
}

/// The member with what the server has told, where it is that member and not known lost.
fn told_if_heard(member: Member, from: ServerId, len: usize, closed: bool) -> Member
    ensures { result ≡ told_if_heard from len closed member }
{
    if !is_heard(&member, from) {
        return member;
    }
    Member {
        told: Some(told_with(member.told, len, closed)),
        ..member
    }
}

/// Under one epoch the greatest length and a closed mark stay.
fn told_with(told: Option<Told>, len: usize, closed: bool) -> Told
    ensures { result ≡ told_with told len closed }
{
    match told {
        None => Told { len, closed },
        Some(told) => Told {
            len: told.len.max(len),
            closed: told.closed || closed,
        },
    }
}

/// Whether no member is lost and each has told something.
pub(crate) fn all_placed(members: &[Member]) -> bool
    ensures { result ≡ list_all is_placed members.now }
{
    members.iter().all(is_placed)
}

fn is_placed(member: &Member) -> bool
    ensures { result ≡ is_placed member.now }
{
    !member.lost && member.told.is_some()
}

/// Whether no member is lost and each has told that its replica is closed.
pub(crate) fn all_closed(members: &[Member]) -> bool
    ensures { result ≡ list_all is_closed members.now }
{
    members.iter().all(is_closed)
}

fn is_closed(member: &Member) -> bool
    ensures { result ≡ is_closed member.now }
{
    !member.lost && told_closed(member.told)
}

fn told_closed(told: Option<Told>) -> bool
    ensures { result ≡ told_closed told }
{
    match told {
        None => false,
        Some(told) => told.closed,
    }
}

/// The least length that a member has told, where one that told nothing counts as 0.
pub(crate) fn least_told(members: &[Member]) -> usize
    ensures { result ≡ least_told members.now }
{
    let Some((first, others)) = members.split_first() else {
        return 0;
    };
    let mut least = told_len(first);
    for member in others {
        least = least.min(told_len(member));
    }
    least
}

fn told_len(member: &Member) -> usize
    ensures { result ≡ told_len member.now.told }
{
    match member.told {
        None => 0,
        Some(told) => told.len,
    }
}

/// Marks lost each member that the list shows crashed.
pub(crate) fn mark_lost(members: &mut [Member], servers: &ServerList)
    ensures { members.new ≡ map (lost_if_crashed servers.now) members.old }
{
    for member in members.iter_mut() {
        *member = lost_if_crashed(*member, servers);
    }
}

/// The member, known lost where the list shows it crashed.
fn lost_if_crashed(member: Member, servers: &ServerList) -> Member
    ensures { result ≡ lost_if_crashed servers.now member }
{
    if servers.has_crashed(member.id) {
        Member {
            lost: true,
            ..member
        }
    } else {
        member
    }
}

/// Begins anew with each member: it is not lost, and has told nothing.
pub(crate) fn begin_anew(members: &mut [Member])
    ensures { members.new ≡ map (λ member. new_member member.id) members.old }
{
    for member in members.iter_mut() {
        *member = new_member(member.id);
    }
}
