//! The cases: which part the commands are for.

use crate::lines::{Commands, Desk};
use crate::parts::heads::Head;
use crate::parts::members::Members;
use crate::parts::picks::Replies;
use crate::parts::tablets::Tree;
use crate::parts::{
    audits, backups, heads, lists, members, owners, picks, replicas, tablets, texts,
};
use rc_backup::Backup;
use rc_ownership::Ownership;
use rc_rangetree::RangeTree;
use rc_replica::Replica;
use rc_serverlist::ServerList;
use rc_types::{Fault, Message};
use std::alloc::AllocError;

/// The part that the present case is about.
#[derive(Drop)]
pub enum Case {
    None,
    Replica(Replica),
    List(ServerList),
    Members(Members),
    Replies(Replies),
    Tree(Tree),
    Backup(Backup),
    Types,
    Messages(Vec<Message>),
    Owner(Ownership),
    Head(Head),
}

impl Commands for Case {
    /// A command: it begins a case, or is for the present one.
    fn take(&mut self, command: &str, desk: &mut Desk) -> Result<(), Fault> {
        desk.page.put(" ->");
        if let Some(new) = begun(command, desk)? {
            *self = new;
            desk.page.put(" a new case");
            return Ok(());
        }
        match self {
            Case::None => desk.page.put(" no such command"),
            Case::Replica(replica) => replicas::take(replica, command, desk)?,
            Case::List(list) => lists::take(list, command, desk)?,
            Case::Members(members) => members::take(members, command, desk)?,
            Case::Replies(replies) => picks::take(replies, command, desk)?,
            Case::Tree(tree) => tablets::take(tree, command, desk)?,
            Case::Backup(backup) => backups::take(backup, command, desk)?,
            Case::Types => texts::take(command, desk),
            Case::Messages(list) => audits::take(list, command, desk)?,
            Case::Owner(owner) => owners::take(owner, command, desk)?,
            Case::Head(head) => heads::take(head, command, desk)?,
        }
        Ok(())
    }
}

/// The case that a command begins, if it does.
fn begun(command: &str, desk: &mut Desk) -> Result<Option<Case>, AllocError> {
    let alloc = desk.alloc;
    let numbers = &mut desk.numbers;
    Ok(Some(match command {
        "replica" => Case::Replica(replicas::new(alloc, numbers)?),
        "members" => Case::Members(members::new(alloc, numbers)?),
        "servers" => Case::List(ServerList::new(alloc)),
        "replies" => Case::Replies(picks::new(alloc)),
        "tree" => Case::Tree(RangeTree::new_in(alloc)),
        "backup" => Case::Backup(Backup::new(alloc, numbers.id())),
        "types" => Case::Types,
        "messages" => Case::Messages(Vec::new(alloc)),
        "owner" => Case::Owner(Ownership::new(alloc)),
        "log" => Case::Head(heads::new(alloc, numbers)),
        _ => return Ok(None),
    }))
}
