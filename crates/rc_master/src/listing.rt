//! What a master does about the servers that it knows: it replaces members that have crashed, and
//! opens its first head.

ghost use Rattle.std.specs.Prelude.{◌≡◌, ◌≢◌, ◌++◌, true, OnOk};
ghost use Rattle.rc_types.specs.declared.faults.Fault.TheVariants.{OutOfMemory};
ghost use Rattle.rc_model.specs.ServerList.{from_rows};
ghost use Rattle.rc_model.specs.Log.{has_segment, numbers_to};
ghost use Rattle.rc_model.specs.ListRules.{replaces_lost, replaces_lost_of, tries_first, obeys_list, takes_list};
ghost use Rattle.rc_headroll.specs.LogData.{log_of};
ghost use Rattle.rc_config.specs.Concerned.{is_concerned};
ghost use Rattle.rc_headroll.specs.Soundness.{IsRoused};
ghost use Rattle.rc_master.specs.View.{state_view, before_step, IsNoted, IsAtStart};

use crate::placing::{add_head_places, add_places};
use crate::state::State;
use rc_serverlist::ServerList;
use rc_types::{Fault, Message, ServerId};
use std::alloc::AllocError;
use std::mem;

/// A refusal, if it is for want of memory. Another one only says that a rule can do nothing.
fn unless_memory(fault: Fault) -> Result<(), AllocError>
    ensures { OnOk result (fault ≢ OutOfMemory) }
{
    match fault {
        Fault::OutOfMemory => Err(AllocError),
        _ => Ok(()),
    }
}

impl State {
    /// Takes a server list, if it is newer than the known one, and obeys it. Of one that isn't, the version alone is
    /// looked at.
    pub(crate) fn take_list(
        &mut self,
        version: u32,
        rows: &[(ServerId, bool)],
        sent: &mut Vec<Message>,
    ) -> Result<(), AllocError>
        requires noted { IsNoted self.old }
        requires start { IsAtStart self.old }
        ensures state { OnOk result
            (state_view self.new ≡ (takes_list (state_view self.old) (from_rows version rows.now)).0) }
        ensures sends { OnOk result (sent.new.items ≡ sent.old.items ++
            (takes_list (state_view self.old) (from_rows version rows.now)).1) }
        ensures noted { OnOk result (IsNoted self.new) }
        ensures before { before_step self.new ≡ before_step self.old }
    {
        if version <= self.known.version() {
            return Ok(());
        }
        self.log.rest()?;
        let servers = ServerList::from_rows(self.alloc, version, rows)?;
        let earlier = mem::replace(&mut self.known, servers);
        self.earlier = Some(earlier);
        self.obey_list(sent)
    }

    /// The list rules: over the segments, ascending, and then the first head.
    pub(crate) fn obey_list(&mut self, sent: &mut Vec<Message>) -> Result<(), AllocError>
        requires noted { IsNoted self.old }
        ensures state { OnOk result (state_view self.new ≡ (obeys_list (state_view self.old)).0) }
        ensures sends { OnOk result (sent.new.items ≡ sent.old.items ++ (obeys_list (state_view self.old)).1) }
        ensures noted { OnOk result (IsNoted self.new) }
        ensures before { before_step self.new ≡ before_step self.old }
    {
        self.replace_all_lost(sent)?;
        self.try_first(sent)
    }

    /// Lost members of each segment are replaced, one segment after another. Of the segments those are gone over
    /// that may want something, and those of which a member has crashed.
    fn replace_all_lost(&mut self, sent: &mut Vec<Message>) -> Result<(), AllocError>
        requires noted { IsNoted self.old }
        ensures state { OnOk result
            (state_view self.new ≡ (replaces_lost_of (numbers_to (log_of self.old.log).head) (state_view self.old)).0) }
        ensures sends { OnOk result (sent.new.items ≡ sent.old.items ++
            (replaces_lost_of (numbers_to (log_of self.old.log).head) (state_view self.old)).1) }
        ensures noted { OnOk result (IsNoted self.new) }
        ensures before { before_step self.new ≡ before_step self.old }
    {
        self.log.rouse(&self.known)?;
        let mut done = 0;
        while let Some(seg) = self.log.next_awake(done) {
            self.replace_lost(seg, sent)?;
            done = seg;
        }
        Ok(())
    }

    /// Lost members of a segment are replaced, if it wasn't freed. A segment with no member that is lost, or that the
    /// list shows crashed, is left alone: it costs a look at its members.
    fn replace_lost(&mut self, seg: u16, sent: &mut Vec<Message>) -> Result<(), AllocError>
        requires noted { IsNoted self.old }
        requires known { has_segment (log_of self.old.log) seg ≡ true }
        ensures state { OnOk result (state_view self.new ≡ (replaces_lost (state_view self.old) seg).0) }
        ensures sends { OnOk result (sent.new.items ≡ sent.old.items ++ (replaces_lost (state_view self.old) seg).1) }
        ensures head { OnOk result ((log_of self.new.log).head ≡ (log_of self.old.log).head) }
        ensures roused { OnOk result (IsRoused self.old.known self.old.log → IsRoused self.new.known self.new.log) }
        ensures noted { OnOk result (IsNoted self.new) }
        ensures before { before_step self.new ≡ before_step self.old }
    {
        if self.is_freed(seg) {
            return Ok(());
        }
        if !self.is_concerned(seg) {
            return Ok(());
        }
        match self.log.lose(self.alloc, seg, &self.known) {
            Ok(ids) => {
                add_places(self.alloc, &self.log, seg, ids.as_slice(), sent)?;
                Ok(())
            }
            Err(fault) => {
                unless_memory(fault)?;
                Ok(())
            }
        }
    }

    /// Whether a member of the segment is lost, or the known list shows one crashed.
    fn is_concerned(&self, seg: u16) -> bool
        requires { has_segment (log_of self.now.log) seg ≡ true }
        ensures { result ≡ is_concerned self.now.known ((log_of self.now.log).segments seg) }
    {
        match self.log.segment(seg) {
            Some(segment) => segment.is_concerned(&self.known),
            None => false,
        }
    }

    /// Whether the segment was freed.
    fn is_freed(&self, seg: u16) -> bool
        requires { has_segment (log_of self.now.log) seg ≡ true }
        ensures { result ≡ ((log_of self.now.log).segments seg).freed }
    {
        match self.log.segment(seg) {
            Some(segment) => segment.is_freed(),
            None => false,
        }
    }

    /// The first head is opened, where none ever was, this id is up and there are enough others.
    fn try_first(&mut self, sent: &mut Vec<Message>) -> Result<(), AllocError>
        requires noted { IsNoted self.old }
        ensures state { OnOk result (state_view self.new ≡ (tries_first (state_view self.old)).0) }
        ensures sends { OnOk result (sent.new.items ≡ sent.old.items ++ (tries_first (state_view self.old)).1) }
        ensures noted { OnOk result (IsNoted self.new) }
        ensures before { before_step self.new ≡ before_step self.old }
    {
        if self.log.head() != 0 || !self.known.is_up(self.log.own()) {
            return Ok(());
        }
        match self.log.open_first(self.alloc, &self.known) {
            Ok(()) => {
                add_head_places(self.alloc, &self.log, sent)?;
                Ok(())
            }
            Err(fault) => {
                unless_memory(fault)?;
                Ok(())
            }
        }
    }
}
