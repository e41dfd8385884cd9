//! What members tell, and what becomes of lost ones.

ghost use Rattle.std.specs.Prelude.{◌≡◌, ◌⊎◌, ℕ, true, Ok, Err, IfOk, IfErr};
ghost use Rattle.rc_types.specs.declared.faults.Fault.TheVariants.{OutOfMemory};
ghost use Rattle.rc_model.specs.ServerList.{ServerList as Servers};
ghost use Rattle.rc_model.specs.Log.{has_segment, durable_now};
ghost use Rattle.rc_model.specs.Heads.{stored, notes_stored, commit_noted, loses};
ghost use Rattle.rc_headroll.specs.Before.{IsKept};
ghost use Rattle.rc_headroll.specs.Counts.{with_counted};
ghost use Rattle.rc_headroll.specs.LogData.{log_of, before_of};
ghost use Rattle.rc_headroll.specs.Soundness.{IsRoused};
ghost use Rattle.rc_headroll.specs.Watching.{is_awake};

use crate::log::LogHead;
use rc_serverlist::ServerList;
use rc_types::{Fault, ServerId};
use std::alloc::Global;

impl LogHead {
    /// Notes what a server has told of a segment, as `Config::stored` does, and says whether it did.
    /// An unknown segment changes nothing. What has become durable by it is counted. It takes no memory.
    pub fn stored(&mut self, seg: u16, from: ServerId, epoch: u16, len: usize, closed: bool) -> bool
        ensures notes { result ≡ notes_stored (log_of self.old) seg from epoch }
        ensures noted { log_of self.new ≡ stored seg from epoch len closed (log_of self.old) }
        ensures before { before_of self.new ≡ before_of self.old }
        ensures counted { self.new.counted ≡ with_counted (durable_now (log_of self.new)) self.old.counted }
    {
        let noted = self.take_stored(seg, from, epoch, len, closed);
        self.count_durable();
        noted
    }

    /// Notes what a server has told of a segment, if it is known, and counts nothing.
    fn take_stored(
        &mut self,
        seg: u16,
        from: ServerId,
        epoch: u16,
        len: usize,
        closed: bool,
    ) -> bool
        ensures notes { result ≡ notes_stored (log_of self.old) seg from epoch }
        ensures noted { log_of self.new ≡ stored seg from epoch len closed (log_of self.old) }
        ensures before { before_of self.new ≡ before_of self.old }
        ensures counted { self.new.counted ≡ self.old.counted }
    {
        if !self.has(seg) {
            return false;
        }
        self.keep(seg);
        self.note_stored(seg, from, epoch, len, closed)
    }

    /// Notes what a server has told of a segment that is kept.
    fn note_stored(
        &mut self,
        seg: u16,
        from: ServerId,
        epoch: u16,
        len: usize,
        closed: bool,
    ) -> bool
        requires has { has_segment (log_of self.old) seg ≡ true }
        requires kept { IsKept self.old.mark seg }
        ensures notes { result ≡ notes_stored (log_of self.old) seg from epoch }
        ensures noted { log_of self.new ≡ stored seg from epoch len closed (log_of self.old) }
        ensures before { before_of self.new ≡ before_of self.old }
        ensures counted { self.new.counted ≡ self.old.counted }
    {
        self.segments[usize::from(seg) - 1].stored(from, epoch, len, closed)
    }

    /// Notes that an epoch of a segment is committed. Another epoch than the present one, or an
    /// unknown segment, changes nothing. What has become durable by it is counted. It takes no memory.
    pub fn committed_at(&mut self, seg: u16, epoch: u16)
        ensures noted { log_of self.new ≡ commit_noted seg epoch (log_of self.old) }
        ensures before { before_of self.new ≡ before_of self.old }
        ensures counted { self.new.counted ≡ with_counted (durable_now (log_of self.new)) self.old.counted }
    {
        self.take_commit(seg, epoch);
        self.count_durable();
    }

    /// Notes that an epoch of a segment is committed, if the segment is known, and counts nothing.
    fn take_commit(&mut self, seg: u16, epoch: u16)
        ensures noted { log_of self.new ≡ commit_noted seg epoch (log_of self.old) }
        ensures before { before_of self.new ≡ before_of self.old }
        ensures counted { self.new.counted ≡ self.old.counted }
    {
        if !self.has(seg) {
            return;
        }
        self.keep(seg);
        self.note_commit(seg, epoch);
    }

    /// Notes that an epoch of a segment is committed that is kept.
    fn note_commit(&mut self, seg: u16, epoch: u16)
        requires has { has_segment (log_of self.old) seg ≡ true }
        requires kept { IsKept self.old.mark seg }
        ensures noted { log_of self.new ≡ commit_noted seg epoch (log_of self.old) }
        ensures before { before_of self.new ≡ before_of self.old }
        ensures counted { self.new.counted ≡ self.old.counted }
    {
        self.segments[usize::from(seg) - 1].committed_at(epoch);
    }

    /// Marks the members of a segment lost that the list shows crashed, and replaces the lost ones:
    /// those of an open segment by a change of members, those of a shut one under the same epoch.
    /// Answers who is to be sent a Place: all members after a change, the new ones of a shut segment,
    /// else nobody.
    ///
    /// # Errors
    ///
    /// F4 exactly where not all lost members can be replaced, and for an open segment else F19 exactly
    /// where the last epoch is in use: members are marked lost then, and nothing else has changed.
    /// Where memory is refused (F1), nothing has changed.
    pub fn lose(
        &mut self,
        alloc: Global,
        seg: u16,
        servers: &ServerList,
    ) -> Result<Vec<ServerId>, Fault>
        requires { has_segment (log_of self.old) seg ≡ true }
        ensures ok { IfOk result (λ ids. loses servers.now seg (log_of self.old) ≡ (log_of self.new, Ok ids.items)) }
        ensures err { IfErr result (λ fault. ((fault ≡ OutOfMemory) × (log_of self.new ≡ log_of self.old))
            ⊎ (loses servers.now seg (log_of self.old) ≡ (log_of self.new, Err fault))) }
        ensures before { before_of self.new ≡ before_of self.old }
        ensures counted { self.new.counted ≡ self.old.counted }
        ensures roused { (others : Servers) → IsRoused others self.old → IsRoused others self.new }
    {
        self.wake(seg)?;
        self.keep(seg);
        self.lose_members(alloc, seg, servers)
    }

    /// Replaces lost members of a segment that is kept, and that the timer goes over, as `lose` does.
    fn lose_members(
        &mut self,
        alloc: Global,
        seg: u16,
        servers: &ServerList,
    ) -> Result<Vec<ServerId>, Fault>
        requires has { has_segment (log_of self.old) seg ≡ true }
        requires kept { IsKept self.old.mark seg }
        requires awake { is_awake self.old.watch seg ≡ true }
        ensures ok { IfOk result (λ ids. loses servers.now seg (log_of self.old) ≡ (log_of self.new, Ok ids.items)) }
        ensures err { IfErr result (λ fault. ((fault ≡ OutOfMemory) × (log_of self.new ≡ log_of self.old))
            ⊎ (loses servers.now seg (log_of self.old) ≡ (log_of self.new, Err fault))) }
        ensures before { before_of self.new ≡ before_of self.old }
        ensures counted { self.new.counted ≡ self.old.counted }
        ensures roused { (others : Servers) → IsRoused others self.old → IsRoused others self.new }
    {
        self.segments[usize::from(seg) - 1].lose(alloc, self.own, servers)
    }
}
