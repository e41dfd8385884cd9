//! The master's state, and what its rules have in common.

ghost use Rattle.std.specs.Prelude.{◌≡◌, ◌++◌, ◌∷◌, [], ◌⊎◌, true, not, None, Ok, Err, OnOk, IfErr};
ghost use Rattle.rc_types.specs.declared.faults.Fault.TheVariants.{OutOfMemory};
ghost use Rattle.rc_model.specs.Messages.{refuses};
ghost use Rattle.rc_model.specs.Log.{is_writing};
ghost use Rattle.rc_model.specs.Heads.{append_fault, begin_roll};
ghost use Rattle.rc_model.specs.Master.{new_master, with_log, appends_entry, dead_segments, places_head};
ghost use Rattle.rc_headroll.specs.LogData.{log_of};
ghost use Rattle.rc_master.specs.Numbers.{IsMasterSetup};
ghost use Rattle.rc_master.specs.Quiet.{IsQuiet};
ghost use Rattle.rc_master.specs.View.{state_view, before_step, IsNoted, WereNoted};
ghost use Rattle.rc_ownership.specs.Owner.{was_handed};

use crate::appending::add_append;
use crate::rolling::roll;
use crate::single::refusal;
use crate::tasks::Task;
use rc_headroll::LogHead;
use rc_ownership::Ownership;
use rc_serverlist::ServerList;
use rc_types::{Entry, Fault, MasterSetup, Message, ServerId};
use std::alloc::{AllocError, Global};

/// What a master knows.
#[derive(Drop)]
pub(crate) struct State {
    pub(crate) alloc: Global,
    /// The greatest server list that it has taken.
    pub(crate) known: ServerList,
    /// The list that it knew when the step began, where it has taken a greater one since.
    pub(crate) earlier: Option<ServerList>,
    pub(crate) log: LogHead,
    /// Whether it frees segments that are dead.
    pub(crate) free: bool,
    /// What it owns and replays, and the notes of its log.
    pub(crate) ownership: Ownership,
    /// The parts that it was given, in the order in which they were begun.
    pub(crate) tasks: Vec<Task>,
    /// How many of them it had when the step began.
    pub(crate) kept: usize,
    /// Whether it has learnt that the coordinator holds it for dead.
    pub(crate) deposed: bool,
}

impl State {
    /// A master that knows nobody, owns nothing and has no head. It takes no memory.
    pub(crate) fn new(alloc: Global, own: ServerId, setup: MasterSetup) -> State
        requires { IsMasterSetup setup }
        ensures state { state_view result ≡ new_master own setup }
        ensures noted { IsNoted result }
        ensures quiet { IsQuiet (state_view result) }
    {
        State {
            alloc,
            known: ServerList::new(alloc),
            earlier: None,
            log: LogHead::new(alloc, own, setup.factor, setup.size),
            free: setup.free,
            ownership: Ownership::new(alloc),
            tasks: Vec::new(alloc),
            kept: 0,
            deposed: false,
        }
    }

    /// Says no to a client.
    pub(crate) fn refuse(&self, fault: Fault, sent: &mut Vec<Message>) -> Result<(), AllocError>
        ensures { OnOk result (sent.new.items ≡ sent.old.items ++ refuses self.now.log.own fault ∷ []) }
    {
        sent.push(refusal(self.log.own(), fault))?;
        Ok(())
    }

    /// Appends an entry to the head, and sends it to the head's members. `client` says whether a client
    /// wrote it; else the replay has just handed it out.
    pub(crate) fn append(
        &mut self,
        entry: Entry,
        client: bool,
        sent: &mut Vec<Message>,
    ) -> Result<(), AllocError>
        requires possible { append_fault (log_of self.old.log) ≡ None }
        requires noted { WereNoted self.old }
        requires handed { was_handed self.old.ownership.handed entry.term ≡ not client }
        ensures state { OnOk result (state_view self.new ≡ (appends_entry (state_view self.old) entry client).0) }
        ensures sends { OnOk result (sent.new.items ≡ sent.old.items ++
            (appends_entry (state_view self.old) entry client).1) }
        ensures noted { OnOk result (IsNoted self.new) }
        ensures before { before_step self.new ≡ before_step self.old }
    {
        add_append(self.alloc, &self.log, &entry, sent)?;
        self.ownership.note(self.alloc, &entry)?;
        // (the head takes entries and has room)
        if client {
            match self.log.append_write(entry) {
                Ok(_) => Ok(()),
                Err(fault) => Err(fault.only_memory()),
            }
        } else {
            match self.log.append(entry) {
                Ok(_) => Ok(()),
                Err(fault) => Err(fault.only_memory()),
            }
        }
    }

    /// A roll begins, and the Places of the new head are sent.
    pub(crate) fn roll(&mut self, sent: &mut Vec<Message>) -> Result<(), Fault>
        requires noted { IsNoted self.old }
        requires writing { is_writing self.old.log.phase ≡ true }
        ensures ok { OnOk result (begin_roll self.old.known (dead_segments (state_view self.old)) (log_of self.old.log)
            ≡ (log_of self.new.log, Ok true)) }
        ensures state { OnOk result (state_view self.new ≡ with_log (state_view self.old) (log_of self.new.log)) }
        ensures sends { OnOk result (sent.new.items ≡ sent.old.items ++ places_head (log_of self.new.log)) }
        ensures err { IfErr result (λ fault. (fault ≡ OutOfMemory)
            ⊎ (begin_roll self.old.known (dead_segments (state_view self.old)) (log_of self.old.log)
            ≡ (log_of self.new.log, Err fault))) }
        ensures unchanged { IfErr result (λ fault. (fault ≡ OutOfMemory)
            ⊎ ((self.new ≡ self.old) × (sent.new.items ≡ sent.old.items))) }
        ensures noted { OnOk result (IsNoted self.new) }
        ensures before { before_step self.new ≡ before_step self.old }
    {
        roll(
            self.alloc,
            &self.known,
            self.free,
            &mut self.log,
            &mut self.ownership,
            sent,
        )
    }
}
