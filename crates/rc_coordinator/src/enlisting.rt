//! Who is up: what the coordinator does when a server enlists, is ready, or is suspected.

ghost use Rattle.std.specs.Prelude.{◌≡◌, ◌++◌, ◌&&◌, nat_eq, find, None, IfOk, OnOk, OnErr};
ghost use Rattle.rc_model.specs.ServerList.{has_crashed};
ghost use Rattle.rc_model.specs.Tablets.{marked_crashed};
ghost use Rattle.rc_model.specs.Coordinator.{enlists, notes_ready, suspects, begins_if_needed};
ghost use Rattle.rc_model.specs.Coordinator.{spreads_then_begins, follows_generation, has_tablets, up_of_host};
ghost use Rattle.rc_coordinator.specs.View.{book_of, state_view};
ghost use Rattle.rc_coordinator.specs.Steps.{HasNumbers};

use crate::notices;
use crate::state::State;
use rc_serverlist::ServerList;
use rc_types::{Fault, Message, ServerId, TryClone};
use std::alloc::{AllocError, Allocator};

impl<A: Allocator + Clone> State<A> {
    /// Takes an Enlist. That of an id that is up is answered by the list. That of its host's newest id takes it in,
    /// spreads the list, and begins the recovery of an older generation that was up. Another is refused (F21).
    pub(crate) fn enlist(&mut self, id: ServerId, sent: &mut Vec<Message>) -> Result<(), AllocError>
        requires { HasNumbers (state_view self.old) }
        ensures state { OnOk result (state_view self.new ≡ (enlists (state_view self.old) id).0) }
        ensures sends { OnOk result (sent.new.items ≡ sent.old.items ++ (enlists (state_view self.old) id).1) }
        ensures err { OnErr result (book_of self.new ≡ book_of self.old) }
        ensures unsent { OnErr result (sent.new.items ≡ sent.old.items) }
    {
        if self.servers.is_up(id) {
            sent.push(notices::list_to(self.alloc, &mut self.servers, id)?)?;
            return Ok(());
        }
        if !self.servers.is_newest(id) {
            sent.push(notices::refusal_to(id, Fault::StaleGeneration))?;
            return Ok(());
        }
        let older = self.up_of_host(id.index)?;
        let mut servers = self.servers.try_clone(self.alloc)?;
        match servers.enlist(id) {
            Ok(()) => {}
            // (the id is the newest)
            Err(fault) => return Err(fault.only_memory()),
        }
        match older {
            Some(older) => self.follow(servers, older, sent),
            None => self.spread(servers, sent),
        }
    }

    /// The id of this host that is up.
    fn up_of_host(&self, index: u8) -> Result<Option<ServerId>, AllocError>
        ensures { IfOk result (λ found. found ≡ up_of_host index (state_view self.now).servers) }
    {
        let ids = self.servers.up(self.alloc)?;
        Ok(of_host(&ids, index))
    }

    /// Takes a new list, and spreads it.
    fn spread(&mut self, servers: ServerList, sent: &mut Vec<Message>) -> Result<(), AllocError>
        ensures state { OnOk result
            (state_view self.new ≡ (follows_generation (record (state_view self.old) { servers = servers }) None).0) }
        ensures sends { OnOk result (sent.new.items ≡ sent.old.items ++
            (follows_generation (record (state_view self.old) { servers = servers }) None).1) }
        ensures err { OnErr result (book_of self.new ≡ book_of self.old) }
        ensures unsent { OnErr result (sent.new.items ≡ sent.old.items) }
    {
        let mut servers = servers;
        let mut messages = notices::spread_list(self.alloc, &mut servers)?;
        sent.append(&mut messages)?;
        self.servers = servers;
        Ok(())
    }

    /// Takes a new list, in which this id has crashed: the list is spread, the id's tablets are
    /// marked, and an attempt to recover them begins where there are any.
    fn follow(
        &mut self,
        servers: ServerList,
        gone: ServerId,
        sent: &mut Vec<Message>,
    ) -> Result<(), AllocError>
        requires { HasNumbers (state_view self.old) }
        ensures state { let after = record (state_view self.old)
            { servers = servers; tablets = marked_crashed gone (state_view self.old).tablets } in
            OnOk result (state_view self.new ≡ (spreads_then_begins after gone).0) }
        ensures sends { let after = record (state_view self.old)
            { servers = servers; tablets = marked_crashed gone (state_view self.old).tablets } in
            OnOk result (sent.new.items ≡ sent.old.items ++ (spreads_then_begins after gone).1) }
        ensures err { OnErr result (book_of self.new ≡ book_of self.old) }
        ensures unsent { OnErr result (sent.new.items ≡ sent.old.items) }
    {
        let begins = self.begins(&servers, gone)?;
        let mut servers = servers;
        let mut messages = notices::spread_list(self.alloc, &mut servers)?;
        if !begins {
            sent.append(&mut messages)?;
            self.servers = servers;
            self.tablets.mark_crashed(gone);
            return Ok(());
        }
        self.recoveries
            .begin(self.alloc, &servers, gone, &mut messages, sent)?;
        self.servers = servers;
        self.tablets.mark_crashed(gone);
        Ok(())
    }

    /// Whether an attempt begins for this id under this list: it has crashed, and has tablets.
    fn begins(&self, servers: &ServerList, gone: ServerId) -> Result<bool, AllocError>
        ensures { IfOk result (λ begins.
            begins ≡ (has_crashed servers.now gone && has_tablets (state_view self.now) gone)) }
    {
        if !servers.has_crashed(gone) {
            return Ok(false);
        }
        self.has_tablets(gone)
    }

    /// Whether the master has tablets.
    fn has_tablets(&self, master: ServerId) -> Result<bool, AllocError>
        ensures { IfOk result (λ some. some ≡ has_tablets (state_view self.now) master) }
    {
        let tablets = self.tablets.tablets_of(self.alloc, master)?;
        Ok(tablets.len() > 0)
    }

    /// Takes a Ready. It is noted where the sender is up, else refused (F5).
    pub(crate) fn note_ready(
        &mut self,
        id: ServerId,
        sent: &mut Vec<Message>,
    ) -> Result<(), AllocError>
        ensures state { OnOk result (state_view self.new ≡ (notes_ready (state_view self.old) id).0) }
        ensures sends { OnOk result (sent.new.items ≡ sent.old.items ++ (notes_ready (state_view self.old) id).1) }
        ensures err { OnErr result (book_of self.new ≡ book_of self.old) }
        ensures unsent { OnErr result (sent.new.items ≡ sent.old.items) }
    {
        if self.servers.is_up(id) {
            self.ready.note(id)?;
        } else {
            sent.push(notices::refusal_to(id, Fault::Deposed))?;
        }
        Ok(())
    }

    /// Takes a Suspect. An id that is up crashes, and all are told; an attempt to recover it begins where it still has
    /// tablets.
    pub(crate) fn suspect(
        &mut self,
        id: ServerId,
        sent: &mut Vec<Message>,
    ) -> Result<(), AllocError>
        requires { HasNumbers (state_view self.old) }
        ensures state { OnOk result (state_view self.new ≡ (suspects (state_view self.old) id).0) }
        ensures sends { OnOk result (sent.new.items ≡ sent.old.items ++ (suspects (state_view self.old) id).1) }
        ensures err { OnErr result (book_of self.new ≡ book_of self.old) }
        ensures unsent { OnErr result (sent.new.items ≡ sent.old.items) }
    {
        if self.servers.is_up(id) {
            let mut servers = self.servers.try_clone(self.alloc)?;
            servers.crash(id);
            return self.follow(servers, id, sent);
        }
        self.begin_if_needed(id, sent)
    }

    /// Begins an attempt for a master that has crashed and still has tablets.
    fn begin_if_needed(&mut self, id: ServerId, sent: &mut Vec<Message>) -> Result<(), AllocError>
        requires { HasNumbers (state_view self.old) }
        ensures state { OnOk result (state_view self.new ≡ (begins_if_needed (state_view self.old) id).0) }
        ensures sends { OnOk result (sent.new.items ≡ sent.old.items ++ (begins_if_needed (state_view self.old) id).1) }
        ensures err { OnErr result (book_of self.new ≡ book_of self.old) }
        ensures unsent { OnErr result (sent.new.items ≡ sent.old.items) }
    {
        if self.servers.has_crashed(id) && self.has_tablets(id)? {
            let mut messages = Vec::new(self.alloc);
            self.recoveries
                .begin(self.alloc, &self.servers, id, &mut messages, sent)?;
        }
        Ok(())
    }
}

/// The first of these ids that is of this host.
fn of_host(ids: &[ServerId], index: u8) -> Option<ServerId>
    ensures { result ≡ find (λ id. nat_eq id.index index) ids.now }
{
    for id in ids {
        if id.index == index {
            return Some(*id);
        }
    }
    None
}
