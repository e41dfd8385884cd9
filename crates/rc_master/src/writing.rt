//! A client's write and read.

ghost use Rattle.std.specs.Prelude.{◌≡◌, ◌++◌, true, false, OnOk};
ghost use Rattle.rc_model.specs.Log.{is_writing};
ghost use Rattle.rc_model.specs.Heads.{is_full, begin_roll};
ghost use Rattle.rc_model.specs.Master.{dead_segments};
ghost use Rattle.rc_model.specs.Writing.{is_too_long, writes, writes_under, rolls_for_write, reads};
ghost use Rattle.rc_headroll.specs.LogData.{log_of};
ghost use Rattle.rc_master.specs.View.{state_view, before_step, IsNoted};
ghost use Rattle.rc_master.specs.Numbers.{HasVersions};

use crate::single::{read_ok, refusal};
use crate::state::State;
use crate::versions::new_entry;
use rc_types::limits::MAX_VALUE;
use rc_types::{Fault, Message, Shared};
use std::alloc::AllocError;

/// Whether the value is longer than a value may be.
fn is_too_long(value: &Option<Shared<u8>>) -> bool
    ensures { result ≡ is_too_long value.now }
{
    match value {
        Some(bytes) => bytes.len() > MAX_VALUE,
        None => false,
    }
}

impl State {
    /// A client's write: refused for its length (F7), for its owner (F2), for the phase (F3), or
    /// because the head is full, where a roll begins (F3) if it can (else F6 or F4), in this order; else
    /// appended.
    pub(crate) fn write(
        &mut self,
        table: u32,
        key: u64,
        value: &Option<Shared<u8>>,
        sent: &mut Vec<Message>,
    ) -> Result<(), AllocError>
        requires noted { IsNoted self.old }
        requires versions { HasVersions (state_view self.old) }
        ensures state { OnOk result (state_view self.new ≡ (writes (state_view self.old) table key value.now).0) }
        ensures sends { OnOk result (sent.new.items ≡ sent.old.items ++
            (writes (state_view self.old) table key value.now).1) }
        ensures noted { OnOk result (IsNoted self.new) }
        ensures before { before_step self.new ≡ before_step self.old }
    {
        if is_too_long(value) {
            return self.refuse(Fault::ValueTooLong, sent);
        }
        match self.ownership.term_of(table, key) {
            Some(term) => self.write_under(term, table, key, value, sent),
            None => self.refuse(Fault::NotOwner, sent),
        }
    }

    /// A write under the term of its range.
    fn write_under(
        &mut self,
        term: u32,
        table: u32,
        key: u64,
        value: &Option<Shared<u8>>,
        sent: &mut Vec<Message>,
    ) -> Result<(), AllocError>
        requires noted { IsNoted self.old }
        requires versions { HasVersions (state_view self.old) }
        ensures state { OnOk result
            (state_view self.new ≡ (writes_under (state_view self.old) term table key value.now).0) }
        ensures sends { OnOk result (sent.new.items ≡ sent.old.items ++
            (writes_under (state_view self.old) term table key value.now).1) }
        ensures noted { OnOk result (IsNoted self.new) }
        ensures before { before_step self.new ≡ before_step self.old }
    {
        if !self.log.is_writing() {
            return self.refuse(Fault::Rolling, sent);
        }
        if self.log.is_full() {
            return self.roll_for_write(sent);
        }
        let entry = new_entry(self.alloc, &self.ownership, term, table, key, value)?;
        self.append(entry, true, sent)
    }

    /// The head is full: a roll begins, and the client is to ask again; or it is told why none can.
    fn roll_for_write(&mut self, sent: &mut Vec<Message>) -> Result<(), AllocError>
        requires noted { IsNoted self.old }
        requires writing { is_writing self.old.log.phase ≡ true }
        ensures state { OnOk result (state_view self.new ≡ (rolls_for_write (state_view self.old)
            (begin_roll self.old.known (dead_segments (state_view self.old)) (log_of self.old.log))).0) }
        ensures sends { OnOk result (sent.new.items ≡ sent.old.items ++ (rolls_for_write (state_view self.old)
            (begin_roll self.old.known (dead_segments (state_view self.old)) (log_of self.old.log))).1) }
        ensures noted { OnOk result (IsNoted self.new) }
        ensures before { before_step self.new ≡ before_step self.old }
    {
        match self.roll(sent) {
            Ok(()) => {
                sent.push(refusal(self.log.own(), Fault::Rolling))?;
                Ok(())
            }
            Err(Fault::OutOfMemory) => Err(AllocError),
            Err(fault) => self.refuse(fault, sent),
        }
    }

    /// A client's read: the greatest durable version under the term of its range.
    pub(crate) fn read(
        &self,
        table: u32,
        key: u64,
        sent: &mut Vec<Message>,
    ) -> Result<(), AllocError>
        requires noted { IsNoted self.now }
        ensures state { OnOk result (state_view self.now ≡ (reads (state_view self.now) table key).0) }
        ensures sends { OnOk result (sent.new.items ≡ sent.old.items ++ (reads (state_view self.now) table key).1) }
    {
        let Some(term) = self.ownership.term_of(table, key) else {
            return self.refuse(Fault::NotOwner, sent);
        };
        let found = self.ownership.read(self.alloc, term, table, key)?;
        sent.push(read_ok(self.log.own(), table, key, found))?;
        Ok(())
    }
}
