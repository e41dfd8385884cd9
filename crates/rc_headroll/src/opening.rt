//! Heads are opened, and entries appended.

ghost use Rattle.std.specs.Prelude.{◌≡◌, ◌⊎◌, ◌+◌, ◌<◌, ◌≤◌, ◌∷◌, ◌++◌, [], ℕ, true, false, Some, None, Ok, Err};
ghost use Rattle.std.specs.Prelude.{length, filter, not, nat_eq, ◌||◌, All, OnOk, OnErr, IfOk, IfErr};
ghost use Rattle.std.specs.List.{list_any};
ghost use Rattle.rc_types.specs.declared.faults.Fault.TheVariants.{OutOfMemory};
ghost use Rattle.rc_types.specs.declared.limits.TheConstants.{MAX_FACTOR, LAST_SEGMENT};
ghost use Rattle.rc_model.specs.Log.{head_of, is_writing};
ghost use Rattle.rc_model.specs.Heads.{opens_head, open_first, appends, append_fault, next_digest, begin_roll};
ghost use Rattle.rc_headroll.specs.LogData.{log_of, before_of};
ghost use Rattle.rc_headroll.specs.Soundness.{IsKnown};

use crate::log::LogHead;
use rc_config::{MAX_MEMBERS, Segment, choose};
use rc_serverlist::ServerList;
use rc_types::limits::LAST_SEGMENT;
use rc_types::{Entry, Fault, Phase, ServerId, Shared};
use std::alloc::{AllocError, Global};

impl LogHead {
    /// Why nothing can be appended, if so: F3 where the phase isn't Writing, or the head is full and
    /// not the last segment; F6 where the last segment is full.
    pub(crate) fn append_fault(&self) -> Option<Fault>
        ensures { result ≡ append_fault (log_of self.now) }
    {
        if !self.is_writing() {
            return Some(Fault::Rolling);
        }
        if !self.is_full() {
            return None;
        }
        if self.head() < LAST_SEGMENT {
            return Some(Fault::Rolling);
        }
        Some(Fault::LogFull)
    }

    /// Appends an entry that no client wrote to the head, and answers its place: the segment and the
    /// offset in it.
    ///
    /// # Errors
    ///
    /// F3 or F6 exactly where `append_fault` says so; else only memory can be refused (F1). After
    /// either the log is as it was.
    pub fn append(&mut self, entry: Entry) -> Result<(u16, usize), Fault>
        ensures possible { OnOk result (append_fault (log_of self.old) ≡ None) }
        ensures state { OnOk result (log_of self.new ≡ appends entry false (log_of self.old)) }
        ensures place { IfOk result
            (λ place. place ≡ ((log_of self.old).head, length (head_of (log_of self.old)).entries)) }
        ensures err { IfErr result (λ fault. (fault ≡ OutOfMemory) ⊎ (append_fault (log_of self.old) ≡ Some fault)) }
        ensures unchanged { OnErr result (self.new ≡ self.old) }
        ensures before { before_of self.new ≡ before_of self.old }
        ensures counted { self.new.counted ≡ self.old.counted }
    {
        self.append_entry(entry, false)
    }

    /// Appends the entry of a client's write to the head, as `append` does.
    ///
    /// # Errors
    ///
    /// Those of `append`.
    pub fn append_write(&mut self, entry: Entry) -> Result<(u16, usize), Fault>
        ensures possible { OnOk result (append_fault (log_of self.old) ≡ None) }
        ensures state { OnOk result (log_of self.new ≡ appends entry true (log_of self.old)) }
        ensures place { IfOk result
            (λ place. place ≡ ((log_of self.old).head, length (head_of (log_of self.old)).entries)) }
        ensures err { IfErr result (λ fault. (fault ≡ OutOfMemory) ⊎ (append_fault (log_of self.old) ≡ Some fault)) }
        ensures unchanged { OnErr result (self.new ≡ self.old) }
        ensures before { before_of self.new ≡ before_of self.old }
        ensures counted { self.new.counted ≡ self.old.counted }
    {
        self.append_entry(entry, true)
    }

    fn append_entry(&mut self, entry: Entry, client: bool) -> Result<(u16, usize), Fault>
        ensures possible { OnOk result (append_fault (log_of self.old) ≡ None) }
        ensures state { OnOk result (log_of self.new ≡ appends entry client (log_of self.old)) }
        ensures place { IfOk result
            (λ place. place ≡ ((log_of self.old).head, length (head_of (log_of self.old)).entries)) }
        ensures err { IfErr result (λ fault. (fault ≡ OutOfMemory) ⊎ (append_fault (log_of self.old) ≡ Some fault)) }
        ensures unchanged { OnErr result (self.new ≡ self.old) }
        ensures before { before_of self.new ≡ before_of self.old }
        ensures counted { self.new.counted ≡ self.old.counted }
    {
        if let Some(fault) = self.append_fault() {
            return Err(fault);
        }
        let place = (self.head(), self.head_len());
        self.push_entry(entry, client)?;
        Ok(place)
    }

    /// Adds an entry at the end of a head that isn't full.
    fn push_entry(&mut self, entry: Entry, client: bool) -> Result<(), AllocError>
        requires possible { append_fault (log_of self.old) ≡ None }
        ensures state { OnOk result (log_of self.new ≡ appends entry client (log_of self.old)) }
        ensures unchanged { OnErr result (self.new ≡ self.old) }
        ensures before { before_of self.new ≡ before_of self.old }
        ensures counted { self.new.counted ≡ self.old.counted }
    {
        let last = self.segments.len() - 1;
        self.segments[last].push(entry, client)?;
        Ok(())
    }

    /// Opens the first head, with the digest [1], on the servers that `choose` names.
    ///
    /// # Errors
    ///
    /// F4 exactly where `choose` finds too few; else only memory can be refused (F1). After either
    /// the log is as it was.
    pub fn open_first(&mut self, alloc: Global, servers: &ServerList) -> Result<(), Fault>
        requires { (log_of self.old).head ≡ 0 }
        ensures ok { OnOk result (open_first servers.now (log_of self.old) ≡ (log_of self.new, Ok true)) }
        ensures err { IfErr result (λ fault. (fault ≡ OutOfMemory)
            ⊎ (open_first servers.now (log_of self.old) ≡ (log_of self.old, Err fault))) }
        ensures unchanged { OnErr result (self.new ≡ self.old) }
        ensures before { before_of self.new ≡ before_of self.old }
        ensures counted { self.new.counted ≡ self.old.counted }
    {
        let ids = choose(alloc, 1, self.own, self.factor, servers)?;
        let digest = vec![in alloc; 1]?;
        self.open_head(
            alloc,
            Shared::from_vec(alloc, digest)?,
            ids.as_slice(),
            false,
        )?;
        Ok(())
    }

    /// Begins a roll: opens the next segment, whose digest is that of the head without the dead
    /// segments and with the new one, on the servers that `choose` names. The head itself is never
    /// dead.
    ///
    /// # Errors
    ///
    /// F6 exactly where the head is the last segment, else F4 exactly where `choose` finds too few;
    /// else only memory can be refused (F1). After each the log is as it was.
    pub fn begin_roll(
        &mut self,
        alloc: Global,
        servers: &ServerList,
        dead: &[u16],
    ) -> Result<(), Fault>
        requires { is_writing self.old.phase ≡ true }
        ensures ok { OnOk result (begin_roll servers.now dead.now (log_of self.old) ≡ (log_of self.new, Ok true)) }
        ensures err { IfErr result (λ fault. (fault ≡ OutOfMemory)
            ⊎ (begin_roll servers.now dead.now (log_of self.old) ≡ (log_of self.old, Err fault))) }
        ensures unchanged { OnErr result (self.new ≡ self.old) }
        ensures before { before_of self.new ≡ before_of self.old }
        ensures counted { self.new.counted ≡ self.old.counted }
    {
        let head = self.head();
        if head == LAST_SEGMENT {
            return Err(Fault::LogFull);
        }
        let ids = choose(alloc, head + 1, self.own, self.factor, servers)?;
        let digest = self.next_digest(alloc, dead)?;
        self.open_head(alloc, digest, ids.as_slice(), dead.is_empty())?;
        Ok(())
    }

    /// The digest of the next head: that of the head without the dead segments, and with the new one.
    fn next_digest(&self, alloc: Global, dead: &[u16]) -> Result<Shared<u16>, AllocError>
        requires some { 0 < (log_of self.now).head }
        requires room { (log_of self.now).head < LAST_SEGMENT }
        ensures digest { IfOk result (λ digest. digest ≡ next_digest (log_of self.now) dead.now) }
        ensures known { IfOk result (λ digest. All (IsKnown ((log_of self.now).head + 1)) digest) }
    {
        let head = self.head();
        let mut digest = without_dead(alloc, self.newest().digest(), head, dead)?;
        digest.push(head + 1)?;
        let shared = Shared::from_vec(alloc, digest)?;
        Ok(shared)
    }

    /// Opens a head with this digest on these members. With it comes room to keep how it was when a step began. `whole`
    /// says whether the digest is known to have all that the head's has.
    fn open_head(
        &mut self,
        alloc: Global,
        digest: Shared<u16>,
        ids: &[ServerId],
        whole: bool,
    ) -> Result<(), AllocError>
        requires room { (log_of self.old).head < LAST_SEGMENT }
        requires members { length ids.now ≤ MAX_MEMBERS }
        requires known { All (IsKnown ((log_of self.old).head + 1)) digest }
        requires shut { (seg : ℕ) → 0 < seg → seg < (log_of self.old).head →
            ((log_of self.old).segments seg).shut ≡ true }
        requires none_out { whole ≡ true →
            filter (λ seg. not (list_any (nat_eq seg) digest)) (head_of (log_of self.old)).digest ≡ [] }
        ensures ok { OnOk result (log_of self.new ≡ opens_head (log_of self.old) digest ids.now) }
        ensures unchanged { OnErr result (self.new ≡ self.old) }
        ensures before { before_of self.new ≡ before_of self.old }
        ensures counted { self.new.counted ≡ self.old.counted }
    {
        let seg = self.head() + 1;
        let head = Segment::new(alloc, seg, digest, ids);
        self.segments.reserve(1)?;
        self.before.make_room(usize::from(seg))?;
        self.watch.wake(seg)?;
        self.segments.push(head).unwrap();
        self.phase = Phase::Opening;
        self.whole = whole;
        Ok(())
    }
}

/// The segments of a digest without the dead ones. The head is never dead.
fn without_dead(
    alloc: Global,
    digest: &[u16],
    head: u16,
    dead: &[u16],
) -> Result<Vec<u16>, AllocError>
    ensures { IfOk result (λ rest.
        rest.items ≡ filter (λ seg. nat_eq seg head || not (list_any (nat_eq seg) dead.now)) digest.now) }
{
    if dead.is_empty() {
        let mut all = Vec::new(alloc);
        all.extend_from_slice(digest)?;
        return Ok(all);
    }
    digest
        .iter()
        .copied()
        .filter(|seg| *seg == head || !has_number(dead, *seg))
        .collect(alloc)
}

/// Whether the number is one of these.
pub(crate) fn has_number(numbers: &[u16], number: u16) -> bool
    ensures { result ≡ list_any (nat_eq number) numbers.now }
{
    numbers.iter().any(|other| number == *other)
}
