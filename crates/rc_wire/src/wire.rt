//! The wire, and what seats do at it.

ghost use Rattle.std.specs.Prelude.{◌≡◌, ◌⊎◌, ◌+◌, ◌≤◌, true, [], ℕ, None, is_some, length};
ghost use Rattle.std.specs.Prelude.{All, IfOk, IfErr, OnOk, OnErr};
ghost use Rattle.std.specs.Option.{IfSome, IfNone};
ghost use Rattle.rc_types.specs.declared.faults.Fault.TheVariants.{OutOfMemory, BadEvent};
ghost use Rattle.rc_types.specs.declared.limits.TheConstants.{MAX_EVENTS, MAX_HOSTS};
ghost use Rattle.rc_history.specs.Events.{events_of};
ghost use Rattle.rc_wire.specs.Views.{name_at};
ghost use Rattle.rc_world.specs.HostView.{IsWithinLimits};
ghost use Rattle.rc_wire.specs.Numbers.{least_to};
ghost use Rattle.rc_wire.specs.JournalCalls.{new_places};
ghost use Rattle.rc_wire.specs.Sound.{IsHistory};
ghost use Rattle.rc_wire.specs.SeatView.{world_at};
ghost use Rattle.rc_wire.specs.SeatCalls.{IsSeat, Covers, Later, Fetches, SeesNone, SeesNext, Commits};
ghost use Rattle.rc_wire.specs.Seats.{new_seats};

use crate::begin::seats_of;
use crate::end::{look_at_last, replayed};
use crate::journal::Journal;
use crate::names::Naming;
use crate::opening::Opening;
use crate::seat::Seat;
use rc_types::Fault;
use rc_world::World;
use std::alloc::{AllocError, Global};
use std::sync::{Mutex, Wait};

/// What joins the nodes: the journal, behind one lock. Threads share it; each has a seat of its own.
#[derive(Drop)]
pub struct Wire<N: Naming> {
    journal: Mutex<Journal<N>>,
    ghost limits: { IsWithinLimits N.wire.setup },
}

impl<N: Naming> Wire<N> {
    /// A wire at which nothing has happened, and its seats in order: the outside's, the coordinator's, and
    /// those of the hosts.
    ///
    /// # Errors
    ///
    /// `OutOfMemory` (F1): memory was refused.
    pub fn open(alloc: Global, opening: Opening) -> Result<(Wire<N>, Vec<Seat<N>>), AllocError>
        requires name { opening ≡ N.wire }
        requires limits { IsWithinLimits opening.setup }
        requires hosts { opening.nodes ≤ MAX_HOSTS + 2 }
        ensures { IfOk result (λ made. made.1.items ≡ new_seats N.wire.nodes) }
    {
        let (journal, tokens) = Journal::open(alloc, opening)?;
        let seats = seats_of(alloc, journal.setup(), tokens)?;
        let wire = Wire {
            journal: Mutex::new(journal),
        };
        Ok((wire, seats))
    }

    /// The least number, from `from` on, of a message to the seat's node, in what the seat has then seen;
    /// to a host, one to any generation. None where there is none. It takes no memory.
    pub fn next(&self, rt: &impl Wait, seat: &mut Seat<N>, from: usize) -> Option<usize>
        ensures later { Later seat.old seat.new }
        ensures least { result ≡ least_to seat.new.name from (world_at N.wire.setup seat.new).sent }
    {
        next_at(&mut self.journal.lock(rt), seat, from)
    }

    /// The seat holds the message of this number, if the history has it: a copy, made under the lock.
    /// Else the answer is false, and what was held stays.
    ///
    /// # Errors
    ///
    /// `OutOfMemory` (F1): memory was refused. The seat is as before.
    pub fn fetch(
        &self,
        rt: &impl Wait,
        seat: &mut Seat<N>,
        number: usize,
    ) -> Result<bool, AllocError>
        ensures ok { IfOk result (λ found. Fetches N.wire.setup seat.old number found seat.new) }
        ensures err { OnErr result (seat.new ≡ seat.old) }
    {
        seat.hold(&mut self.journal.lock(rt), number)
    }

    /// The least number, from `from` on, of a message to the seat's node, as `next` gives it; the seat holds that
    /// message then, unless it has delivered it or its pending step does. One lock for both. None where there is no
    /// such message.
    ///
    /// # Errors
    ///
    /// `OutOfMemory` (F1): memory was refused. The seat may have seen more.
    pub fn fetch_next(
        &self,
        rt: &impl Wait,
        seat: &mut Seat<N>,
        from: usize,
    ) -> Result<Option<usize>, AllocError>
        ensures none { IfOk result (λ found. IfNone found (SeesNone N.wire.setup seat.old from seat.new)) }
        ensures some { IfOk result (λ found. IfSome found (λ number.
            SeesNext N.wire.setup seat.old from number seat.new)) }
        ensures err { OnErr result (Later seat.old seat.new) }
    {
        fetch_next_at(&mut self.journal.lock(rt), seat, from)
    }

    /// The seat's pending step becomes the last event of the history, and the answer is the event's
    /// number.
    ///
    /// # Errors
    ///
    /// `BadEvent` (F18): 200,000 events have happened. `OutOfMemory` (F1): memory was refused. After either
    /// nothing was committed; the step stays pending, and the seat may have seen more.
    pub fn commit(&self, rt: &impl Wait, seat: &mut Seat<N>) -> Result<usize, Fault>
        requires { is_some seat.old.pending ≡ true }
        ensures ok { IfOk result (λ number. Commits N.wire.setup seat.old number seat.new) }
        ensures err { OnErr result (Later seat.old seat.new) }
        ensures fault { IfErr result (λ fault. (fault ≡ OutOfMemory) ⊎ (fault ≡ BadEvent)) }
        ensures limit { result ≡ Err BadEvent → length seat.new.seen ≡ MAX_EVENTS }
    {
        seat.commit_into(&mut self.journal.lock(rt))
    }

    /// The world of the history, in which each of these seats has done exactly what it committed, and
    /// nodes without a seat nothing; and what is true of each seat is true of these. What is still pending is dropped.
    ///
    /// # Errors
    ///
    /// `OutOfMemory` (F1): memory was refused. The wire comes back, and the seats as they were.
    pub fn close(
        self,
        alloc: Global,
        seats: Vec<Seat<N>>,
    ) -> Result<World<Global>, (Wire<N>, Vec<Seat<N>>, AllocError)>
        ensures world { IfOk result (λ world. world.setup ≡ N.wire.setup) }
        ensures seats { IfOk result (λ world. All (Covers N.wire.setup world.events) seats.items) }
        ensures whole { OnOk result (All (IsSeat N.wire.setup) seats.items) }
        ensures others { IfOk result (λ world. (number : ℕ) → N.wire.nodes ≤ number →
            events_of N.wire.setup (name_at number) world.events ≡ []) }
        ensures back { IfErr result (λ refused. refused.1.items ≡ seats.items) }
    {
        let mut journal = self.journal.into_inner();
        match replayed(alloc, &journal) {
            Ok(world) => {
                look_at_last(&mut journal, seats);
                Ok(world)
            }
            Err(fault) => {
                let wire = Wire {
                    journal: Mutex::new(journal),
                };
                Err((wire, seats, fault))
            }
        }
    }
}

/// What `Wire::next` does while nobody else is at the journal.
fn next_at<N: Naming>(journal: &mut Journal<N>, seat: &mut Seat<N>, from: usize) -> Option<usize>
    ensures later { Later seat.old seat.new }
    ensures seen { seat.new.seen ≡ journal.old }
    ensures journal { journal.new ≡ journal.old }
    ensures least { result ≡ least_to seat.new.name from (world_at N.wire.setup seat.new).sent }
{
    seat.see(journal);
    journal.next_to(seat.name(), from)
}

/// What `Wire::fetch_next` does while nobody else is at the journal.
fn fetch_next_at<N: Naming>(
    journal: &mut Journal<N>,
    seat: &mut Seat<N>,
    from: usize,
) -> Result<Option<usize>, AllocError>
    ensures none { IfOk result (λ found. IfNone found (SeesNone N.wire.setup seat.old from seat.new)) }
    ensures some { IfOk result (λ found. IfSome found (λ number.
        SeesNext N.wire.setup seat.old from number seat.new)) }
    ensures err { OnErr result (Later seat.old seat.new) }
{
    let Some(number) = next_at(journal, seat, from) else {
        return Ok(None);
    };
    if seat.has_delivered(number) {
        return Ok(Some(number));
    }
    seat.hold(journal, number)?;
    Ok(Some(number))
}
