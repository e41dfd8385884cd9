//! Marks of what was delivered, and the numbers of what waits.

ghost use Rattle.std.specs.Prelude.{◌≡◌, ◌≤◌, ◌<◌, ◌+◌, ◌++◌, ◌∷◌, true, false, [], ℕ, List, length, drop, Some};
ghost use Rattle.std.specs.Prelude.{slice_get, IfSome, IfOk, OnOk, OnErr};
ghost use Rattle.std.specs.List.{find, slice_set};
ghost use Rattle.rc_types.specs.declared.events.Event.{Event};
ghost use Rattle.rc_types.specs.declared.messages.Message.{Message};
ghost use Rattle.rc_runs.specs.Settling.{due_from};
ghost use Rattle.rc_runs.specs.Lanes.{Lane, In, Ascends, AllAscend, InLanes, IsLeast, Joins, AreTidied, earlier_of};
ghost use Rattle.rc_runs.specs.Waiting.{is_due_by, first_due, Fits};

use crate::lines::{Line, is_marked};
use crate::passing::Passing;
use rc_types::{Addr, Kind, Message, copied};
use std::alloc::{AllocError, Global};

/// So many numbers are looked at one by one before all lines are.
const NEAR: usize = 8;

/// Which messages are still to be delivered, of those noted so far.
#[derive(Drop)]
pub(crate) struct Marks {
    /// Whether an event has delivered the message, by number.
    pub(crate) delivered: Vec<bool>,

    /// The numbers of the noted messages that a pass may come to deliver, by kind and host. Some of
    /// them may have been delivered since.
    pub(crate) lines: Vec<Line>,

    /// Where a line stands, by kind and host; where there is none, any place.
    places: Vec<usize>,

    alloc: Global,
}

impl Marks {
    /// None is noted yet.
    pub(crate) fn new(alloc: Global) -> Marks
        ensures delivered { result.delivered.items ≡ [] }
        ensures lines { result.lines.items ≡ [] }
    {
        Marks {
            delivered: Vec::new(alloc),
            lines: Vec::new(alloc),
            places: Vec::new(alloc),
            alloc,
        }
    }

    /// A copy.
    pub(crate) fn try_clone(&self) -> Result<Marks, AllocError>
        ensures delivered { IfOk result (λ copy. copy.delivered.items ≡ self.now.delivered.items) }
        ensures lines { IfOk result (λ copy. copy.lines.items ≡ self.now.lines.items) }
    {
        let alloc = self.alloc;
        Ok(Marks {
            delivered: self.delivered.as_slice().to_vec(alloc)?,
            lines: copied(alloc, self.lines.as_slice())?,
            places: self.places.as_slice().to_vec(alloc)?,
            alloc,
        })
    }

    /// Whether the pass delivers the message of this number.
    fn is_due(&self, passing: &Passing, sent: &[Message], number: usize) -> bool
        ensures { result ≡ is_due_by passing.now self.now.delivered.items sent.now number }
    {
        match sent.get(number) {
            Some(message) => !is_marked(&self.delivered, number) && !passing.leaves_alone(message),
            None => false,
        }
    }

    /// The least number from `from` on of a message that the pass delivers: once it has delivered one, mostly it is one
    /// of the next few, or none where these are the last.
    pub(crate) fn next_due(&self, passing: &Passing, sent: &[Message], from: usize) -> Option<usize>
        ensures { (events : List Event) → Fits events sent.now self.now.delivered.items self.now.lines.items →
            result ≡ due_from passing.now events sent.now from }
    {
        if sent.len() <= from.saturating_add(NEAR) {
            return self.next_new(passing, sent, from);
        }
        if from == 0 {
            return self.next_far(passing, sent, from);
        }
        match self.next_near(passing, sent, from) {
            Some(number) => Some(number),
            None => self.next_far(passing, sent, from),
        }
    }

    /// The first of the next few numbers from `from` on whose message the pass delivers.
    fn next_near(&self, passing: &Passing, sent: &[Message], from: usize) -> Option<usize>
        ensures { IfSome result (λ number.
            first_due passing.now self.now.delivered.items from (drop from sent.now) ≡ Some number) }
    {
        let end = sent.len().min(from.saturating_add(NEAR));
        for number in from..end {
            if self.is_due(passing, sent, number) {
                return Some(number);
            }
        }
        None
    }

    /// The least number from `from` on of a message that the pass delivers, by the lines.
    fn next_far(&self, passing: &Passing, sent: &[Message], from: usize) -> Option<usize>
        ensures { (events : List Event) → Fits events sent.now self.now.delivered.items self.now.lines.items →
            result ≡ due_from passing.now events sent.now from }
    {
        match self.next_noted(passing, sent, from) {
            Some(number) if number < self.delivered.len() => Some(number),
            _ => self.next_new(passing, sent, from.max(self.delivered.len())),
        }
    }

    /// The least of the waiting numbers from `from` on whose message the pass delivers.
    fn next_noted(&self, passing: &Passing, sent: &[Message], from: usize) -> Option<usize>
        ensures { (high : ℕ) → AllAscend high self.now.lines.items →
            IsLeast (is_due_by passing.now self.now.delivered.items sent.now) from
            (λ n. InLanes passing.now n self.now.lines.items) result }
    {
        let mut least = None;
        for place in 0..self.lines.len() {
            least = self.or_in(least, &self.lines[place], passing, sent, from);
        }
        least
    }

    /// The least of those so far and of those in one line more.
    fn or_in(
        &self,
        least: Option<usize>,
        line: &Line,
        passing: &Passing,
        sent: &[Message],
        from: usize,
    ) -> Option<usize>
        ensures { (high : ℕ) (lanes : List Lane) → Ascends 0 high line.now.numbers →
            IsLeast (is_due_by passing.now self.now.delivered.items sent.now) from
            (λ n. InLanes passing.now n lanes) least →
            IsLeast (is_due_by passing.now self.now.delivered.items sent.now) from
            (λ n. InLanes passing.now n (lanes ++ line.now ∷ [])) result }
    {
        if line.numbers().is_empty() {
            return least;
        }
        if line.is_left_by(passing) {
            return least;
        }
        earlier(least, self.first_in(line, passing, sent, from))
    }

    /// The first number of the line from `from` on whose message the pass delivers.
    fn first_in(
        &self,
        line: &Line,
        passing: &Passing,
        sent: &[Message],
        from: usize,
    ) -> Option<usize>
        ensures { (high : ℕ) → Ascends 0 high line.now.numbers →
            IsLeast (is_due_by passing.now self.now.delivered.items sent.now) from
            (λ n. In n line.now.numbers) result }
    {
        let numbers = line.numbers();
        self.first_noted(&numbers[first_from(numbers, from)..], passing, sent)
    }

    /// The first of these numbers whose message the pass delivers.
    fn first_noted(&self, numbers: &[usize], passing: &Passing, sent: &[Message]) -> Option<usize>
        ensures { result ≡ find (is_due_by passing.now self.now.delivered.items sent.now) numbers.now }
    {
        for number in numbers {
            if self.is_due(passing, sent, *number) {
                return Some(*number);
            }
        }
        None
    }

    /// The least number from `from` on, waiting or not.
    fn next_new(&self, passing: &Passing, sent: &[Message], from: usize) -> Option<usize>
        ensures { result ≡ first_due passing.now self.now.delivered.items from (drop from sent.now) }
    {
        for number in from..sent.len() {
            if self.is_due(passing, sent, number) {
                return Some(number);
            }
        }
        None
    }

    /// Notes all messages sent. Where memory is refused, some of them may be noted.
    pub(crate) fn note(&mut self, sent: &[Message]) -> Result<(), AllocError>
        ensures all { OnOk result (length sent.now ≤ length self.new.delivered.items) }
        ensures kept { (events : List Event) → Fits events sent.now self.old.delivered.items self.old.lines.items →
            Fits events sent.now self.new.delivered.items self.new.lines.items }
    {
        for number in self.delivered.len()..sent.len() {
            self.note_one(&sent[number])?;
        }
        Ok(())
    }

    /// Notes this message, which is the next.
    fn note_one(&mut self, message: &Message) -> Result<(), AllocError>
        ensures delivered { OnOk result (self.new.delivered.items ≡ self.old.delivered.items ++ false ∷ []) }
        ensures kept { OnOk result ((events : List Event) (sent : List Message) →
            slice_get sent (length self.old.delivered.items) ≡ Some message.now →
            Fits events sent self.old.delivered.items self.old.lines.items →
            Fits events sent self.new.delivered.items self.new.lines.items) }
        ensures err { OnErr result ((self.new.delivered.items ≡ self.old.delivered.items) ×
            (self.new.lines.items ≡ self.old.lines.items)) }
    {
        self.delivered.reserve(1)?;
        self.wait_for(message)?;
        self.delivered.push(false).unwrap();
        Ok(())
    }

    /// The number that is noted next waits, unless its message, which is this one, is for the outside.
    fn wait_for(&mut self, message: &Message) -> Result<(), AllocError>
        ensures delivered { self.new.delivered ≡ self.old.delivered }
        ensures kept { OnOk result ((events : List Event) (sent : List Message) →
            slice_get sent (length self.old.delivered.items) ≡ Some message.now →
            Fits events sent self.old.delivered.items self.old.lines.items →
            Fits events sent (self.old.delivered.items ++ false ∷ []) self.new.lines.items) }
        ensures err { OnErr result (self.new.lines.items ≡ self.old.lines.items) }
    {
        let host = match message.to {
            Addr::Outside => return Ok(()),
            Addr::Coordinator => COORDINATOR,
            Addr::Server(id) => id.index,
        };
        self.line_up(Kind::of(&message.body), message.to, host)?;
        Ok(())
    }

    /// The number that is noted next waits, for a message of this kind to this addressee, on this host.
    fn line_up(&mut self, kind: Kind, to: Addr, host: u8) -> Result<(), AllocError>
        ensures delivered { self.new.delivered ≡ self.old.delivered }
        ensures ok { OnOk result (Joins kind to (length self.old.delivered.items) self.old.lines.items
            self.new.lines.items) }
        ensures err { OnErr result (self.new.lines.items ≡ self.old.lines.items) }
    {
        let class = class_of(kind, host);
        make_room(&mut self.places, class)?;
        let place = self.places[class];
        if place < self.lines.len() && self.lines[place].suits(kind, to) {
            self.lines[place].push(self.delivered.len())?;
            return Ok(());
        }
        self.add_line(kind, to)?;
        self.places[class] = self.lines.len() - 1;
        Ok(())
    }

    /// The number that is noted next waits in a line of its own.
    fn add_line(&mut self, kind: Kind, to: Addr) -> Result<(), AllocError>
        ensures delivered { self.new.delivered ≡ self.old.delivered }
        ensures places { self.new.places.items ≡ self.old.places.items }
        ensures ok { OnOk result (self.new.lines.items ≡ self.old.lines.items ++ record {
          kind = kind;
          to = to;
          numbers = length self.old.delivered.items ∷ [];
        } ∷ []) }
        ensures err { OnErr result (self.new.lines.items ≡ self.old.lines.items) }
    {
        self.lines.reserve(1)?;
        let mut line = Line::new(self.alloc, kind, to);
        line.push(self.delivered.len())?;
        self.lines.push(line).unwrap();
        Ok(())
    }

    /// An event has delivered the message of this number.
    pub(crate) fn deliver(&mut self, number: usize)
        requires { number < length self.old.delivered.items }
        ensures delivered { self.new.delivered.items ≡ slice_set self.old.delivered.items number true }
        ensures lines { self.new.lines ≡ self.old.lines }
    {
        self.delivered[number] = true;
    }

    /// What was delivered waits no longer, in the lines that begin with such a number.
    pub(crate) fn tidy(&mut self)
        ensures delivered { self.new.delivered.items ≡ self.old.delivered.items }
        ensures lines { AreTidied self.old.delivered.items self.old.lines.items self.new.lines.items }
    {
        for place in 0..self.lines.len() {
            self.lines[place].tidy(&self.delivered);
        }
    }
}

/// The first place in these numbers, which rise, of one from `from` on.
fn first_from(numbers: &[usize], from: usize) -> usize
    ensures bound { result ≤ length numbers.now }
    ensures order { (high : ℕ) → Ascends 0 high numbers.now → Ascends from high (drop result numbers.now) }
    ensures all { (high n : ℕ) → Ascends 0 high numbers.now → from ≤ n → In n numbers.now →
        In n (drop result numbers.now) }
{
    numbers.partition_point(|number| *number < from)
}

/// The lesser of two numbers.
fn earlier(one: Option<usize>, other: Option<usize>) -> Option<usize>
    ensures { result ≡ earlier_of one other }
{
    match (one, other) {
        (None, other) => other,
        (Some(number), None) => Some(number),
        (Some(number), Some(next)) => Some(if number < next { number } else { next }),
    }
}

/// What stands for the coordinator in place of a host.
const COORDINATOR: u8 = 64;

/// The place of the line of this kind and host.
fn class_of(kind: Kind, host: u8) -> usize
    ensures { result < 10000 }
{
    usize::from(kind.number()) * 65 + usize::from(host.min(COORDINATOR))
}

/// Makes the list longer than this.
fn make_room(places: &mut Vec<usize>, last: usize) -> Result<(), AllocError>
    requires { last < 10000 }
    ensures { OnOk result (last < length places.new.items) }
{
    if places.len() <= last {
        places.resize(last + 1, 0)?;
    }
    Ok(())
}
