//! The numbers of the messages to each node.

ghost use Rattle.std.specs.Prelude.{◌≡◌, ◌+◌, ◌<◌, ◌≤◌, ◌^◌, ◌++◌, List, [], length, nat_le, Some, slice_get};
ghost use Rattle.std.specs.Prelude.{IfOk, OnOk};
ghost use Rattle.std.specs.List.{find};
ghost use Rattle.rc_types.specs.declared.messages.Message.{Message as MessageModel};
ghost use Rattle.rc_model.specs.World.{NodeName};
ghost use Rattle.rc_types.specs.Names.{number_of};
ghost use Rattle.rc_wire.specs.Numbers.{numbers_to, least_to};
ghost use Rattle.rc_wire.specs.Rising.{Rises};
ghost use Rattle.rc_wire.specs.Index.{lists_of, IsIndex, HasRoomFor};
ghost use Rattle.rc_types.specs.declared.ids.TheConstants.{NODE_NUMBERS};

use rc_types::{Message, NodeName};
use std::alloc::{AllocError, Global};

/// How many names of seats there can be: the outside, the coordinator, and 256 hosts.
pub(crate) const NODE_NUMBERS: usize = 258;

/// The numbers of the messages to each node, ascending, by the number of its seat.
#[derive(Drop)]
pub(crate) struct Index {
    lists: Vec<Vec<usize>>,
}

impl Index {
    /// The index of no message.
    pub(crate) fn new(alloc: Global) -> Result<Index, AllocError>
        ensures { IfOk result (λ made. IsIndex (lists_of made) []) }
    {
        let mut lists = Vec::new(alloc);
        for _ in 0..NODE_NUMBERS {
            lists.push(Vec::new(alloc))?;
        }
        Ok(Index { lists })
    }

    /// The numbers to the node of this seat.
    pub(crate) fn numbers(&self, name: NodeName) -> &[usize]
        requires { length (lists_of self.now) ≡ NODE_NUMBERS }
        ensures { slice_get (lists_of self.now) (number_of name) ≡ Some result.now }
    {
        self.lists[name.number()].as_slice()
    }

    /// Makes room for the numbers of these messages. What stands in the index stays.
    ///
    /// # Errors
    ///
    /// Memory was refused.
    pub(crate) fn reserve(&mut self, messages: &[Message]) -> Result<(), AllocError>
        requires { length (lists_of self.old) ≡ NODE_NUMBERS }
        ensures same { lists_of self.new ≡ lists_of self.old }
        ensures room { OnOk result (HasRoomFor self.new messages.now (length messages.now)) }
    {
        for message in messages {
            self.lists[NodeName::at(message.to).number()].reserve(messages.len())?;
        }
        Ok(())
    }

    /// Notes these messages, of which the first has this number.
    pub(crate) fn note(&mut self, first: usize, messages: &[Message])
        requires all { length (lists_of self.old) ≡ NODE_NUMBERS }
        requires room { HasRoomFor self.old messages.now (length messages.now) }
        requires few { first + length messages.now < 2 ^ 64 }
        ensures { (sent : List MessageModel) → IsIndex (lists_of self.old) sent → length sent ≡ first →
            IsIndex (lists_of self.new) (sent ++ messages.now) }
    {
        for (place, message) in messages.iter().enumerate() {
            self.lists[NodeName::at(message.to).number()]
                .push(first + place)
                .unwrap();
        }
    }
}

/// How many of the last numbers are looked at first.
const NEAR: usize = 64;

/// The first of these ascending numbers from `from` on. Where it is among the last of them, which is so where a
/// node has seen all but the newest messages, the cost does not grow with how many there are.
pub(crate) fn first_from(numbers: &[usize], from: usize) -> Option<usize>
    ensures { (name : NodeName) (sent : List MessageModel) → numbers.now ≡ numbers_to name sent →
        result ≡ least_to name from sent }
{
    let (_, last) = numbers.split_at(numbers.len().saturating_sub(NEAR));
    match last {
        [first, ..] if *first < from => least_in(last, from),
        _ => least_in(numbers, from),
    }
}

/// The first of these ascending numbers from `from` on, by halving.
fn least_in(numbers: &[usize], from: usize) -> Option<usize>
    ensures { Rises 0 numbers.now → result ≡ find (λ number. nat_le from number) numbers.now }
{
    number_in(numbers, numbers.partition_point(|number| *number < from))
}

/// The number in this place.
fn number_in(numbers: &[usize], place: usize) -> Option<usize>
    ensures { result ≡ slice_get numbers.now place }
{
    numbers.get(place).copied()
}
