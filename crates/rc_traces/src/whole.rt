//! What the members of a trace say, a member at a time, and a message at a time.

ghost use Rattle.std.specs.Prelude.{◌≡◌, ◌<◌, ℕ, Some, None, Err, IfOk};
ghost use Rattle.rc_reading.specs.declared.faults.ReadFault.TheVariants.{BadInput};
ghost use Rattle.rc_traces.specs.Listed.{listed};
ghost use Rattle.rc_traces.specs.Trace.{trace_of};
ghost use Rattle.rc_traces.specs.Whole.{top_named, top_noted, top_of, trace_by};
ghost use Rattle.rc_reading.specs.Ahead.{data_at, says};

use crate::codes::Codes;
use crate::listed::Listed;
use json::Reader;
use rc_reading::ReadFault;
use rc_reading::lists::{Said, read_list};
use rc_reading::objects::{Object, read_object};
use rc_reading::tokens::pass;
use rc_reading::wanted::number;
use rc_types::Message;
use std::alloc::Global;
use std::marker::PhantomData;

/// A member of a trace.
#[derive(Clone, Copy)]
pub(crate) enum TopName {
    Format,
    Messages,
}

impl TopName {
    fn named(name: &str) -> Option<TopName>
        ensures { result ≡ top_named name.now }
    {
        match name {
            "format" => Some(TopName::Format),
            "messages" => Some(TopName::Messages),
            _ => None,
        }
    }
}

/// What the members of a trace say so far, of whose messages it has what `R` reads of them; the last of equal names
/// counts. A member that is absent and one that says nothing right are both `None`.
#[derive(Drop)]
pub(crate) struct Top<R> {
    /// Whether a trace has all the members that have come.
    only: bool,
    format: Option<u64>,
    messages: Option<Listed>,
    kept_by: PhantomData<R>,
}

impl<R: Said<Message>> Object for Top<R> {
    ghost of = { top_of R.said };

    ghost noted = { λ k. top_noted R.said (top_named k) };

    fn none(_alloc: Global) -> Top<R> {
        Top {
            only: true,
            format: None,
            messages: None,
            kept_by: PhantomData,
        }
    }

    fn take(
        &mut self,
        alloc: Global,
        name: &str,
        reader: &mut Reader<'_>,
        depth: usize,
    ) -> Result<(), ReadFault> {
        match TopName::named(name) {
            Some(TopName::Format) => self.format = number(reader, depth, 1, 1)?,
            Some(TopName::Messages) => {
                let none = Listed::Coded(Codes::new(alloc));
                self.messages = read_list::<R, _>(none, alloc, reader, depth)?;
            }
            None => {
                self.only = false;
                pass(reader, depth)?;
            }
        }
        Ok(())
    }
}

impl<R> Top<R> {
    /// The messages that the members say, or the place that is wrong.
    fn trace(self) -> Listed
        ensures { result ≡ trace_by self }
    {
        if !self.only || self.format.is_none() {
            return Listed::Wrong(1);
        }
        match self.messages {
            Some(messages) => messages,
            None => Listed::Wrong(1),
        }
    }
}

/// The messages of the trace that the value that comes next is, as `R` reads them, or the place of it that is wrong.
pub(crate) fn trace<R: Said<Message> + Drop>(
    alloc: Global,
    reader: &mut Reader<'_>,
    depth: usize,
) -> Result<Listed, ReadFault>
    ensures ok { IfOk result (λ found. says (λ d. listed (trace_of R.said d)) depth reader.old ≡ Some
        (found, reader.new)) }
    ensures bad { (place : ℕ) → result ≡ Err (BadInput place) → (place ≡ 0) × (data_at depth reader.old ≡ None) }
{
    let top: Option<Top<R>> = read_object(alloc, reader, depth)?;
    Ok(top.map_or(Listed::Wrong(1), Top::trace))
}
