//! What the members of an event say, a member at a time.

ghost use Rattle.std.specs.Prelude.{◌≡◌, ◌<◌, ℕ, [], ◌∷◌, length, Some, None, Err, IfOk, OnOk, OnErr, option_map};
ghost use Rattle.rc_reading.specs.declared.faults.ReadFault.TheVariants.{BadInput};
ghost use Rattle.rc_types.specs.declared.events.Event.TheVariants.{Start, Deliver};
ghost use Rattle.rc_reading.specs.declared.scenarios.ScenarioEvent.TheVariants.{Settle};
ghost use Rattle.rc_reading.specs.Values.{written, table_of, message_of, given2, given3, given4};
ghost use Rattle.rc_reading.specs.Scenario.{event_of, asks_write, asks_read, creates, splits};
ghost use Rattle.rc_reading.specs.Fields.{member_named, narrowed, all_events, noted, fields_of, event_in, allowed};
ghost use Rattle.rc_reading.specs.Fields.{server_in, needed, needed_core, no_event};
ghost use Rattle.rc_reading.specs.Ahead.{data_at, says};

use crate::faults::ReadFault;
use crate::hosts::Hosts;
use crate::kinds::Kinds;
use crate::limits::{LAST_MESSAGE, LAST_TABLE};
use crate::lists::{Said, read_list};
use crate::names::EventName;
use crate::objects::{Object, read_object};
use crate::scenarios::ScenarioEvent;
use crate::simple::Simple;
use crate::taken::NameParts;
use crate::tokens::{pass, simple};
use crate::wanted::{addr, event, host, id, number};
use json::{Invalid, Reader};
use rc_types::limits::LAST_KEY;
use rc_types::{Addr, Body, Event, Kind, Order, Seq, ServerId, Shared};
use std::alloc::Global;

/// A member that some event has.
#[derive(Clone, Copy)]
pub(crate) enum MemberName {
    Event,
    Host,
    Kept,
    Id,
    To,
    Table,
    Key,
    Value,
    Number,
    Kinds,
    Hosts,
    Owner,
    At,
}

impl MemberName {
    /// The member of this name. What a long scenario has most of has one letter.
    fn named(name: &str) -> Option<MemberName>
        ensures { result ≡ member_named name.now }
    {
        if let [letter] = name.as_bytes() {
            return MemberName::of_letter(*letter);
        }
        match name {
            "to" => Some(MemberName::To),
            "table" => Some(MemberName::Table),
            "key" => Some(MemberName::Key),
            "value" => Some(MemberName::Value),
            "id" => Some(MemberName::Id),
            "host" => Some(MemberName::Host),
            "kept" => Some(MemberName::Kept),
            "kinds" => Some(MemberName::Kinds),
            "hosts" => Some(MemberName::Hosts),
            "owner" => Some(MemberName::Owner),
            "at" => Some(MemberName::At),
            _ => None,
        }
    }

    /// The member whose name is this letter.
    fn of_letter(letter: u8) -> Option<MemberName>
        ensures { result ≡ member_named (letter ∷ []) }
    {
        match letter {
            b'e' => Some(MemberName::Event),
            b'n' => Some(MemberName::Number),
            _ => None,
        }
    }
}

/// For each event whether it has all the members that have come.
#[derive(Clone, Copy)]
pub(crate) struct Only {
    start: bool,
    id: bool,
    write: bool,
    read: bool,
    deliver: bool,
    settle: bool,
    create: bool,
    split: bool,
}

impl Only {
    fn all() -> Only
        ensures { result ≡ all_events }
    {
        Only {
            start: true,
            id: true,
            write: true,
            read: true,
            deliver: true,
            settle: true,
            create: true,
            split: true,
        }
    }

    fn none() -> Only
        ensures { result ≡ no_event }
    {
        Only {
            start: false,
            id: false,
            write: false,
            read: false,
            deliver: false,
            settle: false,
            create: false,
            split: false,
        }
    }

    /// Whether this event has all the members that have come.
    fn allows(self, name: EventName) -> bool
        ensures { result ≡ allowed name self }
    {
        match name {
            EventName::Start => self.start,
            EventName::Stop | EventName::Suspect | EventName::Decide | EventName::Tick => self.id,
            EventName::Write => self.write,
            EventName::Read => self.read,
            EventName::Deliver => self.deliver,
            EventName::Settle => self.settle,
            EventName::Create => self.create,
            EventName::Split => self.split,
        }
    }

    /// One more member has come; `None` is one that no event has.
    fn narrow(&mut self, name: Option<MemberName>)
        ensures { self.new ≡ narrowed name self.old }
    {
        let none = Only::none();
        match name {
            Some(MemberName::Event) => {}
            Some(MemberName::Host | MemberName::Kept) => {
                *self = Only {
                    start: self.start,
                    ..none
                };
            }
            Some(MemberName::Id) => *self = Only {
                id: self.id,
                ..none
            },
            Some(MemberName::To | MemberName::Key) => {
                *self = Only {
                    write: self.write,
                    read: self.read,
                    ..none
                };
            }
            Some(MemberName::Table) => {
                *self = Only {
                    write: self.write,
                    read: self.read,
                    create: self.create,
                    split: self.split,
                    ..none
                };
            }
            Some(MemberName::Value) => {
                *self = Only {
                    write: self.write,
                    ..none
                };
            }
            Some(MemberName::Number) => {
                *self = Only {
                    deliver: self.deliver,
                    ..none
                };
            }
            Some(MemberName::Kinds | MemberName::Hosts) => {
                *self = Only {
                    settle: self.settle,
                    ..none
                };
            }
            Some(MemberName::Owner) => {
                *self = Only {
                    create: self.create,
                    ..none
                };
            }
            Some(MemberName::At) => {
                *self = Only {
                    split: self.split,
                    ..none
                };
            }
            None => *self = none,
        }
    }
}

/// What the members of an event say so far; the last of equal names counts. A member that is absent and
/// one that says nothing right are both `None`, but lists that may be left out are empty where they are
/// absent.
#[derive(Drop)]
pub(crate) struct Fields {
    only: Only,
    event: Option<EventName>,
    host: Option<u8>,
    kept: Option<Seq<(ServerId, u16)>>,
    addr: Option<Addr>,
    to: Option<ServerId>,
    table: Option<u32>,
    key: Option<u64>,
    value: Option<Option<Shared<u8>>>,
    number: Option<u32>,
    kinds: Option<Kinds>,
    hosts: Option<Hosts>,
    owner: Option<ServerId>,
    at: Option<u64>,
}

/// A table's name.
fn table(reader: &mut Reader<'_>, depth: usize) -> Result<Option<u32>, Invalid>
    ensures ok { IfOk result (λ table. says table_of depth reader.old ≡ Some (table, reader.new)) }
    ensures shorter { OnOk result (length reader.new < length reader.old) }
    ensures err { OnErr result (data_at depth reader.old ≡ None) }
{
    let table = number(reader, depth, 0, u64::from(LAST_TABLE))?;
    Ok(table.map(|table| table as u32))
}

/// A message's number.
fn message(reader: &mut Reader<'_>, depth: usize) -> Result<Option<u32>, Invalid>
    ensures ok { IfOk result (λ n. says message_of depth reader.old ≡ Some (n, reader.new)) }
    ensures shorter { OnOk result (length reader.new < length reader.old) }
    ensures err { OnErr result (data_at depth reader.old ≡ None) }
{
    let number = number(reader, depth, 0, u64::from(LAST_MESSAGE))?;
    Ok(number.map(|number| number as u32))
}

/// What is written: a text's bytes, or nothing for a deletion.
fn value(
    alloc: Global,
    reader: &mut Reader<'_>,
    depth: usize,
) -> Result<Option<Option<Shared<u8>>>, ReadFault>
    ensures ok { IfOk result (λ value. says written depth reader.old ≡ Some (value, reader.new)) }
    ensures shorter { OnOk result (length reader.new < length reader.old) }
    ensures bad { (place : ℕ) → result ≡ Err (BadInput place) → (place ≡ 0) × (data_at depth reader.old ≡ None) }
{
    match simple(reader, depth)? {
        Simple::Null => Ok(Some(None)),
        Simple::Text(text) => {
            let bytes = text.as_bytes().to_vec(alloc)?;
            Ok(Some(Some(Shared::from_vec(alloc, bytes)?)))
        }
        _ => Ok(None),
    }
}

impl Object for Fields {
    ghost of = { fields_of };

    ghost noted = { λ k. noted (member_named k) };

    fn none(alloc: Global) -> Fields {
        Fields {
            only: Only::all(),
            event: None,
            host: None,
            kept: Some(Seq::new(alloc)),
            addr: None,
            to: None,
            table: None,
            key: None,
            value: None,
            number: None,
            kinds: Some(Kinds::new()),
            hosts: Some(Hosts::new()),
            owner: None,
            at: None,
        }
    }

    fn take(
        &mut self,
        alloc: Global,
        name: &str,
        reader: &mut Reader<'_>,
        depth: usize,
    ) -> Result<(), ReadFault> {
        let name = MemberName::named(name);
        self.only.narrow(name);
        match name {
            Some(MemberName::Event) => self.event = event(reader, depth)?,
            Some(MemberName::Host) => self.host = host(reader, depth)?,
            Some(MemberName::Kept) => self.kept = read_list::<NameParts, _>(
                Seq::new(alloc),
                alloc,
                reader,
                depth,
            )?,
            Some(MemberName::Id) => self.addr = addr(reader, depth)?,
            Some(MemberName::To) => self.to = id(reader, depth)?,
            Some(MemberName::Table) => self.table = table(reader, depth)?,
            Some(MemberName::Key) => self.key = number(reader, depth, 0, LAST_KEY)?,
            Some(MemberName::Value) => self.value = value(alloc, reader, depth)?,
            Some(MemberName::Number) => self.number = message(reader, depth)?,
            Some(MemberName::Kinds) => self.kinds = read_list::<Kind, _>(
                Kinds::new(),
                alloc,
                reader,
                depth,
            )?,
            Some(MemberName::Hosts) => self.hosts = read_list::<u8, _>(
                Hosts::new(),
                alloc,
                reader,
                depth,
            )?,
            Some(MemberName::Owner) => self.owner = id(reader, depth)?,
            Some(MemberName::At) => self.at = number(reader, depth, 0, LAST_KEY)?,
            None => pass(reader, depth)?,
        }
        Ok(())
    }
}

impl Fields {
    /// The server that `id` names; the coordinator is none.
    fn server(&self) -> Option<ServerId>
        ensures { result ≡ server_in self.now.addr }
    {
        match self.addr {
            Some(Addr::Server(id)) => Some(id),
            _ => None,
        }
    }

    /// The event of this name, where the members that it needs say something.
    fn needed(&mut self, name: EventName) -> Option<ScenarioEvent>
        ensures { result ≡ needed name self.old }
    {
        match name {
            EventName::Settle => settle_event(self.kinds, self.hosts),
            _ => self.needed_core(name).map(ScenarioEvent::Core),
        }
    }

    /// The event of the world of this name, which is no pass, where the members that it needs say something.
    fn needed_core(&mut self, name: EventName) -> Option<Event>
        ensures { result ≡ needed_core name self.old }
    {
        match name {
            EventName::Start => start_event(self.host, self.kept.take()),
            EventName::Stop => self.server().map(Event::Stop),
            EventName::Suspect => self.server().map(|id| Event::Order(Order::Suspect(id))),
            EventName::Decide => self.server().map(|id| Event::Order(Order::Decide(id))),
            EventName::Tick => self.addr.map(Event::Tick),
            EventName::Write => write_event(self.to, self.table, self.key, self.value.take()),
            EventName::Read => read_event(self.to, self.table, self.key),
            EventName::Deliver => deliver_event(self.number),
            EventName::Create => create_event(self.table, self.owner),
            EventName::Split => split_event(self.table, self.at),
            EventName::Settle => None,
        }
    }

    /// The event that the members say. What it keeps of them is taken out.
    fn event(&mut self) -> Option<ScenarioEvent>
        ensures { result ≡ event_in self.old }
    {
        match self.event {
            Some(name) if self.only.allows(name) => self.needed(name),
            _ => None,
        }
    }
}

fn start_event(host: Option<u8>, kept: Option<Seq<(ServerId, u16)>>) -> Option<Event>
    ensures { result ≡ given2 Start host kept }
{
    let (Some(host), Some(kept)) = (host, kept) else {
        return None;
    };
    Some(Event::Start { host, kept })
}

fn write_event(
    to: Option<ServerId>,
    table: Option<u32>,
    key: Option<u64>,
    value: Option<Option<Shared<u8>>>,
) -> Option<Event>
    ensures { result ≡ given4 asks_write to table key value }
{
    let to = to?;
    let body = Body::Write {
        table: table?,
        key: key?,
        value: value?,
    };
    Some(Event::Ask { to, body })
}

fn read_event(to: Option<ServerId>, table: Option<u32>, key: Option<u64>) -> Option<Event>
    ensures { result ≡ given3 asks_read to table key }
{
    let to = to?;
    let body = Body::Read {
        table: table?,
        key: key?,
    };
    Some(Event::Ask { to, body })
}

fn deliver_event(number: Option<u32>) -> Option<Event>
    ensures { result ≡ option_map Deliver number }
{
    Some(Event::Deliver(number? as usize))
}

fn settle_event(kinds: Option<Kinds>, hosts: Option<Hosts>) -> Option<ScenarioEvent>
    ensures { result ≡ given2 Settle kinds hosts }
{
    Some(ScenarioEvent::Settle {
        kinds: kinds?,
        hosts: hosts?,
    })
}

fn create_event(table: Option<u32>, owner: Option<ServerId>) -> Option<Event>
    ensures { result ≡ given2 creates table owner }
{
    Some(Event::Order(Order::Create {
        table: table?,
        owner: owner?,
    }))
}

fn split_event(table: Option<u32>, at: Option<u64>) -> Option<Event>
    ensures { result ≡ given2 splits table at }
{
    Some(Event::Order(Order::Split {
        table: table?,
        at: at?,
    }))
}

/// One event of a scenario.
impl Said<ScenarioEvent> for Fields {
    ghost said = { event_of };

    fn read(
        alloc: Global,
        reader: &mut Reader<'_>,
        depth: usize,
    ) -> Result<Option<ScenarioEvent>, ReadFault> {
        let mut fields: Option<Fields> = read_object(alloc, reader, depth)?;
        match &mut fields {
            Some(fields) => Ok(fields.event()),
            None => Ok(None),
        }
    }
}
