//! What the members of a message say, a member at a time.

ghost use Rattle.std.specs.Prelude.{◌≡◌, ◌<◌, length, Some, None, IfOk, OnOk, OnErr};
ghost use Rattle.rc_traces.specs.Fields.{member_named, all_messages, no_message, narrowed, noted, fields_of, allowed};
ghost use Rattle.rc_traces.specs.Fields.{needed, message_in};
ghost use Rattle.rc_traces.specs.Trace.{nobody, message_of, message_name, place_with, append_with, ok_with, plan_with};
ghost use Rattle.rc_traces.specs.Trace.{own_with};
ghost use Rattle.rc_traces.specs.Values.{given7};
ghost use Rattle.rc_reading.specs.Values.{given3, given4};
ghost use Rattle.rc_reading.specs.Ahead.{data_at, says};

use crate::lists::{EntryParts, RowParts};
use crate::names::MessageName;
use crate::values::{key, number, seg, table};
use json::{Invalid, Reader};
use rc_reading::ReadFault;
use rc_reading::lists::{Said, read_list};
use rc_reading::objects::{Object, read_object};
use rc_reading::tokens::{pass, simple};
use rc_reading::wanted::id;
use rc_types::{Addr, Body, Entry, KeyRange, Message, PlanRow, Seq, ServerId, Shared};
use std::alloc::Global;

/// A member that some message has.
#[derive(Clone, Copy)]
pub(crate) enum MemberName {
    Name,
    From,
    Seg,
    Offset,
    Entries,
    Term,
    Table,
    Key,
    Version,
    Attempt,
    Master,
    Rows,
    To,
    Lo,
    Hi,
    Previous,
}

impl MemberName {
    fn named(name: &str) -> Option<MemberName>
        ensures { result ≡ member_named name.now }
    {
        match name {
            "m" => Some(MemberName::Name),
            "from" => Some(MemberName::From),
            "seg" => Some(MemberName::Seg),
            "offset" => Some(MemberName::Offset),
            "entries" => Some(MemberName::Entries),
            "term" => Some(MemberName::Term),
            "table" => Some(MemberName::Table),
            "key" => Some(MemberName::Key),
            "version" => Some(MemberName::Version),
            "attempt" => Some(MemberName::Attempt),
            "of" => Some(MemberName::Master),
            "rows" => Some(MemberName::Rows),
            "to" => Some(MemberName::To),
            "lo" => Some(MemberName::Lo),
            "hi" => Some(MemberName::Hi),
            "previous" => Some(MemberName::Previous),
            _ => None,
        }
    }
}

/// For each message whether it has all the members that have come.
#[derive(Clone, Copy)]
pub(crate) struct Only {
    place: bool,
    append: bool,
    ok: bool,
    plan: bool,
    own: bool,
}

impl Only {
    fn all() -> Only
        ensures { result ≡ all_messages }
    {
        Only {
            place: true,
            append: true,
            ok: true,
            plan: true,
            own: true,
        }
    }

    fn none() -> Only
        ensures { result ≡ no_message }
    {
        Only {
            place: false,
            append: false,
            ok: false,
            plan: false,
            own: false,
        }
    }

    /// Whether this message has all the members that have come.
    fn allows(self, name: MessageName) -> bool
        ensures { result ≡ allowed name self }
    {
        match name {
            MessageName::Place => self.place,
            MessageName::Append => self.append,
            MessageName::Ok => self.ok,
            MessageName::Plan => self.plan,
            MessageName::Own => self.own,
        }
    }

    /// One more member has come; `None` is one that no message has.
    fn narrowed(self, name: Option<MemberName>) -> Only
        ensures { result ≡ narrowed name self }
    {
        let mut only = Only::none();
        match name {
            Some(MemberName::Name) => only = self,
            Some(MemberName::From | MemberName::Seg) => {
                only.place = self.place;
                only.append = self.append;
                only.ok = self.ok;
            }
            Some(MemberName::Offset) => {
                only.append = self.append;
                only.ok = self.ok;
            }
            Some(MemberName::Entries) => {
                only.place = self.place;
                only.append = self.append;
            }
            Some(MemberName::Term | MemberName::Table) => {
                only.ok = self.ok;
                only.own = self.own;
            }
            Some(MemberName::Key | MemberName::Version) => {
                only.ok = self.ok;
            }
            Some(MemberName::Attempt) => {
                only.plan = self.plan;
                only.own = self.own;
            }
            Some(MemberName::Master | MemberName::Rows) => {
                only.plan = self.plan;
            }
            Some(MemberName::To | MemberName::Lo | MemberName::Hi | MemberName::Previous) => {
                only.own = self.own;
            }
            None => {}
        }
        only
    }
}

/// What the members of a message say so far; the last of equal names counts. A member that is absent and one that
/// says nothing right are both `None`.
#[derive(Drop)]
pub(crate) struct Fields {
    only: Only,
    name: Option<MessageName>,
    from: Option<ServerId>,
    seg: Option<u16>,
    offset: Option<u32>,
    entries: Option<Seq<Entry>>,
    term: Option<u32>,
    table: Option<u32>,
    key: Option<u64>,
    version: Option<u64>,
    attempt: Option<u32>,
    master: Option<ServerId>,
    rows: Option<Seq<PlanRow>>,
    to: Option<ServerId>,
    lo: Option<u64>,
    hi: Option<u64>,
    previous: Option<u32>,
}

/// The name of a message.
fn name(reader: &mut Reader<'_>, depth: usize) -> Result<Option<MessageName>, Invalid>
    ensures ok { IfOk result (λ name. says message_name depth reader.old ≡ Some (name, reader.new)) }
    ensures shorter { OnOk result (length reader.new < length reader.old) }
    ensures err { OnErr result (data_at depth reader.old ≡ None) }
{
    let Some(text) = simple(reader, depth)?.text() else {
        return Ok(None);
    };
    Ok(MessageName::named(text))
}

impl Object for Fields {
    ghost of = { fields_of };

    ghost noted = { λ k. noted (member_named k) };

    fn none(_alloc: Global) -> Fields {
        Fields {
            only: Only::all(),
            name: None,
            from: None,
            seg: None,
            offset: None,
            entries: None,
            term: None,
            table: None,
            key: None,
            version: None,
            attempt: None,
            master: None,
            rows: None,
            to: None,
            lo: None,
            hi: None,
            previous: None,
        }
    }

    fn take(
        &mut self,
        alloc: Global,
        member: &str,
        reader: &mut Reader<'_>,
        depth: usize,
    ) -> Result<(), ReadFault> {
        let member = MemberName::named(member);
        self.only = self.only.narrowed(member);
        match member {
            Some(MemberName::Name) => self.name = name(reader, depth)?,
            Some(MemberName::From) => self.from = id(reader, depth)?,
            Some(MemberName::Seg) => self.seg = seg(reader, depth)?,
            Some(MemberName::Offset) => self.offset = number(reader, depth)?,
            Some(MemberName::Entries) => {
                self.entries = read_list::<EntryParts, _>(Seq::new(alloc), alloc, reader, depth)?;
            }
            Some(MemberName::Term) => self.term = number(reader, depth)?,
            Some(MemberName::Table) => self.table = table(reader, depth)?,
            Some(MemberName::Key) => self.key = key(reader, depth)?,
            Some(MemberName::Version) => self.version = key(reader, depth)?,
            Some(MemberName::Attempt) => self.attempt = number(reader, depth)?,
            Some(MemberName::Master) => self.master = id(reader, depth)?,
            Some(MemberName::Rows) => self.rows = read_list::<RowParts, _>(
                Seq::new(alloc),
                alloc,
                reader,
                depth,
            )?,
            Some(MemberName::To) => self.to = id(reader, depth)?,
            Some(MemberName::Lo) => self.lo = key(reader, depth)?,
            Some(MemberName::Hi) => self.hi = key(reader, depth)?,
            Some(MemberName::Previous) => self.previous = number(reader, depth)?,
            None => pass(reader, depth)?,
        }
        Ok(())
    }
}

impl Fields {
    /// The message of this name, where the members that it needs say something.
    fn needed(self, alloc: Global, name: MessageName) -> Option<Message>
        ensures { result ≡ needed name self }
    {
        match name {
            MessageName::Place => place(self.from, self.seg, self.entries),
            MessageName::Append => append(self.from, self.seg, self.offset, self.entries),
            MessageName::Ok => ok(
                self.from,
                self.seg,
                self.offset,
                self.term,
                self.table,
                self.key,
                self.version,
            ),
            MessageName::Plan => plan(alloc, self.attempt, self.master, self.rows),
            MessageName::Own => own(
                self.to,
                self.table,
                self.lo,
                self.hi,
                self.term,
                self.previous,
                self.attempt,
            ),
        }
    }

    /// The message that the members say.
    fn message(self, alloc: Global) -> Option<Message>
        ensures { result ≡ message_in self }
    {
        match self.name {
            Some(name) if self.only.allows(name) => self.needed(alloc, name),
            _ => None,
        }
    }
}

/// An addressee that a trace doesn't carry.
fn nobody() -> Addr
    ensures { result ≡ nobody }
{
    Addr::Server(ServerId {
        index: 0,
        generation: 0,
    })
}

fn place(from: Option<ServerId>, seg: Option<u16>, entries: Option<Seq<Entry>>) -> Option<Message>
    ensures { result ≡ given3 place_with from seg entries }
{
    Some(Message {
        from: Addr::Server(from?),
        to: nobody(),
        body: Body::Place {
            seg: seg?,
            epoch: 0,
            digest: Shared::empty(),
            entries: entries?,
            closed: false,
        },
    })
}

fn append(
    from: Option<ServerId>,
    seg: Option<u16>,
    offset: Option<u32>,
    entries: Option<Seq<Entry>>,
) -> Option<Message>
    ensures { result ≡ given4 append_with from seg offset entries }
{
    Some(Message {
        from: Addr::Server(from?),
        to: nobody(),
        body: Body::Append {
            seg: seg?,
            offset: offset? as usize,
            entries: entries?,
        },
    })
}

fn ok(
    from: Option<ServerId>,
    seg: Option<u16>,
    offset: Option<u32>,
    term: Option<u32>,
    table: Option<u32>,
    key: Option<u64>,
    version: Option<u64>,
) -> Option<Message>
    ensures { result ≡ given7 ok_with from seg offset term table key version }
{
    Some(Message {
        from: Addr::Server(from?),
        to: Addr::Outside,
        body: Body::WriteOk {
            seg: seg?,
            offset: offset? as usize,
            term: term?,
            table: table?,
            key: key?,
            version: version?,
        },
    })
}

fn plan(
    alloc: Global,
    attempt: Option<u32>,
    master: Option<ServerId>,
    rows: Option<Seq<PlanRow>>,
) -> Option<Message>
    ensures { result ≡ given3 plan_with attempt master rows }
{
    Some(Message {
        from: Addr::Coordinator,
        to: nobody(),
        body: Body::Plan {
            attempt: attempt?,
            master: master?,
            head: 0,
            rows: rows?,
            parts: Seq::new(alloc),
        },
    })
}

fn own(
    to: Option<ServerId>,
    table: Option<u32>,
    lo: Option<u64>,
    hi: Option<u64>,
    term: Option<u32>,
    previous: Option<u32>,
    attempt: Option<u32>,
) -> Option<Message>
    ensures { result ≡ given7 own_with to table lo hi term previous attempt }
{
    Some(Message {
        from: Addr::Coordinator,
        to: Addr::Server(to?),
        body: Body::Own {
            range: KeyRange {
                table: table?,
                lo: lo?,
                hi: hi?,
            },
            term: term?,
            previous: previous?,
            attempt: attempt?,
        },
    })
}

/// One message of a trace.
impl Said<Message> for Fields {
    ghost said = { message_of };

    fn read(
        alloc: Global,
        reader: &mut Reader<'_>,
        depth: usize,
    ) -> Result<Option<Message>, ReadFault> {
        let fields: Option<Fields> = read_object(alloc, reader, depth)?;
        Ok(fields.and_then(|fields| fields.message(alloc)))
    }
}
