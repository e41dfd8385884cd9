//! Values of JSON where a number, an id, a name or a list is wanted. Each function takes one value whole,
//! and answers what it says, if it says such a thing; or fails where none stands.

ghost use Rattle.std.specs.Prelude.{◌≡◌, ◌<◌, ◌≤◌, length, Some, None, IfOk, OnOk, OnErr, IfSome};
ghost use Rattle.std.specs.Prelude.{option_and_then};
ghost use Rattle.rc_types.specs.declared.limits.TheConstants.{MAX_HOSTS, MAX_FACTOR, LAST_SEGMENT};
ghost use Rattle.serde_json.specs.Find.{as_bool, as_str};
ghost use Rattle.rc_reading.specs.declared.limits.TheConstants.{LAST_GENERATION};
ghost use Rattle.rc_reading.specs.Values.{whole, host_of, id_in, id_of, addr_of, listed};
ghost use Rattle.rc_reading.specs.Values.{factor_of, event_name};
ghost use Rattle.rc_types.specs.Kinds.{kind_named};
ghost use Rattle.rc_reading.specs.Pairs.{both_in, server_id, id_item, name_item};
ghost use Rattle.rc_reading.specs.Ahead.{data_at, items_at, says, told};

use crate::limits::LAST_GENERATION;
use crate::names::EventName;
use crate::pairs::Pair;
use crate::tokens::{begin, pass, simple};
use json::{Invalid, Reader};
use rc_types::limits::{LAST_SEGMENT, MAX_FACTOR, MAX_HOSTS};
use rc_types::{Addr, Kind, ServerId};

/// A whole number from `low` to `high`.
pub fn number(
    reader: &mut Reader<'_>,
    depth: usize,
    low: u64,
    high: u64,
) -> Result<Option<u64>, Invalid>
    ensures ok { IfOk result (λ n. says (whole low high) depth reader.old ≡ Some (n, reader.new)) }
    ensures in_range { IfOk result (λ o. IfSome o (λ n. (low ≤ n) × (n ≤ high))) }
    ensures shorter { OnOk result (length reader.new < length reader.old) }
    ensures err { OnErr result (data_at depth reader.old ≡ None) }
{
    Ok(simple(reader, depth)?.number(low, high))
}

/// The index of a host.
pub(crate) fn host(reader: &mut Reader<'_>, depth: usize) -> Result<Option<u8>, Invalid>
    ensures ok { IfOk result (λ host. says host_of depth reader.old ≡ Some (host, reader.new)) }
    ensures in_range { IfOk result (λ o. IfSome o (λ host. host < MAX_HOSTS)) }
    ensures shorter { OnOk result (length reader.new < length reader.old) }
    ensures err { OnErr result (data_at depth reader.old ≡ None) }
{
    Ok(simple(reader, depth)?.host())
}

/// A number of copies.
pub(crate) fn factor(reader: &mut Reader<'_>, depth: usize) -> Result<Option<u8>, Invalid>
    ensures ok { IfOk result (λ factor. says factor_of depth reader.old ≡ Some (factor, reader.new)) }
    ensures shorter { OnOk result (length reader.new < length reader.old) }
    ensures err { OnErr result (data_at depth reader.old ≡ None) }
{
    let factor = number(reader, depth, 1, u64::from(MAX_FACTOR))?;
    Ok(factor.map(|factor| factor as u8))
}

/// True or false.
pub(crate) fn flag(reader: &mut Reader<'_>, depth: usize) -> Result<Option<bool>, Invalid>
    ensures ok { IfOk result (λ flag. says as_bool depth reader.old ≡ Some (flag, reader.new)) }
    ensures shorter { OnOk result (length reader.new < length reader.old) }
    ensures err { OnErr result (data_at depth reader.old ≡ None) }
{
    Ok(simple(reader, depth)?.flag())
}

/// The name of an event.
pub(crate) fn event(reader: &mut Reader<'_>, depth: usize) -> Result<Option<EventName>, Invalid>
    ensures ok { IfOk result (λ name. says event_name depth reader.old ≡ Some (name, reader.new)) }
    ensures shorter { OnOk result (length reader.new < length reader.old) }
    ensures err { OnErr result (data_at depth reader.old ≡ None) }
{
    let Some(text) = simple(reader, depth)?.text() else {
        return Ok(None);
    };
    Ok(EventName::named(text))
}

/// The name of a kind of bodies.
pub(crate) fn kind(reader: &mut Reader<'_>, depth: usize) -> Result<Option<Kind>, Invalid>
    ensures ok { IfOk result (λ kind. says (λ d. option_and_then kind_named (as_str d)) depth reader.old ≡ Some
        (kind, reader.new)) }
    ensures shorter { OnOk result (length reader.new < length reader.old) }
    ensures err { OnErr result (data_at depth reader.old ≡ None) }
{
    let Some(text) = simple(reader, depth)?.text() else {
        return Ok(None);
    };
    Ok(Kind::named(text))
}

/// One more item of an id's list.
fn id_item(
    so_far: Pair<Option<u8>, Option<u32>>,
    reader: &mut Reader<'_>,
    depth: usize,
) -> Result<Pair<Option<u8>, Option<u32>>, Invalid>
    ensures ok { IfOk result (λ pair. says (id_item so_far) depth reader.old ≡ Some (pair, reader.new)) }
    ensures shorter { OnOk result (length reader.new < length reader.old) }
    ensures err { OnErr result (data_at depth reader.old ≡ None) }
{
    match so_far {
        Pair::Nothing => {
            let index = host(reader, depth)?;
            Ok(Pair::First(index))
        }
        Pair::First(index) => {
            let generation = number(reader, depth, 1, u64::from(LAST_GENERATION))?;
            Ok(Pair::Both(index, generation.map(|generation| generation as u32)))
        }
        Pair::Both(_, _) => {
            pass(reader, depth)?;
            Ok(Pair::More)
        }
        Pair::More => {
            pass(reader, depth)?;
            Ok(Pair::More)
        }
    }
}

/// The id that an index and a generation are.
fn paired_id(pair: Pair<Option<u8>, Option<u32>>) -> Option<ServerId>
    ensures { result ≡ both_in server_id pair }
{
    match pair {
        Pair::Both(Some(index), Some(generation)) => Some(ServerId { index, generation }),
        _ => None,
    }
}

/// The items of an id's list, up to its end.
fn id_items(reader: &mut Reader<'_>, depth: usize) -> Result<Option<ServerId>, Invalid>
    ensures ok { IfOk result (λ id. told (λ ds. id_in (listed ds)) (items_at depth reader.old) ≡ Some
        (id, reader.new)) }
    ensures shorter { OnOk result (length reader.new < length reader.old) }
    ensures err { OnErr result (items_at depth reader.old ≡ None) }
{
    let mut so_far = Pair::Nothing;
    'items: while !reader.take_end_array() {
        so_far = id_item(so_far, reader, depth)?;
    }
    Ok(paired_id(so_far))
}

/// An id, an index and a generation.
pub fn id(reader: &mut Reader<'_>, depth: usize) -> Result<Option<ServerId>, Invalid>
    ensures ok { IfOk result (λ id. says id_of depth reader.old ≡ Some (id, reader.new)) }
    ensures shorter { OnOk result (length reader.new < length reader.old) }
    ensures err { OnErr result (data_at depth reader.old ≡ None) }
{
    match begin(reader, depth)? {
        Some(_) => Ok(None),
        None => id_items(reader, depth - 1),
    }
}

/// An id, or the coordinator, by its letter.
pub(crate) fn addr(reader: &mut Reader<'_>, depth: usize) -> Result<Option<Addr>, Invalid>
    ensures ok { IfOk result (λ addr. says addr_of depth reader.old ≡ Some (addr, reader.new)) }
    ensures shorter { OnOk result (length reader.new < length reader.old) }
    ensures err { OnErr result (data_at depth reader.old ≡ None) }
{
    match begin(reader, depth)? {
        Some(simple) => Ok(simple.letter()),
        None => match id_items(reader, depth - 1)? {
            Some(id) => Ok(Some(Addr::Server(id))),
            None => Ok(None),
        },
    }
}

/// One more item of a kept replica's name.
pub(crate) fn name_item(
    so_far: Pair<Option<ServerId>, Option<u16>>,
    reader: &mut Reader<'_>,
    depth: usize,
) -> Result<Pair<Option<ServerId>, Option<u16>>, Invalid>
    ensures ok { IfOk result (λ pair. says (name_item so_far) depth reader.old ≡ Some (pair, reader.new)) }
    ensures shorter { OnOk result (length reader.new < length reader.old) }
    ensures err { OnErr result (data_at depth reader.old ≡ None) }
{
    match so_far {
        Pair::Nothing => {
            let master = id(reader, depth)?;
            Ok(Pair::First(master))
        }
        Pair::First(master) => {
            let segment = number(reader, depth, 1, u64::from(LAST_SEGMENT))?;
            Ok(Pair::Both(master, segment.map(|segment| segment as u16)))
        }
        Pair::Both(_, _) => {
            pass(reader, depth)?;
            Ok(Pair::More)
        }
        Pair::More => {
            pass(reader, depth)?;
            Ok(Pair::More)
        }
    }
}
