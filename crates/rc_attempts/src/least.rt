//! The least pair of each master: a recovery doesn't count open replicas below it.

ghost use Rattle.std.specs.Prelude.{◌≡◌, if◌then◌else◌, OnOk, OnErr, IfOk};
ghost use Rattle.rc_model.specs.Pick.{is_below};
ghost use Rattle.rc_model.specs.Tables.{put_id};
ghost use Rattle.rc_model.specs.Pick.{greater_pair};
ghost use Rattle.rc_model.specs.ServerList.{is_up};
ghost use Rattle.rc_attempts.specs.Lookups.{pair_in};

use indexmap::IndexMap;
use rc_serverlist::ServerList;
use rc_types::{Pair, ServerId};
use std::alloc::AllocError;

/// The least of all pairs.
const LEAST: Pair = Pair { seg: 0, epoch: 0 };

/// The least pair of a master: the least of all pairs where none was committed.
pub fn least_of(least: &IndexMap<ServerId, Pair>, master: ServerId) -> Pair
    ensures { result ≡ pair_in least.now master }
{
    match least.get(&master) {
        Some(pair) => *pair,
        None => LEAST,
    }
}

/// Takes a commit of a master that is up, and says whether it is: its least pair becomes the greater of the two. A pair
/// of a master that isn't up is not taken. Only memory can be refused (F1), and then nothing has changed.
pub fn raise_if_up(
    least: &mut IndexMap<ServerId, Pair>,
    servers: &ServerList,
    master: ServerId,
    pair: Pair,
) -> Result<bool, AllocError>
    ensures said { IfOk result (λ taken. taken ≡ is_up servers.now master) }
    ensures pairs { OnOk result (pair_in least.new ≡ (if is_up servers.now master
        then put_id (pair_in least.old) master (greater_pair (pair_in least.old master) pair)
        else pair_in least.old)) }
    ensures err { OnErr result (least.new.entries ≡ least.old.entries) }
{
    if !servers.is_up(master) {
        return Ok(false);
    }
    raise(least, master, pair)?;
    Ok(true)
}

/// Takes a commit: the master's least pair becomes the greater of the two.
fn raise(
    least: &mut IndexMap<ServerId, Pair>,
    master: ServerId,
    pair: Pair,
) -> Result<(), AllocError>
    ensures ok { OnOk result (pair_in least.new ≡ put_id (pair_in least.old) master
        (greater_pair (pair_in least.old master) pair)) }
    ensures err { OnErr result (least.new.entries ≡ least.old.entries) }
{
    let greater = greater_pair(least_of(least, master), pair);
    least.insert(master, greater)?;
    Ok(())
}

/// The greater of two pairs.
fn greater_pair(a: Pair, b: Pair) -> Pair
    ensures { result ≡ greater_pair a b }
{
    if is_below(a, b) { b } else { a }
}

/// Whether the pair is below the other: by segment, then by epoch.
fn is_below(pair: Pair, other: Pair) -> bool
    ensures { result ≡ is_below pair other }
{
    pair.seg < other.seg || (pair.seg == other.seg && pair.epoch < other.epoch)
}
