//! A host without its master, written down part by part. Where memory is refused some of the bytes may stand there.

ghost use Rattle.std.specs.Prelude.{◌≡◌, ◌++◌, OnOk};
ghost use Rattle.std.specs.List.{flat_map};
ghost use Rattle.rc_codec.specs.Parts.{two_bytes, listed};
ghost use Rattle.rc_keeping.specs.Order.{IsHeldInOrder, AreHeldInOrder, IsInOrder};
ghost use Rattle.rc_keeping.specs.Saved.{HostSave, replica_code, held_code, backup_code, head_code, coded};

use rc_backup::{Backup, Held};
use rc_codec::Put;
use rc_replica::Replica;
use rc_types::ServerId;
use rc_world::HostHead;
use std::alloc::AllocError;
use std::collections::{BTreeMap, BTreeSet};

/// The number of elements in eight bytes, and each element.
pub(crate) fn put_list<T: Put>(items: &[T], out: &mut Vec<u8>) -> Result<(), AllocError>
    ensures { OnOk result (out.new.items ≡ out.old.items ++ listed T.code items.now) }
{
    items.len().put(out)?;
    put_each(items, out)
}

/// Each element, in order.
fn put_each<T: Put>(items: &[T], out: &mut Vec<u8>) -> Result<(), AllocError>
    ensures { OnOk result (out.new.items ≡ out.old.items ++ flat_map T.code items.now) }
{
    for item in items {
        item.put(out)?;
    }
    Ok(())
}

/// A segment and its replica.
fn put_replica(seg: u16, replica: &Replica, out: &mut Vec<u8>) -> Result<(), AllocError>
    ensures { OnOk result (out.new.items ≡ out.old.items ++ replica_code (seg, replica.now)) }
{
    (seg, replica.epoch(), replica.is_closed()).put(out)?;
    put_list(replica.digest(), out)?;
    put_list(replica.entries(), out)
}

/// Each replica, in order of segment.
fn put_replicas(replicas: &BTreeMap<u16, Replica>, out: &mut Vec<u8>) -> Result<(), AllocError>
    ensures { OnOk result (out.new.items ≡ out.old.items ++ flat_map replica_code replicas.now.entries) }
{
    for (seg, replica) in replicas {
        put_replica(*seg, replica, out)?;
    }
    Ok(())
}

/// Each freed segment, in order.
fn put_freed(freed: &BTreeSet<u16>, out: &mut Vec<u8>) -> Result<(), AllocError>
    ensures { OnOk result (out.new.items ≡ out.old.items ++ flat_map two_bytes freed.now.keys) }
{
    for seg in freed {
        seg.put(out)?;
    }
    Ok(())
}

/// A master, and what is kept of it.
fn put_held(master: ServerId, held: &Held, out: &mut Vec<u8>) -> Result<(), AllocError>
    ensures written { OnOk result (out.new.items ≡ out.old.items ++ held_code (master, held.now)) }
    ensures ordered { OnOk result (IsHeldInOrder held.now) }
{
    (master, held.is_fenced(), held.replicas().len()).put(out)?;
    put_replicas(held.replicas(), out)?;
    held.freed().len().put(out)?;
    put_freed(held.freed(), out)
}

/// How many masters there are, in eight bytes, and each of them.
fn put_masters(table: &BTreeMap<ServerId, Held>, out: &mut Vec<u8>) -> Result<(), AllocError>
    ensures written { OnOk result (out.new.items ≡ out.old.items ++ listed held_code table.now.entries) }
    ensures ordered { OnOk result (IsInOrder table.now.entries) }
{
    table.len().put(out)?;
    put_table(table, out)
}

/// Each master, in order, and what is kept of it.
fn put_table(table: &BTreeMap<ServerId, Held>, out: &mut Vec<u8>) -> Result<(), AllocError>
    ensures written { OnOk result (out.new.items ≡ out.old.items ++ flat_map held_code table.now.entries) }
    ensures ordered { OnOk result (AreHeldInOrder table.now.entries) }
{
    for (master, held) in table {
        put_held(*master, held, out)?;
    }
    Ok(())
}

/// The backup's id, and what it keeps of each master.
fn put_backup(backup: &Backup, out: &mut Vec<u8>) -> Result<(), AllocError>
    ensures written { OnOk result (out.new.items ≡ out.old.items ++ backup_code backup.now) }
    ensures ordered { OnOk result (IsInOrder backup.now.table) }
{
    backup.id().put(out)?;
    put_masters(backup.kept(), out)
}

/// What a host is besides.
fn put_head(head: &HostHead, out: &mut Vec<u8>) -> Result<(), AllocError>
    ensures { OnOk result (out.new.items ≡ out.old.items ++ head_code head.now) }
{
    (head.index, head.setup, head.generation, head.runs).put(out)
}

/// Both, behind the version and the kind.
pub(crate) fn put_host(
    head: &HostHead,
    backup: &Backup,
    out: &mut Vec<u8>,
) -> Result<(), AllocError>
    ensures written { OnOk result (out.new.items ≡
        out.old.items ++ coded (HostSave (record { head = head.now; backup = backup.now }))) }
    ensures ordered { OnOk result (IsInOrder backup.now.table) }
{
    (1u8, 9u8).put(out)?;
    put_head(head, out)?;
    put_backup(backup, out)
}
