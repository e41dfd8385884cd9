//! Segments that are filed under the ids of their members.

ghost use Rattle.std.specs.Prelude.{◌≡◌, ℕ, true, filter, not, OnOk};
ghost use Rattle.std.specs.List.{list_all};
ghost use Rattle.rc_types.specs.declared.ids.ServerId.{ServerId as Id};
ghost use Rattle.rc_model.specs.ServerList.{has_crashed};
ghost use Rattle.rc_headroll.specs.Watching.{has_number, is_under};

use crate::numbers::Numbers;
use indexmap::IndexMap;
use rc_serverlist::ServerList;
use rc_types::{Member, ServerId};
use std::alloc::{AllocError, Global};

/// Files a segment under these members. Where memory is refused, it may be filed under some of them.
pub(crate) fn file_under_all(
    alloc: Global,
    filed: &mut IndexMap<ServerId, Numbers>,
    seg: u16,
    members: &[Member],
) -> Result<(), AllocError>
    ensures filed { OnOk result (list_all (λ member. is_under filed.new.entries member.id seg) members.now ≡ true) }
    ensures others { (id : Id) (other : ℕ) → is_under filed.old.entries id other ≡ true →
        is_under filed.new.entries id other ≡ true }
{
    for member in members {
        file_under(alloc, filed, member.id, seg)?;
    }
    Ok(())
}

/// Files a segment under an id. Where memory is refused, nothing is filed.
fn file_under(
    alloc: Global,
    filed: &mut IndexMap<ServerId, Numbers>,
    id: ServerId,
    seg: u16,
) -> Result<(), AllocError>
    ensures filed { OnOk result (is_under filed.new.entries id seg ≡ true) }
    ensures others { (one : Id) (other : ℕ) → is_under filed.old.entries one other ≡ true →
        is_under filed.new.entries one other ≡ true }
{
    match filed.get_mut(&id) {
        Some(numbers) => numbers.insert(seg),
        None => {
            let mut numbers = Numbers::new(alloc);
            numbers.insert(seg)?;
            filed.insert(id, numbers)?;
            Ok(())
        }
    }
}

/// Adds the segments that are filed under ids which the list shows crashed. Where memory is refused, only some of them
/// are added.
pub(crate) fn wake_crashed(
    awake: &mut Numbers,
    filed: &IndexMap<ServerId, Numbers>,
    servers: &ServerList,
) -> Result<(), AllocError>
    ensures woken { OnOk result ((id : Id) (seg : ℕ) → has_crashed servers.now id ≡ true →
        is_under filed.now.entries id seg ≡ true → has_number awake.new seg ≡ true) }
    ensures others { (seg : ℕ) → has_number awake.old seg ≡ true → has_number awake.new seg ≡ true }
{
    for (id, numbers) in filed {
        if servers.has_crashed(*id) {
            awake.insert_all(numbers)?;
        }
    }
    Ok(())
}

/// Takes the ids off file that the list shows crashed. It takes no memory.
pub(crate) fn forget_crashed(filed: &mut IndexMap<ServerId, Numbers>, servers: &ServerList)
    ensures { filed.new.entries ≡ filter (λ entry. not (has_crashed servers.now entry.0)) filed.old.entries }
{
    filed.retain(|id, _| !servers.has_crashed(*id));
}
