//! The tree of tablets: splits, look-ups, marks and owners.

use crate::lines::{Desk, FIRST, Numbers, Page, up_or_crashed};
use rc_rangetree::RangeTree;
use rc_types::limits::LAST_KEY;
use rc_types::{Fault, KeyRange, Tablet};
use std::alloc::Global;

/// A tree in ordinary memory.
pub type Tree = RangeTree<Global>;

/// One command for the tree.
pub fn take(tree: &mut Tree, command: &str, desk: &mut Desk) -> Result<(), Fault> {
    let Desk { numbers, page, .. } = desk;
    match command {
        "create" => page.done(tree.create(numbers.long(), FIRST, 1))?,
        "split" => page.done(tree.split(numbers.long(), numbers.next()))?,
        "find" => find(tree, numbers.long(), numbers.next(), page),
        "crash" => write!(page, " {} marked", tree.mark_crashed(numbers.id())),
        "assign" => page.done(tree.assign(numbers.range(), numbers.id(), numbers.long()))?,
        "list" => write_tablets(tree.tablets(desk.alloc)?.as_slice(), page),
        "owned" => {
            let owned = tree.tablets_of(desk.alloc, numbers.id())?;
            write_tablets(owned.as_slice(), page);
        }
        "copy" => {
            *tree = tree.try_clone_in(desk.alloc)?;
            write_tablets(tree.tablets(desk.alloc)?.as_slice(), page);
        }
        _ => take_many(tree, command, desk)?,
    }
    Ok(())
}

/// One command for a tree of many tablets.
fn take_many(tree: &mut Tree, command: &str, desk: &mut Desk) -> Result<(), Fault> {
    let Desk { numbers, page, .. } = desk;
    match command {
        "depth" => write!(page, " {}", tree.depth()),
        "tables" => tables(tree, numbers, page)?,
        "look-up" => look_up_tables(tree, numbers, page),
        "split-upwards" => split_all(tree, true, desk)?,
        "split-downwards" => split_all(tree, false, desk)?,
        "singles" => singles(tree, numbers, page),
        "between" => {
            let least = numbers.size();
            page.yes(" ", least <= tree.depth() && tree.depth() <= numbers.size());
        }
        _ => page.put(" no such command"),
    }
    Ok(())
}

/// The tablet of a key; both look-ups have to find the same one.
fn find(tree: &Tree, table: u32, key: u64, page: &mut Page) {
    let (counted, _) = tree.find_counted(table, key);
    match (tree.find(table, key), counted) {
        (Some(found), Some(other)) => {
            write_tablet(&found, page);
            page.yes(" twice ", found.range.lo == other.range.lo);
        }
        (None, None) => page.put(" none"),
        _ => page.put(" one look-up found it"),
    }
}

/// A tablet: table, first and last key, owner, term, and whether the owner has crashed.
fn write_tablet(tablet: &Tablet, page: &mut Page) {
    let KeyRange { table, lo, hi } = tablet.range;
    write!(page, " [{table} {lo} {hi} {}", tablet.owner);
    let up = up_or_crashed(!tablet.crashed);
    write!(page, " term {} {up}]", tablet.term);
}

fn write_tablets(tablets: &[Tablet], page: &mut Page) {
    for tablet in tablets {
        write_tablet(tablet, page);
    }
}

/// Creates the tables from the first to the last, and writes after each how deep the tree is. One that is refused
/// memory is created again at once, where the tree is as deep as before.
fn tables(tree: &mut Tree, numbers: &mut Numbers, page: &mut Page) -> Result<(), Fault> {
    for table in numbers.long()..=numbers.long() {
        let before = tree.depth();
        if tree.create(table, FIRST, 1).is_err() && tree.depth() == before {
            tree.create(table, FIRST, 1)?;
        }
        write!(page, " {}", tree.depth());
    }
    Ok(())
}

/// How many of these tables are one tablet, found in no more steps than the tree is deep.
fn look_up_tables(tree: &Tree, numbers: &mut Numbers, page: &mut Page) {
    let mut count = 0u64;
    for table in numbers.long()..=numbers.long() {
        let (found, forks) = tree.find_counted(table, 5);
        let spans = found.is_some_and(|tablet| tablet.range == KeyRange::all_keys(table));
        count = count.saturating_add(u64::from(spans && forks <= tree.depth()));
    }
    write!(page, " {count}");
}

/// Splits a table at each key from the first to the last, or the other way round, and counts the tablets.
fn split_all(tree: &mut Tree, upwards: bool, desk: &mut Desk) -> Result<(), Fault> {
    let table = desk.numbers.long();
    let first = desk.numbers.next();
    let last = desk.numbers.next();
    for step in 0..=last.saturating_sub(first) {
        let at = if upwards {
            first.saturating_add(step)
        } else {
            last.saturating_sub(step)
        };
        match tree.split(table, at) {
            Err(Fault::OutOfMemory) => return Err(Fault::OutOfMemory),
            _ => {}
        }
    }
    let count = tree.tablets(desk.alloc)?.len();
    write!(desk.page, " {count} tablets");
    Ok(())
}

/// How many of the keys from 0 to the last have a tablet of their own, which for the last key goes on to the last of
/// all; and whether the deepest of them lies as deep as the tree.
fn singles(tree: &Tree, numbers: &mut Numbers, page: &mut Page) {
    let table = numbers.long();
    let last = numbers.next();
    let mut count = 0u64;
    let mut most = 0usize;
    for key in 0..=last {
        let (found, forks) = tree.find_counted(table, key);
        most = most.max(forks);
        let hi = if key == last { LAST_KEY } else { key };
        let range = KeyRange { table, lo: key, hi };
        let single = found.is_some_and(|tablet| tablet.range == range);
        count = count.saturating_add(u64::from(single));
    }
    write!(page, " {count}");
    page.yes(", deepest ", most == tree.depth());
}
