//! `rc_rangetree`.

use crate::calls::values::{KEY, OTHER, OWNER, RANGE, TABLE};
use crate::lines::{Page, up_or_crashed};
use rc_rangetree::RangeTree;
use rc_types::{Fault, Tablet};
use std::alloc::Global;

/// The calls of a tree of tablets: a table is created and split, its owner crashes, and a tablet is assigned.
pub fn of_a_tree(alloc: Global, page: &mut Page) -> Result<(), Fault> {
    let mut tree = RangeTree::new_in(alloc);
    write!(page, "\n    new_in: {} tablets", tree.count());
    page.put("\n    create 7 for 0.1:");
    page.done(RangeTree::create(&mut tree, TABLE, OWNER, 1))?;
    page.put("\n    split at 9:");
    page.done(RangeTree::split(&mut tree, TABLE, 9))?;
    write_tablets(
        "find 5",
        RangeTree::find(&tree, TABLE, KEY).as_slice(),
        page,
    );
    let (found, steps) = RangeTree::find_counted(&tree, TABLE, KEY);
    write_tablets("find_counted 5", found.as_slice(), page);
    write!(page, " in {steps} steps");
    write!(page, "\n    depth: {}", RangeTree::depth(&tree));
    let marked = RangeTree::mark_crashed(&mut tree, OWNER);
    write!(page, "\n    mark_crashed 0.1: {marked}");
    page.put("\n    assign 0 to 8 to 1.1:");
    page.done(RangeTree::assign(&mut tree, RANGE, OTHER, 2))?;
    write_tablets(
        "tablets",
        RangeTree::tablets(&tree, alloc)?.as_slice(),
        page,
    );
    let owned = RangeTree::tablets_of(&tree, alloc, OTHER)?;
    write_tablets("tablets_of 1.1", owned.as_slice(), page);
    let copy = RangeTree::try_clone_in(&tree, alloc)?;
    write!(page, "\n    try_clone_in: {} tablets", copy.count());
    Ok(())
}

/// These tablets.
fn write_tablets(call: &str, tablets: &[Tablet], page: &mut Page) {
    write!(page, "\n    {call}:");
    for tablet in tablets {
        let range = tablet.range;
        write!(page, " {} to {} of {}", range.lo, range.hi, tablet.owner);
        write!(
            page,
            " {} under {}",
            up_or_crashed(!tablet.crashed),
            tablet.term
        );
    }
}
