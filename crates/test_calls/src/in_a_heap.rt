//! A tree in a heap of 65,536 bytes answers as one in ordinary memory does, of which a row of parts asks the same.

use linked_list_allocator::LocalHeap;
use rc_rangetree::RangeTree;
use rc_types::{Fault, ServerId, Tablet};
use std::test::Fail;

const OWNER: ServerId = ServerId {
    index: 0,
    generation: 1,
};

/// A key in the middle of all.
const MIDDLE: u64 = 9_223_372_036_854_775_808;

/// The number of the refusal, 0 where there is none.
fn number_of(answer: Result<(), Fault>) -> u8 {
    match answer {
        Ok(()) => 0,
        Err(fault) => fault.code().number(),
    }
}

/// The first and the last key of a tablet.
fn keys(tablet: Tablet) -> (u64, u64) {
    (tablet.range.lo, tablet.range.hi)
}

/// The keys of each tablet of table 7, cut in the middle and before the last key.
const TABLETS: [(u64, u64); 3] = [
    (0, MIDDLE - 1),
    (MIDDLE, u64::MAX - 1),
    (u64::MAX, u64::MAX),
];

#[test]
fn answers_as_in_ordinary_memory(rt: HostRuntime) -> Result<(), Fail> {
    let heap = LocalHeap::new(rt.alloc(), 65_536)?;
    let mut tree = RangeTree::new_in(&heap);
    assert_eq!(rt; number_of(tree.create(7, OWNER, 1)), 0);
    assert_eq!(rt; number_of(tree.create(7, OWNER, 1)), 12);
    for (at, code) in [(0, 14), (MIDDLE, 0), (u64::MAX, 0), (MIDDLE, 14)] {
        assert_eq!(rt; number_of(tree.split(7, at)), code, "at {at}");
    }
    assert_eq!(rt; number_of(tree.split(8, 1)), 13);
    for (lo, hi) in TABLETS {
        assert_eq!(rt; tree.find(7, lo).map(keys), Some((lo, hi)));
        assert_eq!(rt; tree.find(7, hi).map(keys), Some((lo, hi)));
    }
    assert!(rt; tree.find(8, 0).is_none());
    assert_eq!(rt; tree.mark_crashed(OWNER), 3);
    assert_eq!(rt; tree.mark_crashed(OWNER), 0);
    assert_eq!(rt; number_of(tree.split(7, 5)), 16);
    let copy = tree.try_clone_in(rt.alloc())?;
    let (list, copied) = (tree.tablets(rt.alloc())?, copy.tablets(rt.alloc())?);
    assert_eq!(rt; list.len(), 3);
    for (tablets, expected) in list.iter().zip(copied.iter()).zip(TABLETS) {
        assert_eq!(rt; (keys(*tablets.0), keys(*tablets.1)), (expected, expected));
    }
    Ok(())
}
