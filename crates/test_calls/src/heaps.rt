//! Trees in a `LocalHeap`, which takes one block of ordinary memory. Each allocation of a call is refused in
//! turn: the call is made in a heap in which a filler leaves more and more room, until there is enough for all
//! of it. Up to there the call answers F1, the tree is as before, and what was taken is given back.

use linked_list_allocator::LocalHeap;
use rc_rangetree::RangeTree;
use rc_rangetree::limits::MAX_FORKS;
use rc_types::{Code, Fault, ServerId, Tablet};
use std::alloc::Allocator;
use std::process::Abort;
use std::test::Fail;

/// The value of a call that may find no memory; once refused, the call is made again.
macro_rules! again {
    ($rt:expr; $call:expr) => {
        match $call {
            Ok(value) => value,
            Err(_) => {
                println!($rt; "refused")?;
                $call?
            }
        }
    };
}

/// The bytes of a heap, many more than a tree of these tests takes.
const HEAP: usize = 16_384;

/// A filler leaves a multiple of this room: less than the least block that a tree takes.
const STEP: usize = 48;

const OWNER: ServerId = ServerId {
    index: 0,
    generation: 1,
};

/// A change of a tree.
#[derive(Clone, Copy)]
enum Change {
    Split(u64),
    Create(u32),
}

impl Change {
    fn make<A: Allocator + Clone>(self, tree: &mut RangeTree<A>) -> Result<(), Fault> {
        match self {
            Change::Split(at) => tree.split(7, at),
            Change::Create(table) => tree.create(table, OWNER, 1),
        }
    }
}

/// What became of a change where there was only so much room.
#[derive(Clone, Copy)]
enum Outcome {
    /// There was no memory for the tree itself.
    NoTree,
    /// There was no memory for the change.
    Refused,
    /// The change was made.
    Made,
}

/// A tablet by what the changes touch: its table, and its first and last key.
fn range(tablet: Tablet) -> (u32, u64, u64) {
    (tablet.range.table, tablet.range.lo, tablet.range.hi)
}

/// Both trees have the same tablets below as many forks.
fn same<A: Allocator + Clone, B: Allocator + Clone, R: Abort>(
    rt: &R,
    tree: &RangeTree<A>,
    other: &RangeTree<B>,
) {
    assert_eq!(rt; tree.depth(), other.depth());
    for table in 6..10u32 {
        for key in 0..30u64 {
            let (found, forks) = tree.find_counted(table, key);
            let (expected, count) = other.find_counted(table, key);
            assert_eq!(rt; forks, count);
            assert_eq!(rt; found.map(range), expected.map(range));
        }
    }
}

/// Copies the tree into the heap and changes the copy. Where memory is refused, nothing has changed.
fn change_in<R: Abort>(
    rt: &R,
    heap: &LocalHeap,
    before: &RangeTree<&LocalHeap>,
    change: Change,
    after: &RangeTree<&LocalHeap>,
) -> Outcome {
    let filled = heap.used();
    let Ok(mut copy) = before.try_clone_in(heap) else {
        assert_eq!(rt; heap.used(), filled);
        return Outcome::NoTree;
    };
    same(rt, &copy, before);
    let used = heap.used();
    match change.make(&mut copy) {
        Ok(()) => {
            same(rt, &copy, after);
            Outcome::Made
        }
        Err(fault) => {
            assert_eq!(rt; fault.code().number(), Code::OutOfMemory.number());
            assert_eq!(rt; heap.used(), used);
            same(rt, &copy, before);
            Outcome::Refused
        }
    }
}

/// Makes the change where there is more and more room, until it goes through. It takes so many
/// allocations, and each is refused at least once.
fn in_turn<R: Abort + Print + AllocGlobal>(
    rt: &R,
    before: &RangeTree<&LocalHeap>,
    change: Change,
    allocations: usize,
) -> Result<(), Fail> {
    let ample = again!(rt; LocalHeap::new(rt.alloc(), HEAP));
    let mut after = before.try_clone_in(&ample)?;
    change.make(&mut after)?;
    let heap = again!(rt; LocalHeap::new(rt.alloc(), HEAP));
    let mut refused = 0usize;
    for room in 1..HEAP / STEP {
        let filler: Vec<u8, &LocalHeap> = Vec::with_capacity(&heap, HEAP - STEP * room)?;
        match change_in(rt, &heap, before, change, &after) {
            Outcome::NoTree => {}
            Outcome::Refused => refused = refused.saturating_add(1),
            Outcome::Made => break,
        }
        drop(filler);
        assert_eq!(rt; heap.used(), 0);
    }
    assert!(rt; allocations <= refused);
    Ok(())
}

/// A tree of table 7. Each split is of the last tablet, so that it lies below one fork more.
fn chain(heap: &LocalHeap, splits: u64) -> Result<RangeTree<&LocalHeap>, Fault> {
    let mut tree = RangeTree::new_in(heap);
    tree.create(7, OWNER, 1)?;
    for at in 0..splits {
        tree.split(7, at + 1)?;
    }
    Ok(tree)
}

#[test]
fn of_a_fork(rt: HostRuntime) -> Result<(), Fail> {
    let heap = again!(&rt; LocalHeap::new(rt.alloc(), HEAP));
    {
        let tree = chain(&heap, 3)?;
        assert_eq!(rt; tree.depth(), 3);
        in_turn(&rt, &tree, Change::Split(9), 2)?;
        in_turn(&rt, &tree, Change::Create(8), 2)?;
    }
    assert_eq!(rt; heap.used(), 0);
    Ok(())
}

/// The tree is built anew: its list, forty boxes for 21 tablets, and the two of the new fork.
#[test]
fn of_a_rebuilding(rt: HostRuntime) -> Result<(), Fail> {
    let heap = again!(&rt; LocalHeap::new(rt.alloc(), HEAP));
    {
        let tree = chain(&heap, 20)?;
        assert_eq!(rt; tree.depth(), MAX_FORKS);
        in_turn(&rt, &tree, Change::Split(21), 43)?;
        in_turn(&rt, &tree, Change::Create(8), 43)?;
    }
    assert_eq!(rt; heap.used(), 0);
    Ok(())
}
