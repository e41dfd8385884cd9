//! The tree's nodes. A node is searched from its forks' bounds; what it stands for are its leaves.

ghost use Rattle.std.specs.Prelude.{◌≡◌, ℕ, ◌-◌, ◌<◌, ◌≤◌, ◌^◌, ◌∷◌, [], ◌++◌, length, slice_index, Some, Ok, is_ok};
ghost use Rattle.std.specs.Prelude.{if◌then◌else◌, IfOk, OnOk, OnErr, false, ◌+◌, max, map};
ghost use Rattle.std.specs.List.{count_by};
ghost use Rattle.rc_rangetree.specs.Nodes.{leaves, forks_above, node_depth, is_made, IsSearchTree, HasBounds};
ghost use Rattle.rc_rangetree.specs.Points.{BeginsAt};
ghost use Rattle.rc_rangetree.specs.Trees.{begins_by};
ghost use Rattle.rc_model.specs.Tablets.{tablet_of, has_table, tablets_of, insert_tablet, split_at, is_range};
ghost use Rattle.rc_model.specs.Tablets.{has_range, assigned, marked_crashed, count_to_mark};

use crate::limits::MAX_FORKS;
use crate::points::Point;
use rc_types::limits::MAX_TABLETS;
use rc_types::{KeyRange, ServerId, Tablet};
use std::alloc::{AllocError, Allocator};

/// A tree of tablets: none, one, or those of two ends. The bound of a fork is where the first
/// tablet on its right begins: what comes before it is on the left.
#[derive(Drop)]
pub enum Node<A: Allocator> {
    /// No tablet.
    Empty,
    /// One tablet.
    Leaf(Tablet),
    /// The tablets of the left end, and then those of the right one.
    Fork(Point, Box<Node<A>, A>, Box<Node<A>, A>),
}

impl<A: Allocator> Node<A> {
    /// The tablet that holds the point, and how many forks the search for it passed.
    pub fn find_counted(&self, point: Point) -> (Option<Tablet>, usize)
        requires tree { IsSearchTree self.now }
        requires shallow { node_depth self.now ≤ MAX_FORKS }
        ensures found { result.0 ≡ tablet_of (leaves self.now) point.table point.key }
        ensures counted { result.1 ≡ slice_index (forks_above self.now)
            (count_by (begins_by point.table point.key) (leaves self.now) - 1) }
        ensures within { result.1 ≤ node_depth self.now }
    {
        match self {
            Node::Empty => (None, 0),
            Node::Leaf(tablet) => {
                if tablet.range.holds(point.table, point.key) {
                    (Some(*tablet), 0)
                } else {
                    (None, 0)
                }
            }
            Node::Fork(bound, left, right) => {
                let (tablet, forks) = if point.is_before(*bound) {
                    left.find_counted(point)
                } else {
                    right.find_counted(point)
                };
                (tablet, forks + 1)
            }
        }
    }

    /// The greatest number of forks on a way down.
    pub fn depth(&self) -> usize
        requires { node_depth self.now ≤ MAX_FORKS }
        ensures { result ≡ node_depth self.now }
    {
        match self {
            Node::Empty | Node::Leaf(_) => 0,
            Node::Fork(_, left, right) => left.depth().max(right.depth()) + 1,
        }
    }

    /// Adds the tablets to the list.
    pub fn list_into<B: Allocator>(&self, tablets: &mut Vec<Tablet, B>) -> Result<(), AllocError>
        ensures { OnOk result (tablets.new.items ≡ tablets.old.items ++ leaves self.now) }
    {
        match self {
            Node::Empty => Ok(()),
            Node::Leaf(tablet) => {
                tablets.push(*tablet)?;
                Ok(())
            }
            Node::Fork(_, left, right) => {
                left.list_into(tablets)?;
                right.list_into(tablets)
            }
        }
    }

    /// Adds the owner's tablets to the list.
    pub fn list_owned_into(
        &self,
        owner: ServerId,
        tablets: &mut Vec<Tablet>,
    ) -> Result<(), AllocError>
        ensures { OnOk result
            (tablets.new.items ≡ tablets.old.items ++ tablets_of owner (leaves self.now)) }
    {
        match self {
            Node::Empty => Ok(()),
            Node::Leaf(tablet) => {
                if owner == tablet.owner {
                    tablets.push(*tablet)?;
                }
                Ok(())
            }
            Node::Fork(_, left, right) => {
                left.list_owned_into(owner, tablets)?;
                right.list_owned_into(owner, tablets)
            }
        }
    }

    /// Marks the owner's tablets as crashed, and says how many were not marked yet.
    #[tactic(auto, using(crate::proofs::Appended::joined, crate::proofs::Covered::lengths))]
    pub fn mark_crashed(&mut self, owner: ServerId) -> usize
        requires bounds { HasBounds self.old }
        requires few { length (leaves self.old) ≤ MAX_TABLETS }
        ensures count { result ≡ count_to_mark owner (leaves self.old) }
        ensures marked { leaves self.new ≡ marked_crashed owner (leaves self.old) }
        ensures bounds { HasBounds self.new }
        ensures forks { forks_above self.new ≡ forks_above self.old }
        ensures depth { node_depth self.new ≡ node_depth self.old }
    {
        match self {
            Node::Empty => 0,
            Node::Leaf(tablet) => {
                if owner == tablet.owner && !tablet.crashed {
                    tablet.crashed = true;
                    1
                } else {
                    0
                }
            }
            Node::Fork(_, left, right) => left.mark_crashed(owner) + right.mark_crashed(owner),
        }
    }

    /// Gives the tablet of exactly this range a new owner and term, and says whether there is one.
    #[tactic(auto, using(crate::proofs::Covered::lengths))]
    pub fn assign(&mut self, range: KeyRange, owner: ServerId, term: u32) -> bool
        requires { IsSearchTree self.old }
        ensures found { result ≡ has_range range (leaves self.old) }
        ensures list { leaves self.new ≡ assigned range owner term (leaves self.old) }
        ensures bounds { HasBounds self.new }
        ensures forks { forks_above self.new ≡ forks_above self.old }
        ensures depth { node_depth self.new ≡ node_depth self.old }
    {
        match self {
            Node::Empty => false,
            Node::Leaf(tablet) => {
                let found = tablet.range == range;
                if found {
                    tablet.owner = owner;
                    tablet.term = term;
                    tablet.crashed = false;
                }
                found
            }
            Node::Fork(bound, left, right) => {
                let first = Point {
                    table: range.table,
                    key: range.lo,
                };
                if first.is_before(*bound) {
                    left.assign(range, owner, term)
                } else {
                    right.assign(range, owner, term)
                }
            }
        }
    }
}

/// A fork of these two ends. Where no memory is left for both of them, it takes none.
fn fork<A: Allocator + Clone>(
    alloc: &A,
    bound: Point,
    left: Node<A>,
    right: Node<A>,
) -> Result<Node<A>, AllocError>
    requires { BeginsAt bound (leaves right) × HasBounds left × HasBounds right × (0 < length (leaves left)) }
    ensures list { IfOk result (λ node. leaves node ≡ leaves left ++ leaves right) }
    ensures bounds { IfOk result (λ node. HasBounds node) }
    ensures forks { IfOk result (λ node. forks_above node ≡ map (λ n. n + 1) (forks_above left ++ forks_above right)) }
    ensures depth { IfOk result (λ node. node_depth node ≡ max (node_depth left) (node_depth right) + 1) }
{
    let left = Box::new(alloc.clone()?, left)?;
    let right = Box::new(alloc.clone()?, right)?;
    Ok(Node::Fork(bound, left, right))
}

/// A fork with these two tablets. Where no memory is left for both of its ends, it takes none.
fn fork_of_two<A: Allocator + Clone>(
    alloc: &A,
    low: Tablet,
    high: Tablet,
) -> Result<Node<A>, AllocError>
    ensures tablets { IfOk result (λ node. leaves node ≡ low ∷ high ∷ []) }
    ensures bounds { IfOk result (λ node. HasBounds node) }
    ensures depth { IfOk result (λ node. node_depth node ≡ 1) }
{
    let bound = Point {
        table: high.range.table,
        key: high.range.lo,
    };
    fork(alloc, bound, Node::Leaf(low), Node::Leaf(high))
}

/// The tree of these tablets in which no way down is longer than it has to be. Where no memory is
/// left for all of it, it takes none.
pub fn balanced<A: Allocator + Clone>(alloc: &A, tablets: &[Tablet]) -> Result<Node<A>, AllocError>
    ensures list { IfOk result (λ node. leaves node ≡ tablets.now) }
    ensures bounds { IfOk result (λ node. HasBounds node) }
    ensures depth { IfOk result (λ node.
        (forks : ℕ) → length tablets.now ≤ 2 ^ forks → node_depth node ≤ forks) }
{
    match tablets {
        [] => Ok(Node::Empty),
        [tablet] => Ok(Node::Leaf(*tablet)),
        _ => {
            let middle = tablets.len() / 2;
            let first = tablets[middle];
            let bound = Point {
                table: first.range.table,
                key: first.range.lo,
            };
            let left = balanced(alloc, &tablets[..middle])?;
            let right = balanced(alloc, &tablets[middle..])?;
            fork(alloc, bound, left, right)
        }
    }
}

impl<A: Allocator + Clone> Node<A> {
    /// A tree of the same tablets, of which there are `count`, with room for one more fork above
    /// any of them. Where no memory is left for all of it, it takes none.
    fn rebuilt(&self, alloc: &A, count: usize) -> Result<Node<A>, AllocError>
        requires counted { count ≡ length (leaves self.now) }
        requires few { count ≤ MAX_TABLETS }
        ensures list { IfOk result (λ node. leaves node ≡ leaves self.now) }
        ensures bounds { IfOk result (λ node. HasBounds node) }
        ensures depth { IfOk result (λ node. node_depth node < MAX_FORKS) }
    {
        let mut tablets = Vec::with_capacity(alloc.clone()?, count)?;
        self.list_into(&mut tablets)?;
        balanced(alloc, tablets.as_slice())
    }

    /// Puts in a tablet of a table that isn't there yet, and says whether there was room for it: it
    /// goes in where no way down then passes more than `room` forks.
    #[tactic(auto, using(crate::proofs::Covered::lengths))]
    fn insert_within(&mut self, alloc: &A, tablet: Tablet, room: usize) -> Result<bool, AllocError>
        requires tree { IsSearchTree self.old }
        requires new { has_table (leaves self.old) tablet.range.table ≡ false }
        requires shallow { node_depth self.old ≤ room }
        ensures list { leaves self.new ≡
            (if is_made result then insert_tablet tablet (leaves self.old) else leaves self.old) }
        ensures bounds { HasBounds self.new }
        ensures depth { node_depth self.new ≤ room }
        ensures unchanged { is_made result ≡ false → forks_above self.new ≡ forks_above self.old }
        ensures full { result ≡ Ok false → node_depth self.old ≡ room }
    {
        match self {
            Node::Empty => {
                *self = Node::Leaf(tablet);
                Ok(true)
            }
            Node::Leaf(other) => {
                if room == 0 {
                    return Ok(false);
                }
                let (low, high) = if tablet.range.table < other.range.table {
                    (tablet, *other)
                } else {
                    (*other, tablet)
                };
                *self = fork_of_two(alloc, low, high)?;
                Ok(true)
            }
            Node::Fork(bound, left, right) => {
                if tablet.range.table < bound.table {
                    left.insert_within(alloc, tablet, room - 1)
                } else {
                    right.insert_within(alloc, tablet, room - 1)
                }
            }
        }
    }

    /// Splits this tablet, which holds the key and begins before it, so that the second part
    /// begins at the key, and says whether there was room for it: it is split where no way down
    /// then passes more than `room` forks.
    #[tactic(auto, using(crate::proofs::Covered::lengths))]
    fn split_within(
        &mut self,
        alloc: &A,
        tablet: Tablet,
        at: u64,
        room: usize,
    ) -> Result<bool, AllocError>
        requires tree { IsSearchTree self.old }
        requires found { tablet_of (leaves self.old) tablet.range.table at ≡ Some tablet }
        requires inside { tablet.range.lo < at }
        requires shallow { node_depth self.old ≤ room }
        ensures list { leaves self.new ≡
            (if is_made result then split_at tablet.range.table at (leaves self.old) else leaves self.old) }
        ensures bounds { HasBounds self.new }
        ensures depth { node_depth self.new ≤ room }
        ensures unchanged { is_made result ≡ false → forks_above self.new ≡ forks_above self.old }
        ensures full { result ≡ Ok false → node_depth self.old ≡ room }
    {
        match self {
            Node::Empty => Ok(false),
            Node::Leaf(_) => {
                if room == 0 {
                    return Ok(false);
                }
                let low = Tablet {
                    range: KeyRange {
                        hi: at - 1,
                        ..tablet.range
                    },
                    ..tablet
                };
                let high = Tablet {
                    range: KeyRange {
                        lo: at,
                        ..tablet.range
                    },
                    ..tablet
                };
                *self = fork_of_two(alloc, low, high)?;
                Ok(true)
            }
            Node::Fork(bound, left, right) => {
                let point = Point {
                    table: tablet.range.table,
                    key: at,
                };
                if point.is_before(*bound) {
                    left.split_within(alloc, tablet, at, room - 1)
                } else {
                    right.split_within(alloc, tablet, at, room - 1)
                }
            }
        }
    }
}

impl<A: Allocator + Clone> Node<A> {
    /// Puts in a tablet of a table that isn't there yet, where `count` tablets are there. Where a
    /// way down would pass more than `MAX_FORKS` forks, the tree is built anew.
    pub fn insert(&mut self, alloc: &A, tablet: Tablet, count: usize) -> Result<(), AllocError>
        requires tree { IsSearchTree self.old }
        requires new { has_table (leaves self.old) tablet.range.table ≡ false }
        requires shallow { node_depth self.old ≤ MAX_FORKS }
        requires counted { count ≡ length (leaves self.old) }
        requires few { count ≤ MAX_TABLETS }
        ensures list { leaves self.new ≡
            (if is_ok result then insert_tablet tablet (leaves self.old) else leaves self.old) }
        ensures bounds { HasBounds self.new }
        ensures depth { node_depth self.new ≤ MAX_FORKS }
        ensures unchanged { OnErr result (forks_above self.new ≡ forks_above self.old) }
    {
        if self.insert_within(alloc, tablet, MAX_FORKS)? {
            return Ok(());
        }
        let mut root = self.rebuilt(alloc, count)?;
        root.insert_within(alloc, tablet, MAX_FORKS)?;
        *self = root;
        Ok(())
    }

    /// Splits this tablet, which holds the key and begins before it, so that the second part begins
    /// at the key, where `count` tablets are there. Where a way down would pass more than
    /// `MAX_FORKS` forks, the tree is built anew.
    pub fn split(
        &mut self,
        alloc: &A,
        tablet: Tablet,
        at: u64,
        count: usize,
    ) -> Result<(), AllocError>
        requires tree { IsSearchTree self.old }
        requires found { tablet_of (leaves self.old) tablet.range.table at ≡ Some tablet }
        requires inside { tablet.range.lo < at }
        requires shallow { node_depth self.old ≤ MAX_FORKS }
        requires counted { count ≡ length (leaves self.old) }
        requires few { count ≤ MAX_TABLETS }
        ensures list { leaves self.new ≡
            (if is_ok result then split_at tablet.range.table at (leaves self.old) else leaves self.old) }
        ensures bounds { HasBounds self.new }
        ensures depth { node_depth self.new ≤ MAX_FORKS }
        ensures unchanged { OnErr result (forks_above self.new ≡ forks_above self.old) }
    {
        if self.split_within(alloc, tablet, at, MAX_FORKS)? {
            return Ok(());
        }
        let mut root = self.rebuilt(alloc, count)?;
        root.split_within(alloc, tablet, at, MAX_FORKS)?;
        *self = root;
        Ok(())
    }
}

impl<A: Allocator> Node<A> {
    /// The same tree in another allocator. Where no memory is left for all of it, it takes none.
    pub fn try_clone_in<B: Allocator + Clone>(&self, alloc: &B) -> Result<Node<B>, AllocError>
        requires { HasBounds self.now }
        ensures list { IfOk result (λ copy. leaves copy ≡ leaves self.now) }
        ensures bounds { IfOk result (λ copy. HasBounds copy) }
        ensures forks { IfOk result (λ copy. forks_above copy ≡ forks_above self.now) }
        ensures depth { IfOk result (λ copy. node_depth copy ≡ node_depth self.now) }
    {
        match self {
            Node::Empty => Ok(Node::Empty),
            Node::Leaf(tablet) => Ok(Node::Leaf(*tablet)),
            Node::Fork(bound, left, right) => {
                let left = left.try_clone_in(alloc)?;
                let right = right.try_clone_in(alloc)?;
                fork(alloc, *bound, left, right)
            }
        }
    }
}
