//! The tree of all tablets.

ghost use Rattle.std.specs.Prelude.{◌≡◌, ◌≤◌, ◌↔◌, false, [], is_some, OnOk, OnErr, IfOk, Ok, Err, Some};
ghost use Rattle.std.specs.Prelude.{if◌then◌else◌, length};
ghost use Rattle.rc_types.specs.declared.faults.Fault.TheVariants.{NoTable};
ghost use Rattle.rc_model.specs.Tablets.{tablet_of, has_table, tablets_of, with_table, marked_crashed, count_to_mark};
ghost use Rattle.rc_model.specs.Tablets.{split_at, has_range, assigned};
ghost use Rattle.rc_rangetree.specs.Ranges.{AreTablets};
ghost use Rattle.rc_rangetree.specs.Refusals.{Answers, create_refusal, split_refusal, tablet_split_refusal};
ghost use Rattle.rc_rangetree.specs.Trees.{depth, forks_passed};

use crate::limits::MAX_FORKS;
use crate::nodes::{Node, balanced};
use crate::points::Point;
use rc_types::limits::MAX_TABLETS;
use rc_types::{Fault, KeyRange, ServerId, Tablet};
use std::alloc::{AllocError, Allocator, Global};
use std::marker::Model;

/// The tablets of all tables. Contracts see the list of them, in order of table and first key: the
/// ranges don't overlap, each table that is there is covered from its first key to its last, and
/// there are at most 1,024 tablets. They also see how many forks of the tree lie above each tablet:
/// at most 20. Calls go down the tree by recursion. A `create` or `split` that would put a tablet
/// below one fork more builds the tree anew, in memory for a list of the tablets and a second tree,
/// and then gives the list and the old tree back.
///
/// A call that is refused leaves the same tree.
pub struct RangeTree<A: Allocator> {
    alloc: A,
    root: Node<A>,
    count: usize,
}

impl<A: Allocator> Drop for RangeTree<A> {
    fn drop(self) {
        let RangeTree {
            alloc: _,
            root: _,
            count: _,
        } = self;
    }
}

impl<A: Allocator> Model for RangeTree<A> {
    ghost use Rattle.rc_rangetree.specs.Trees.{Tree};

    ghost Value = { Tree };

    ghost use Rattle.rc_rangetree.specs.Nodes.{tree_at, IsTree};

    ghost view = { λ tree. tree_at tree.root };

    ghost invariant = { λ tree. IsTree tree.root tree.count };
}

impl<A: Allocator + Clone> RangeTree<A> {
    /// A tree with no tablets. It takes memory of this allocator once there are two.
    pub fn new_in(alloc: A) -> Self
        ensures { result ≡ record { tablets = []; forks = [] } }
    {
        RangeTree {
            alloc,
            root: Node::Empty,
            count: 0,
        }
    }

    /// A tree of these tablets, in which no way down is longer than it has to be. Whether a tree can have them
    /// `are_tablets` says. Where memory is refused, what was taken for the tree is given back.
    ///
    /// # Errors
    ///
    /// F1 where memory is refused.
    pub fn from_tablets(alloc: A, tablets: &[Tablet]) -> Result<Self, AllocError>
        requires { AreTablets tablets.now }
        ensures { IfOk result (λ tree. tree.tablets ≡ tablets.now) }
    {
        let root = balanced(&alloc, tablets)?;
        Ok(RangeTree {
            alloc,
            root,
            count: tablets.len(),
        })
    }

    /// The tablet that holds the key. There is one for each key of a table that is there. It takes
    /// no memory.
    pub fn find(&self, table: u32, key: u64) -> Option<Tablet>
        ensures value { result ≡ tablet_of self.now.tablets table key }
        ensures covered { is_some result ≡ has_table self.now.tablets table }
        ensures are_tablets { AreTablets self.now.tablets }
    {
        self.find_counted(table, key).0
    }

    /// The tablet that holds the key, and how many forks the search for it passed: those above this
    /// tablet. Where no tablet holds the key, they are those above the last tablet that begins
    /// before it, or above the first tablet. It takes no memory.
    #[tactic(auto, using(crate::proofs::Covered::covered))]
    pub fn find_counted(&self, table: u32, key: u64) -> (Option<Tablet>, usize)
        ensures value { result.0 ≡ tablet_of self.now.tablets table key }
        ensures covered { is_some result.0 ≡ has_table self.now.tablets table }
        ensures counted { result.1 ≡ forks_passed table key self.now }
        ensures within { result.1 ≤ depth self.now }
        ensures shallow { depth self.now ≤ MAX_FORKS }
        ensures are_tablets { AreTablets self.now.tablets }
    {
        self.root.find_counted(Point { table, key })
    }

    /// The greatest number of forks on the way from the root to a tablet: at most 20. It takes no
    /// memory.
    pub fn depth(&self) -> usize
        ensures value { result ≡ depth self.now }
        ensures shallow { result ≤ MAX_FORKS }
    {
        self.root.depth()
    }

    /// How many tablets there are. It takes no memory, and no walk.
    pub fn count(&self) -> usize
        ensures { result ≡ length self.now.tablets }
    {
        self.count
    }

    /// All tablets, in order.
    ///
    /// # Errors
    ///
    /// F1 where memory is refused.
    pub fn tablets(&self, alloc: Global) -> Result<Vec<Tablet>, AllocError>
        ensures list { IfOk result (λ tablets. tablets.items ≡ self.now.tablets) }
        ensures are_tablets { AreTablets self.now.tablets }
    {
        let mut tablets = Vec::with_capacity(alloc, self.count)?;
        self.root.list_into(&mut tablets)?;
        Ok(tablets)
    }

    /// The tablets of one owner, in order.
    ///
    /// # Errors
    ///
    /// F1 where memory is refused.
    pub fn tablets_of(&self, alloc: Global, owner: ServerId) -> Result<Vec<Tablet>, AllocError>
        ensures { IfOk result (λ tablets. tablets.items ≡ tablets_of owner self.now.tablets) }
    {
        let mut tablets = Vec::new(alloc);
        self.root.list_owned_into(owner, &mut tablets)?;
        Ok(tablets)
    }

    /// Adds a table, all of it one tablet.
    ///
    /// # Errors
    ///
    /// F12 where the table is there, else F15 where 1,024 tablets stand, else F1 where memory is
    /// refused.
    pub fn create(&mut self, table: u32, owner: ServerId, term: u32) -> Result<(), Fault>
        ensures list { OnOk result
            (self.new.tablets ≡ with_table table owner term self.old.tablets) }
        ensures refused { Answers (create_refusal table self.old.tablets) result }
        ensures err { OnErr result (self.new ≡ self.old) }
    {
        if self.find(table, 0).is_some() {
            return Err(Fault::TableExists);
        }
        if self.count == MAX_TABLETS {
            return Err(Fault::TooManyTablets);
        }
        let tablet = Tablet {
            range: KeyRange::all_keys(table),
            owner,
            term,
            crashed: false,
        };
        self.root.insert(&self.alloc, tablet, self.count)?;
        self.count += 1;
        Ok(())
    }

    /// Splits the tablet that holds the key: it becomes two of the same owner and term, and the
    /// second begins at the key.
    ///
    /// # Errors
    ///
    /// F13 where no tablet holds the key, else F14 where the key is the first of its tablet, else
    /// F16 where the tablet is marked as crashed, else F15 where 1,024 tablets stand, else F1 where
    /// memory is refused.
    pub fn split(&mut self, table: u32, at: u64) -> Result<(), Fault>
        ensures list { OnOk result (self.new.tablets ≡ split_at table at self.old.tablets) }
        ensures refused { Answers (split_refusal table at self.old.tablets) result }
        ensures no_table { (result ≡ Err NoTable) ↔ (has_table self.old.tablets table ≡ false) }
        ensures err { OnErr result (self.new ≡ self.old) }
    {
        let Some(tablet) = self.find(table, at) else {
            return Err(Fault::NoTable);
        };
        if let Some(fault) = split_refusal(&tablet, at, self.count) {
            return Err(fault);
        }
        self.root.split(&self.alloc, tablet, at, self.count)?;
        self.count += 1;
        Ok(())
    }

    /// Marks all tablets of an owner as crashed. The answer is how many of them were not marked
    /// before. It takes no memory.
    pub fn mark_crashed(&mut self, owner: ServerId) -> usize
        ensures count { result ≡ count_to_mark owner self.old.tablets }
        ensures list { self.new.tablets ≡ marked_crashed owner self.old.tablets }
        ensures forks { self.new.forks ≡ self.old.forks }
    {
        self.root.mark_crashed(owner)
    }

    /// Gives the tablet of exactly this range a new owner and term, and takes its mark away. It
    /// takes no memory.
    ///
    /// # Errors
    ///
    /// F13 where no tablet has exactly this range.
    pub fn assign(&mut self, range: KeyRange, owner: ServerId, term: u32) -> Result<(), Fault>
        ensures list { self.new.tablets ≡ assigned range owner term self.old.tablets }
        ensures forks { self.new.forks ≡ self.old.forks }
        ensures refused { result ≡
            (if has_range range self.old.tablets then Ok tt else Err NoTable) }
        ensures err { OnErr result (self.new ≡ self.old) }
    {
        if self.root.assign(range, owner, term) {
            Ok(())
        } else {
            Err(Fault::NoTable)
        }
    }

    /// The same tablets in another allocator. Where memory is refused, what was taken for the copy
    /// is given back.
    ///
    /// # Errors
    ///
    /// F1 where memory is refused.
    pub fn try_clone_in<B: Allocator + Clone>(&self, alloc: B) -> Result<RangeTree<B>, AllocError>
        ensures { IfOk result (λ copy. copy ≡ self.now) }
    {
        let root = self.root.try_clone_in(&alloc)?;
        Ok(RangeTree {
            alloc,
            root,
            count: self.count,
        })
    }
}

/// Why this tablet, one of so many, is not split at the key, if it is not.
fn split_refusal(tablet: &Tablet, at: u64, count: usize) -> Option<Fault>
    ensures { result ≡ tablet_split_refusal at count (Some tablet.now) }
{
    if tablet.range.lo == at {
        return Some(Fault::BadSplit);
    }
    if tablet.crashed {
        return Some(Fault::Recovering);
    }
    if count == MAX_TABLETS {
        return Some(Fault::TooManyTablets);
    }
    None
}
