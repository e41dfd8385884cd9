//! A place for a node in the caller's memory.

ghost use Rattle.std.specs.Prelude.{◌≡◌, true, false};

use crate::cell::Cell;
use rc_handles::Loose;
use rc_session::Session;
use std::alloc::Global;
use std::mem;
use std::ptr::null_mut;

/// A place for a node in the caller's memory. All zeros is an empty one.
#[repr(C)]
#[derive(Drop)]
pub struct SevunthiNode {
    pub(crate) full: bool,
    pub(crate) cell: Cell,
    ghost agree: { full ≡ cell.full },
}

impl SevunthiNode {
    /// A place with this node.
    pub(crate) fn with(session: Box<Session>) -> SevunthiNode
        ensures full { result.full ≡ true }
        ensures session { result.cell.session ≡ session.value }
    {
        SevunthiNode {
            full: true,
            cell: Cell::from_loose(Loose::of(session)),
        }
    }

    /// An empty one.
    pub(crate) fn empty(alloc: Global) -> SevunthiNode
        ensures { result.full ≡ false }
    {
        let at: *mut u8 = null_mut();
        SevunthiNode {
            full: false,
            cell: Cell::none(at, alloc),
        }
    }

    /// Takes the node out.
    pub(crate) fn take(&mut self, alloc: Global) -> Box<Session>
        requires { self.old.full ≡ true }
        ensures session { result.value ≡ self.old.cell.session }
        ensures empty { self.new.full ≡ false }
    {
        let taken = mem::replace(self, SevunthiNode::empty(alloc));
        taken.cell.into_loose().into_box()
    }
}
