//! What a handle owns. Its functions are proved by hand, and no others.

ghost use Rattle.std.specs.Prelude.{◌≡◌, Bool, true, false};
ghost use Rattle.sevunthi.specs.Held.{held, session_coded};
ghost use Rattle.rc_session.specs.View.{SessionData};

use rc_handles::Loose;
use rc_session::Session;
use std::alloc::Global;
use std::marker::Model;

/// The session at the pointer, where `full`, and else nothing.
#[repr(C)]
#[derive(Drop)]
pub(crate) struct Cell {
    at: *mut u8,
    alloc: Global,
    pub(crate) ghost full: { Bool },
    pub(crate) ghost session: { SessionData } by { session_coded },
}

impl Model for Cell {
    ghost also_owns = { λ c. held c.full c.alloc c.at c.session };
}

impl Cell {
    /// A cell that owns nothing.
    pub(crate) fn none(at: *mut u8, alloc: Global) -> Cell
        ensures { result.full ≡ false }
    {
        Cell { at, alloc }
    }

    /// A cell that owns this.
    pub(crate) fn from_loose(session: Loose<Session, Global>) -> Cell
        ensures { (result.full ≡ true) × (result.session ≡ session.value) }
    {
        let Loose { at, alloc } = session;
        Cell {
            at: at as *mut u8,
            alloc,
        }
    }

    /// What the cell owns.
    pub(crate) fn into_loose(self) -> Loose<Session, Global>
        requires { self.full ≡ true }
        ensures { result.value ≡ self.session }
    {
        let Cell { at, alloc } = self;
        Loose {
            at: at as *mut Session,
            alloc,
        }
    }
}
