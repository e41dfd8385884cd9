//! Runs of `specs/Ordered.antt`, in which reads are confirmed, or can't be.

ghost use Rattle.rc_worked.specs.Ordered.{ThirdOwnerConfirms, ZombieConfirmsNothing, ShownAgainTells};
ghost use Rattle.rc_worked.specs.Ordered.{ShownAgainConfirms};

/// Reads at a second and at a third owner, confirmed by the writes that come after them.
pub fn third_owner()
    ensures { ThirdOwnerConfirms }
{}

/// A master that was replaced can't confirm its read: nobody stores what it writes. Where it could, what it showed
/// would miss a write that the second owner had acknowledged by then.
pub fn zombie_confirms_nothing()
    ensures { ZombieConfirmsNothing }
{}

/// A write that nobody ever acknowledges is shown by the second owner, and again by the third; both are confirmed.
pub fn shown_again()
    ensures told { ShownAgainTells }
    ensures confirmed { ShownAgainConfirms }
{}
