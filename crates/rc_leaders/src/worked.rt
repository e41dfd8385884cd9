//! A run of leaders: what is said of them is about something.

ghost use Rattle.rc_leaders.specs.Worked.{ItMayCome, ItTells, ItIsFenced, ItComesBack, ItIsOneLife};

/// Term 1 is fenced in the middle of a work, which is in no store; what the work before it has sent leaves late. Term 2
/// makes a save, of which `head` names the pieces in the end. Term 3 comes back from that, and what its Tick sends
/// leaves behind a transaction that only reads.
pub fn a_leader_is_fenced()
    ensures may { ItMayCome }
    ensures told { ItTells }
    ensures fenced { ItIsFenced }
    ensures back { ItComesBack }
    ensures one { ItIsOneLife }
{}
