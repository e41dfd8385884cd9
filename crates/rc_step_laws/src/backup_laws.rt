//! What the steps of a backup keep.

ghost use Rattle.rc_step_laws.specs.BackupClaims.{BackupStepsKeep, RestartsKeep};

/// After each step of a backup each replica is a beginning of what its master has sent, a closed
/// one all of it; what was told of it still stands; and who answered about a master has fenced it.
/// A restart keeps that too.
pub fn backups_keep_the_facts()
    ensures steps { BackupStepsKeep }
    ensures restarts { RestartsKeep }
{}
