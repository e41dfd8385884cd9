//! The runs of `specs/Clients.antt` break none of the sentences that a client may rely on.
//!
//! `specs/Sentences.antt` has a test for each sentence, on the messages of a run. Under a wrong rule of
//! `wrong/rules/` the run that its file names breaks just those sentences that stand there.

ghost use Rattle.rc_worked.specs.Clients.{OwnerChangesKeeps, TwoHandoversKeep, ZombieIsReadKeeps};
ghost use Rattle.rc_worked.specs.Clients.{ZombieIsWrittenKeeps, OneValueTwiceKeeps, WriteRepeatedKeeps};
ghost use Rattle.rc_worked.specs.Clients.{UnstoredWriteKeeps, ReadWhileRecoveringKeeps};

/// A key changes its owner, and its first owner acknowledges late.
pub fn owner_changes()
    ensures { OwnerChangesKeeps }
{}

/// Reads at a second owner, and at a third one.
pub fn two_handovers()
    ensures { TwoHandoversKeep }
{}

/// A read at a master that was replaced.
pub fn zombie_is_read()
    ensures { ZombieIsReadKeeps }
{}

/// A write at a master that was replaced.
pub fn zombie_is_written()
    ensures { ZombieIsWrittenKeeps }
{}

/// One value at two owners.
pub fn one_value_twice()
    ensures { OneValueTwiceKeeps }
{}

/// A Write that comes twice.
pub fn write_repeated()
    ensures { WriteRepeatedKeeps }
{}

/// A write that is stored nowhere but at its master.
pub fn unstored_write()
    ensures { UnstoredWriteKeeps }
{}

/// Reads at a recovery master.
pub fn read_while_recovering()
    ensures { ReadWhileRecoveringKeeps }
{}
