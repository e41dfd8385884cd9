//! Runs of `specs/Clients.antt`, in which clients write and read: what is told, and what reads show.

ghost use Rattle.rc_worked.specs.Clients.{OwnerChangesTells, OwnerChangesAcknowledges, OwnerChangesShows};
ghost use Rattle.rc_worked.specs.Clients.{TwoHandoversTell, TwoHandoversShow, ZombieIsReadTells, ZombieIsReadShows};
ghost use Rattle.rc_worked.specs.Clients.{ZombieIsWrittenTells, ZombieIsWrittenShows, OneValueTwiceTells};
ghost use Rattle.rc_worked.specs.Clients.{OneValueTwiceShows, WriteRepeatedTells, WriteRepeatedShows};
ghost use Rattle.rc_worked.specs.Clients.{UnstoredWriteTells, UnstoredWriteShows, ReadWhileRecoveringTells};
ghost use Rattle.rc_worked.specs.Clients.{ReadWhileRecoveringShows};

/// A key changes its owner; the second owner shows the value of the first one's write before that is acknowledged,
/// writes the next version, and shows that too; and the first owner acknowledges its write after the second one has
/// acknowledged a greater version. It had been asked for it before: without that premise writes would not follow
/// time. The write that is asked last has the greatest version.
pub fn owner_changes()
    ensures told { OwnerChangesTells }
    ensures acknowledged { OwnerChangesAcknowledges }
    ensures shown { OwnerChangesShows }
{}

/// A key has three owners in turn: the second and the third one show what the owner before has acknowledged, and
/// write the next version.
pub fn two_handovers()
    ensures told { TwoHandoversTell }
    ensures shown { TwoHandoversShow }
{}

/// A master that was replaced, and does not know it, shows version 1 after the second owner has acknowledged version
/// 2: such a read may miss what was acknowledged under a later term.
pub fn zombie_is_read()
    ensures told { ZombieIsReadTells }
    ensures shown { ZombieIsReadShows }
{}

/// What is written to a master that was replaced is stored nowhere, since its backups are fenced: it is neither
/// acknowledged nor shown.
pub fn zombie_is_written()
    ensures told { ZombieIsWrittenTells }
    ensures shown { ZombieIsWrittenShows }
{}

/// One value is written at two owners: these are two versions. The second one was asked only after the first was
/// acknowledged, though its value had been asked for before, of another master.
pub fn one_value_twice()
    ensures told { OneValueTwiceTells }
    ensures shown { OneValueTwiceShows }
{}

/// A message may come twice: the same Write makes a version of its own each time, and brings back an older value.
/// Requests have no number, so nothing is said of its time; each of its versions is one write.
pub fn write_repeated()
    ensures told { WriteRepeatedTells }
    ensures shown { WriteRepeatedShows }
{}

/// A write that is stored nowhere but at its master is neither shown nor acknowledged. After the handover it is gone,
/// and the second owner gives its version to another one.
pub fn unstored_write()
    ensures told { UnstoredWriteTells }
    ensures shown { UnstoredWriteShows }
{}

/// A recovery master refuses a read until its part is complete and granted; then it shows what its predecessor had
/// acknowledged.
pub fn read_while_recovering()
    ensures told { ReadWhileRecoveringTells }
    ensures shown { ReadWhileRecoveringShows }
{}
