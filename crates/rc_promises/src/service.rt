//! The sentences that a client may rely on.

ghost use Rattle.rc_promises.specs.Service.{OneVersionIsOneWrite, AcknowledgedIsWritten, WritesFollowTime};
ghost use Rattle.rc_promises.specs.Service.{ReadsSeeAcknowledgedWrites};
ghost use Rattle.rc_promises.specs.ServiceApart.{OneWriteApart, WrittenApart, TimeApart, ReadsApart};
ghost use Rattle.rc_history.specs.LifeClaims.{LivesAreAHistory, WhatHasLeftStays};
ghost use Rattle.rc_promises.specs.OfProcesses.{OneWriteOfProcesses, WrittenOfProcesses, TimeOfProcesses};
ghost use Rattle.rc_promises.specs.OfProcesses.{ReadsOfProcesses, ReadsWhenMade};

/// After every list of events: a version of a key that was acknowledged is one write. Its term was granted to its
/// master for its point, and it is above 0; whoever acknowledges this version of the key is this master, at this place
/// and under this term; and a client asked this master for it, with the one value that this master has sent for the
/// place. Where segments have replicas at all, it has sent one.
pub fn one_version_is_one_write()
    ensures once { OneVersionIsOneWrite }
    ensures written { AcknowledgedIsWritten }
{}

/// Writes are ordered as time orders them: where a write of a key was acknowledged within the first events, each write
/// of that key that was asked for only afterwards, and is acknowledged, has a greater version. Asked for only
/// afterwards: within the first events no Write of this table, key and value had been sent to its master. It is said of
/// writes that were sent. So it is also where one of the two masters was replaced, and does not know it, and where
/// masters free segments.
pub fn writes_follow_time()
    ensures { WritesFollowTime }
{}

/// A read misses only what was acknowledged under a later term: what a master answers to a read, under a term that had
/// been granted to it by then, has at least the version of each write of the key that was acknowledged under an earlier
/// term, then or since, of each that it had itself acknowledged by then under this term, and of each that anyone had
/// acknowledged by then, but under a later term: those a master that was replaced, and does not know it, may miss.
/// Where a write of its version was acknowledged, and was sent, the value is that write's. Where segments have
/// replicas, each acknowledged write was sent, and a version above 0 stands with its value at a durable place. Versions
/// begin at 1, so 0 is shown only where nothing was acknowledged that it must not miss.
pub fn reads_see_acknowledged_writes()
    ensures { ReadsSeeAcknowledgedWrites }
{}

/// All of that of nodes that run apart: whatever steps they took, in whatever order in which each message is sent
/// before it is delivered, it holds of the messages that these steps sent.
pub fn service_of_nodes_apart()
    ensures once { OneWriteApart }
    ensures written { WrittenApart }
    ensures time { TimeApart }
    ensures reads { ReadsApart }
{}

/// All of that of processes that end at any moment, by the rules of `rc_history`: whatever happens to them, all that
/// has ever left them was sent in a history, which later ones go on from, and of each such history it holds. A
/// version of a key of which an acknowledgement has left is one write, which was sent where segments have replicas.
/// Where an acknowledgement had left by some moment, a write of its key that was asked for only afterwards has a
/// greater version. An answer to a read that has left misses only what was acknowledged under a later term; and each
/// answer, when it is made, only that of all of which an acknowledgement had left by then.
pub fn service_of_processes()
    ensures history { LivesAreAHistory }
    ensures stays { WhatHasLeftStays }
    ensures once { OneWriteOfProcesses }
    ensures written { WrittenOfProcesses }
    ensures time { TimeOfProcesses }
    ensures reads { ReadsOfProcesses }
    ensures made { ReadsWhenMade }
{}
