//! The tests of runs, and the sentences.

ghost use Rattle.rc_promises.specs.Runs.{BrokenVersionsRefute, BrokenTimeRefutes, BrokenReadsRefute, NoRunBreaksOne};

/// A run of `rc_worked` whose test names a sentence refutes that sentence. The proof knows lists of messages, and that
/// a run is what its events lead to; it opens no rule of the protocol. So where a wrong rule makes a run break a
/// sentence, that sentence is false of the wrong protocol, and no proof of it can be mended.
pub fn what_breaks_refutes()
    ensures versions { BrokenVersionsRefute }
    ensures time { BrokenTimeRefutes }
    ensures reads { BrokenReadsRefute }
{}

/// No run breaks any of the sentences, whatever is done in it.
pub fn no_run_breaks_one()
    ensures { NoRunBreaksOne }
{}
