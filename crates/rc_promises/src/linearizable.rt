//! Linearizable.

ghost use Rattle.rc_promises.specs.Linearizable.{OrderIsStrict, Linearizable, LinearizableApart};
ghost use Rattle.rc_promises.specs.Linearizable.{EachWriteIsAnOperation, EachWriteIsAnOperationApart};

/// The store is linearizable. For each key the writes that were acknowledged and the reads that were confirmed, ordered
/// by their versions, each read behind the write of its version, are a linearization: an operation that was answered
/// before another was asked for stands before it; a read shows the value of the last write before it, and nothing where
/// there is none; and a write that was shown but never acknowledged, which a client had asked for, stands where it was
/// shown. So it is after every list of events, of every setup whose segments have replicas, in the messages that were
/// sent; and of nodes that run apart. The order is a strict one, and each acknowledgement is the response of one of
/// these writes.
pub fn linearizable()
    ensures order { OrderIsStrict }
    ensures worlds { Linearizable }
    ensures apart { LinearizableApart }
    ensures writes { EachWriteIsAnOperation }
    ensures writes_apart { EachWriteIsAnOperationApart }
{}
