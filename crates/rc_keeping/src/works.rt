//! A work as bytes: its kind in one byte, and its fields, behind the version of the format.

ghost use Rattle.std.specs.Prelude.{◌≡◌, ◌≤◌, ◌++◌, ◌∷◌, IfOk, IfErr, OnOk, OnErr};
ghost use Rattle.rc_codec.specs.Claims.{IsFront, DecodesFront, BeginsWithNone};
ghost use Rattle.rc_codec.specs.Parts.{Begins};
ghost use Rattle.rc_codec.specs.Reading.{Gives};
ghost use Rattle.rc_codec.specs.declared.faults.DecodeFault.TheVariants.{Malformed};
ghost use Rattle.rc_keeping.specs.Spelling.{work_code, coded_work};
ghost use Rattle.rc_keeping.specs.Readers.{ask_at, deliver_at, start_at, node_work_at, coded_at};

use rc_codec::{DecodeFault, Put, Take, put_kind, take_order};
use rc_types::{Body, Message, NodeWork, Seq, ServerId};
use std::alloc::{AllocError, Global};

/// Adds the bytes of a work at the end of `out`.
///
/// # Errors
///
/// Memory was refused; `out` is as before.
#[tactic(auto, unfolding(rc_codec::specs::Parts::Begins))]
pub fn encode_work(work: &NodeWork, out: &mut Vec<u8>) -> Result<(), AllocError>
    ensures ok { OnOk result (out.new.items ≡ out.old.items ++ coded_work work.now) }
    ensures err { OnErr result (out.new.items ≡ out.old.items) }
{
    let length = out.len();
    match put_coded(work, out) {
        Ok(()) => Ok(()),
        Err(fault) => {
            out.truncate(length);
            Err(fault)
        }
    }
}

/// The work that the bytes begin with, and how many of them it takes. Others may follow.
///
/// # Errors
///
/// `Malformed` where the bytes begin with no work; `OutOfMemory` where memory was refused.
pub fn decode_work(alloc: Global, bytes: &[u8]) -> Result<(NodeWork, usize), DecodeFault>
    ensures decoded { IfOk result (λ found. IsFront (coded_work found.0) found.1 bytes.now) }
    ensures again { DecodesFront coded_work bytes.now result }
    ensures refused { IfErr result (λ fault. fault ≡ Malformed → BeginsWithNone coded_work bytes.now) }
{
    match take_coded(alloc, bytes) {
        Ok((work, rest)) => Ok((work, bytes.len() - rest.len())),
        Err(fault) => Err(fault),
    }
}

/// The version, and the work. Where memory is refused some of it may stand there.
#[tactic(auto, using(rc_codec::proofs::Beginning::begins_after))]
fn put_coded(work: &NodeWork, out: &mut Vec<u8>) -> Result<(), AllocError>
    ensures ok { OnOk result (out.new.items ≡ out.old.items ++ coded_work work.now) }
    ensures err { OnErr result (Begins out.old.items out.new.items) }
{
    1u8.put(out)?;
    put_work(work, out)
}

/// The kind in one byte, and the fields.
fn put_work(work: &NodeWork, out: &mut Vec<u8>) -> Result<(), AllocError>
    ensures ok { OnOk result (out.new.items ≡ out.old.items ++ work_code work.now) }
    ensures err { OnErr result (Begins out.old.items out.new.items) }
{
    match *work {
        NodeWork::Ask { to, ref body } => put_kind(0, (to, body), out),
        NodeWork::Deliver(ref message) => put_kind(1, message, out),
        NodeWork::Tick => 2u8.put(out),
        NodeWork::Stop => 3u8.put(out),
        NodeWork::Start { ref kept } => put_kind(4, kept, out),
        NodeWork::Order(order) => order.put(out),
    }
}

/// What follows the version, and the bytes after it.
pub(crate) fn take_coded(alloc: Global, bytes: &[u8]) -> Result<(NodeWork, &[u8]), DecodeFault>
    ensures { Gives (λ x. (x.0, x.1.now)) result (coded_at bytes.now) }
{
    match bytes {
        [1, rest @ ..] => take_work(alloc, rest),
        _ => Err(DecodeFault::Malformed),
    }
}

#[tactic(auto, unfolding(crate::specs::Readers::node_work_at))]
fn take_work(alloc: Global, bytes: &[u8]) -> Result<(NodeWork, &[u8]), DecodeFault>
    ensures { Gives (λ x. (x.0, x.1.now)) result (node_work_at bytes.now) }
{
    match bytes {
        [kind, rest @ ..] => take_kind(alloc, *kind, rest),
        [] => Err(DecodeFault::Malformed),
    }
}

/// What stands behind a kind.
#[tactic(auto, unfolding(crate::specs::Readers::node_work_at))]
fn take_kind(alloc: Global, kind: u8, bytes: &[u8]) -> Result<(NodeWork, &[u8]), DecodeFault>
    ensures { Gives (λ x. (x.0, x.1.now)) result (node_work_at (kind ∷ bytes.now)) }
{
    match kind {
        0 => take_ask(alloc, bytes),
        1 => take_deliver(alloc, bytes),
        2 => Ok((NodeWork::Tick, bytes)),
        3 => Ok((NodeWork::Stop, bytes)),
        4 => take_start(alloc, bytes),
        _ => take_told(alloc, kind, bytes),
    }
}

#[tactic(auto, using(crate::proofs::WorkOrders::work_ordered, crate::proofs::WorkOrders::work_fails))]
fn take_told(alloc: Global, kind: u8, bytes: &[u8]) -> Result<(NodeWork, &[u8]), DecodeFault>
    requires { 5 ≤ kind }
    ensures { Gives (λ x. (x.0, x.1.now)) result (node_work_at (kind ∷ bytes.now)) }
{
    let (order, rest) = take_order(alloc, kind, bytes)?;
    Ok((NodeWork::Order(order), rest))
}

fn take_ask(alloc: Global, bytes: &[u8]) -> Result<(NodeWork, &[u8]), DecodeFault>
    ensures { Gives (λ x. (x.0, x.1.now)) result (ask_at bytes.now) }
{
    let ((to, body), rest) = <(ServerId, Body)>::take(alloc, bytes)?;
    Ok((NodeWork::Ask { to, body }, rest))
}

fn take_deliver(alloc: Global, bytes: &[u8]) -> Result<(NodeWork, &[u8]), DecodeFault>
    ensures { Gives (λ x. (x.0, x.1.now)) result (deliver_at bytes.now) }
{
    let (message, rest) = Message::take(alloc, bytes)?;
    Ok((NodeWork::Deliver(message), rest))
}

fn take_start(alloc: Global, bytes: &[u8]) -> Result<(NodeWork, &[u8]), DecodeFault>
    ensures { Gives (λ x. (x.0, x.1.now)) result (start_at bytes.now) }
{
    let (kept, rest) = <Seq<(ServerId, u16)>>::take(alloc, bytes)?;
    Ok((NodeWork::Start { kept }, rest))
}
