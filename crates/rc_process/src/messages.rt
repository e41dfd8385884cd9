//! A message that has come as bytes.

ghost use Rattle.std.specs.Prelude.{◌≡◌, ◌↔◌, ◌⊎◌, ◌++◌, Err, OnOk, OnErr, IfOk, IfErr};
ghost use Rattle.rc_types.specs.declared.events.NodeWork.TheVariants.{Deliver};
ghost use Rattle.rc_codec.specs.Bodies.{coded_message};
ghost use Rattle.rc_world.specs.NodeView.{node_seen, NodeHasRoom};
ghost use Rattle.rc_process.specs.View.{IsNoMessage, IsDelivery, IsDeliveryOf, process_seen, written_down, given};
ghost use Rattle.rc_process.specs.declared.faults.MessageFault.TheVariants.{Malformed, NoMemory, NoRoom};

use crate::faults::MessageFault;
use crate::process::Process;
use rc_codec::{DecodeFault, decode_message};
use rc_keeping::seal_after;
use rc_types::{Message, NodeWork};
use std::alloc::{AllocError, Allocator, Global};

impl<A: Allocator + Clone> Process<A> {
    /// Gives the node a message that has come as bytes: all of these, as `rc_codec::encode_message` makes them, and
    /// none behind them. It is what `give` does with a delivery of that message, but nothing is coded again: the record
    /// is made of the very bytes that came. Gives back the message, to be looked at. It has to be for this node.
    ///
    /// # Errors
    ///
    /// `NoRoom`: the node's numbers do not suffice for one more step. `Malformed`: the bytes are no message.
    /// `NoMemory`: memory was refused. After each nothing has changed, and nothing is to be written.
    pub fn give_message(&mut self, bytes: &[u8], out: &mut Vec<u8>) -> Result<Message, MessageFault>
        ensures coded { IfOk result (λ message. bytes.now ≡ coded_message message) }
        ensures taken { IfOk result (λ message.
            process_seen self.new ≡ given (process_seen self.old) (Deliver message)) }
        ensures written { IfOk result (λ message.
            out.new.items ≡ out.old.items ++ written_down (node_seen self.old.node) (Deliver message)) }
        ensures full { (result ≡ Err NoRoom) ↔ (NodeHasRoom (node_seen self.old.node) → ⊥) }
        ensures malformed { result ≡ Err Malformed → IsNoMessage bytes.now }
        ensures refused { NodeHasRoom (node_seen self.old.node) → IsNoMessage bytes.now →
            (result ≡ Err Malformed) ⊎ (result ≡ Err NoMemory) }
        ensures err { OnErr result (process_seen self.new ≡ process_seen self.old) }
        ensures unwritten { OnErr result (out.new.items ≡ out.old.items) }
    {
        if !self.node().has_room() {
            return Err(MessageFault::NoRoom);
        }
        match message_in(self.alloc(), bytes) {
            Ok(message) => self.deliver(message, bytes, out),
            Err(fault) => Err(fault),
        }
    }

    /// Gives the node the message of these bytes.
    fn deliver(
        &mut self,
        message: Message,
        bytes: &[u8],
        out: &mut Vec<u8>,
    ) -> Result<Message, MessageFault>
        requires room { NodeHasRoom (node_seen self.old.node) }
        requires its { bytes.now ≡ coded_message message }
        ensures same { IfOk result (λ given_back. given_back ≡ message) }
        ensures taken { OnOk result (process_seen self.new ≡ given (process_seen self.old) (Deliver message)) }
        ensures written { OnOk result (
            out.new.items ≡ out.old.items ++ written_down (node_seen self.old.node) (Deliver message)) }
        ensures fault { IfErr result (λ fault. fault ≡ NoMemory) }
        ensures err { OnErr result (process_seen self.new ≡ process_seen self.old) }
        ensures unwritten { OnErr result (out.new.items ≡ out.old.items) }
    {
        let work = NodeWork::Deliver(message);
        let length = out.len();
        if let Err(_) = self.write_bytes(&work, bytes, out) {
            return Err(MessageFault::NoMemory);
        }
        let more = out.len() - length;
        if let Err(_) = self.step(&work, more) {
            out.truncate(length);
            return Err(MessageFault::NoMemory);
        }
        Ok(delivered(work))
    }

    /// Adds the record of a delivery of the message of these bytes, if that is kept.
    #[tactic(auto, using(crate::proofs::Coded::sealed_delivery))]
    fn write_bytes(
        &self,
        work: &NodeWork,
        bytes: &[u8],
        out: &mut Vec<u8>,
    ) -> Result<(), AllocError>
        requires { IsDeliveryOf work.now bytes.now }
        ensures ok { OnOk result (out.new.items ≡ out.old.items ++ written_down (node_seen self.now.node) work.now) }
        ensures err { OnErr result (out.new.items ≡ out.old.items) }
    {
        if self.keeps(work) {
            // (a 1 for the version; the bytes' own version stands for the kind of the work, which is 1, too)
            seal_after(1, bytes, out)
        } else {
            Ok(())
        }
    }
}

/// The message that these bytes are.
#[tactic(auto, using(crate::proofs::Coded::whole, crate::proofs::Coded::not_whole, crate::proofs::Coded::none_in))]
fn message_in(alloc: Global, bytes: &[u8]) -> Result<Message, MessageFault>
    ensures coded { IfOk result (λ message. bytes.now ≡ coded_message message) }
    ensures malformed { result ≡ Err Malformed → IsNoMessage bytes.now }
    ensures fault { IfErr result (λ fault. (fault ≡ Malformed) ⊎ (fault ≡ NoMemory)) }
{
    match decode_message(alloc, bytes) {
        Ok((message, count)) => {
            if count < bytes.len() {
                Err(MessageFault::Malformed)
            } else {
                Ok(message)
            }
        }
        Err(DecodeFault::Malformed) => Err(MessageFault::Malformed),
        Err(DecodeFault::OutOfMemory) => Err(MessageFault::NoMemory),
    }
}

/// The message of a delivery.
fn delivered(work: NodeWork) -> Message
    requires { IsDelivery work }
    ensures { work ≡ Deliver result }
{
    match work {
        NodeWork::Deliver(message) => message,
        _other => unreachable!(),
    }
}
