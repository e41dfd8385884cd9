//! What the command `threads` has nodes do, as a list of steps.

ghost use Rattle.std.specs.Prelude.{◌≡◌, OnOk, IfOk};
ghost use Rattle.rc_wire.specs.declared.steps.Step.TheVariants.{Do, Settle};
ghost use Rattle.rc_wire.specs.Workload.{push, write_of, workload};

use crate::steps::Step;
use crate::work::Work;
use rc_types::{Body, NodeName, Order, Seq, ServerId, Shared};
use std::alloc::{AllocError, Global};

/// The server that owns the table: the first of host 0.
const OWNER: ServerId = ServerId {
    index: 0,
    generation: 1,
};

/// The table.
const TABLE: u32 = 1;

/// What is done by so many hosts, with so many writes.
pub(crate) fn steps(alloc: Global, hosts: u8, writes: u32) -> Result<Vec<Step>, AllocError>
    ensures { IfOk result (λ steps. steps.items ≡ workload hosts writes) }
{
    let mut steps = Vec::new(alloc);
    for host in 0..hosts {
        let kept = Seq::new(alloc);
        add(&mut steps, NodeName::Host(host), Work::Start { kept })?;
    }
    settle(&mut steps)?;
    let owner = OWNER;
    add(
        &mut steps,
        NodeName::Coordinator,
        Work::Order(Order::Create {
            table: TABLE,
            owner,
        }),
    )?;
    settle(&mut steps)?;
    for key in 0..writes {
        let write = write_of(alloc, u64::from(key))?;
        add(&mut steps, NodeName::Outside, write)?;
    }
    settle(&mut steps)?;
    add(
        &mut steps,
        NodeName::Coordinator,
        Work::Order(Order::Suspect(OWNER)),
    )?;
    settle(&mut steps)?;
    add(
        &mut steps,
        NodeName::Coordinator,
        Work::Order(Order::Decide(OWNER)),
    )?;
    settle(&mut steps)?;
    Ok(steps)
}

/// The outside asks for a write of this key.
fn write_of(alloc: Global, key: u64) -> Result<Work, AllocError>
    ensures { IfOk result (λ work. work ≡ write_of key) }
{
    let value = Shared::from_vec(alloc, vec![in alloc; b'w']?)?;
    Ok(Work::Ask {
        to: OWNER,
        body: Body::Write {
            table: TABLE,
            key,
            value: Some(value),
        },
    })
}

/// Adds a work.
fn add(steps: &mut Vec<Step>, name: NodeName, work: Work) -> Result<(), AllocError>
    ensures { OnOk result (steps.new.items ≡ push steps.old.items (Do name work)) }
{
    steps.push(Step::Do(name, work))?;
    Ok(())
}

/// Adds a wait.
fn settle(steps: &mut Vec<Step>) -> Result<(), AllocError>
    ensures { OnOk result (steps.new.items ≡ push steps.old.items Settle) }
{
    steps.push(Step::Settle)?;
    Ok(())
}
