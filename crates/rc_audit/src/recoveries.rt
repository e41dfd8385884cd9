//! Accepted recoveries, and how far they reach.

ghost use Rattle.std.specs.Prelude.{◌≡◌, unwrap_or, OnOk, IfOk};
ghost use Rattle.std.specs.Option.{option_map, option_to_list};
ghost use Rattle.std.specs.Ordering.{nat_cmp};
ghost use Rattle.std.specs.BTreeMap.{get, keys};
ghost use Rattle.rc_model.specs.Ascending.{insert_once};
ghost use Rattle.rc_model.specs.Recovered.{plan_in};
ghost use Rattle.rc_audit.specs.Recoveries.{accepted_of, HasReaches, Raises};

use rc_types::{Body, PlanRow, ServerId};
use std::alloc::{AllocError, Global};
use std::collections::BTreeMap;

/// A number for each of some segments.
pub type BySegment = BTreeMap<u16, usize>;

/// An accepted recovery.
#[derive(Clone, Copy)]
pub struct Recovery<'a> {
    /// The attempt.
    pub attempt: u32,
    /// The crashed master.
    pub master: ServerId,
    /// The rows of the plan: where its log is.
    pub rows: &'a [PlanRow],
}

/// The recovery that this message body accepts, if it does.
pub fn recovery_in<'a>(body: &'a Body) -> Option<Recovery<'a>>
    ensures { option_to_list (option_map accepted_of result) ≡ plan_in body.now }
{
    match body {
        Body::Plan {
            attempt,
            master,
            rows,
            ..
        } => Some(Recovery {
            attempt: *attempt,
            master: *master,
            rows: rows.as_slice(),
        }),
        _ => None,
    }
}

/// The number of this segment, 0 where there is none.
pub fn number_of(numbers: &BySegment, seg: u16) -> usize
    ensures { result ≡ unwrap_or (get nat_cmp numbers.now seg) 0 }
{
    numbers.get(&seg).copied().unwrap_or(0)
}

/// Makes the number of this segment at least `least`.
pub fn raise(numbers: &mut BySegment, seg: u16, least: usize) -> Result<(), AllocError>
    ensures raised { OnOk result (Raises numbers.old numbers.new seg least) }
    ensures keys { OnOk result (keys numbers.new ≡ insert_once seg (keys numbers.old)) }
{
    let number = number_of(numbers, seg).max(least);
    numbers.insert(seg, number)?;
    Ok(())
}

/// How far the rows reach in each of their segments.
pub fn reaches(alloc: Global, rows: &[PlanRow]) -> Result<BySegment, AllocError>
    ensures { IfOk result (λ reaches. HasReaches reaches rows.now) }
{
    let mut reaches = BTreeMap::new(alloc);
    for row in rows.iter().rev() {
        raise(&mut reaches, row.seg, row.len)?;
    }
    Ok(reaches)
}
