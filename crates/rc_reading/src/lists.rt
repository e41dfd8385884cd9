//! Lists of JSON, read an item at a time. A value that is no list is passed, and answered with nothing; where no value
//! stands the reading fails.

ghost use Rattle.std.specs.Prelude.{◌≡◌, ◌<◌, ℕ, length, Option, Some, None, Err, IfOk, OnOk, option_map};
ghost use Rattle.std.specs.Prelude.{option_and_then};
ghost use Rattle.serde_json.specs.Data.{Data};
ghost use Rattle.rc_reading.specs.declared.faults.ReadFault.TheVariants.{BadInput};
ghost use Rattle.rc_reading.specs.Values.{list_from};
ghost use Rattle.rc_reading.specs.Lists.{added, at_end, placed, takes_placed};
ghost use Rattle.rc_reading.specs.Ahead.{data_at, items_at, says, folds};

use crate::faults::ReadFault;
use crate::tokens::begin;
use json::Reader;
use rc_types::Seq;
use std::alloc::{AllocError, Global};

/// A way to read one value.
pub trait Said<T> {
    /// What a value says; nothing, where it says something else.
    ghost said: { Data → Option T };

    /// What the value that comes next says.
    fn read(alloc: Global, reader: &mut Reader<'_>, depth: usize) -> Result<Option<T>, ReadFault>
        ensures ok { IfOk result (λ one. says said depth reader.old ≡ Some (one, reader.new)) }
        ensures shorter { OnOk result (length reader.new < length reader.old) }
        ensures bad { (place : ℕ) → result ≡ Err (BadInput place) → (place ≡ 0) × (data_at depth reader.old ≡ None) };
}

/// What the items of a list are taken into. `R` is what reads them, or tells apart what one type may take.
pub trait Items<R> {
    /// What it is after one more item; nothing, where that item may not be there.
    ghost takes: { Self → Data → Option Self };

    /// Takes one more item. Where there is nothing any more, it is passed.
    fn take(
        so_far: &mut Option<Self>,
        alloc: Global,
        reader: &mut Reader<'_>,
        depth: usize,
    ) -> Result<(), ReadFault>
        ensures ok { OnOk result (says (λ d. option_and_then (λ all. takes all d) so_far.old) depth reader.old ≡ Some
            (so_far.new, reader.new)) }
        ensures shorter { OnOk result (length reader.new < length reader.old) }
        ensures bad { (place : ℕ) → result ≡ Err (BadInput place) → (place ≡ 0) × (data_at depth reader.old ≡ None) };
}

/// What the items up to the end of their list make of this.
fn read_items<R, S: Items<R> + Drop>(
    start: S,
    alloc: Global,
    reader: &mut Reader<'_>,
    depth: usize,
) -> Result<Option<S>, ReadFault>
    ensures ok { IfOk result (λ all. folds S.takes (Some start) depth reader.old ≡ Some (all, reader.new)) }
    ensures shorter { OnOk result (length reader.new < length reader.old) }
    ensures bad { (place : ℕ) → result ≡ Err (BadInput place) → (place ≡ 0) × (items_at depth reader.old ≡ None) }
{
    let mut so_far = Some(start);
    'items: while !reader.take_end_array() {
        S::take(&mut so_far, alloc, reader, depth)?;
    }
    Ok(so_far)
}

/// What the items of the list that comes next make of this; nothing, where the value is no list, or an item may not be
/// there.
pub fn read_list<R, S: Items<R> + Drop>(
    start: S,
    alloc: Global,
    reader: &mut Reader<'_>,
    depth: usize,
) -> Result<Option<S>, ReadFault>
    ensures ok { IfOk result (λ all. says (list_from S.takes start) depth reader.old ≡ Some (all, reader.new)) }
    ensures shorter { OnOk result (length reader.new < length reader.old) }
    ensures bad { (place : ℕ) → result ≡ Err (BadInput place) → (place ≡ 0) × (data_at depth reader.old ≡ None) }
{
    match begin(reader, depth)? {
        Some(_) => Ok(None),
        None => read_items(start, alloc, reader, depth - 1),
    }
}

/// Each item, in order; nothing, once one says nothing.
impl<T: Drop, R: Said<T>> Items<R> for Seq<T> {
    ghost takes = { λ all d. option_map (at_end all) (R.said d) };

    fn take(
        so_far: &mut Option<Seq<T>>,
        alloc: Global,
        reader: &mut Reader<'_>,
        depth: usize,
    ) -> Result<(), ReadFault> {
        let one = R::read(alloc, reader, depth)?;
        *so_far = longer(so_far.take(), one)?;
        Ok(())
    }
}

/// One more at the end, or nothing where there is nothing of either.
fn longer<T: Drop>(all: Option<Seq<T>>, one: Option<T>) -> Result<Option<Seq<T>>, AllocError>
    ensures { IfOk result (λ longer. longer ≡ added at_end all one) }
{
    let (Some(all), Some(one)) = (all, one) else {
        return Ok(None);
    };
    let mut all = all.into_vec();
    all.push(one)?;
    Ok(Some(Seq::from_vec(all)))
}

/// Each item, in order, or the place of the first that says nothing: 2 for the first of the list. Once one says
/// nothing, none is kept.
impl<T: Drop, R: Said<T>> Items<R> for Result<Seq<T>, usize> {
    ghost takes = { takes_placed R.said };

    fn take(
        so_far: &mut Option<Result<Seq<T>, usize>>,
        alloc: Global,
        reader: &mut Reader<'_>,
        depth: usize,
    ) -> Result<(), ReadFault> {
        let one = R::read(alloc, reader, depth)?;
        if let Some(all) = so_far.take() {
            *so_far = Some(with_place(all, one)?);
        }
        Ok(())
    }
}

/// One more at the end, or the place of one that says nothing.
fn with_place<T: Drop>(
    all: Result<Seq<T>, usize>,
    one: Option<T>,
) -> Result<Result<Seq<T>, usize>, AllocError>
    ensures { IfOk result (λ longer. longer ≡ placed all one) }
{
    let all = match all {
        Ok(all) => all,
        Err(place) => return Ok(Err(place)),
    };
    let mut all = all.into_vec();
    let Some(one) = one else {
        return Ok(Err(2 + all.len()));
    };
    all.push(one)?;
    Ok(Ok(Seq::from_vec(all)))
}
