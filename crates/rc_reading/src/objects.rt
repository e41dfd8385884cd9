//! Objects of JSON, read a member at a time. A value that is no object is passed, and answered with nothing; where no
//! value stands the reading fails.

ghost use Rattle.std.specs.Prelude.{◌≡◌, ◌<◌, ℕ, List, length, Some, None, Err, IfOk, OnOk};
ghost use Rattle.serde_json.specs.Data.{Data, object, no_members};
ghost use Rattle.rc_reading.specs.declared.faults.ReadFault.TheVariants.{BadInput};
ghost use Rattle.rc_reading.specs.Ahead.{data_at, members_at, says, told};
ghost use Rattle.rc_reading.specs.Lists.{IsNoted, if_object};

use crate::faults::ReadFault;
use crate::tokens::opens_object;
use json::Reader;
use std::alloc::Global;

/// What the members of an object say so far; the last of equal names counts.
pub trait Object {
    /// What all members of an object say.
    ghost of: { Data → Self };

    /// What they say after one more.
    ghost noted: { List ℕ → Data → Self → Self };

    /// What no member says.
    fn none(alloc: Global) -> Self
        ensures { result ≡ of (object no_members) };

    /// Takes the value of one more member.
    fn take(
        &mut self,
        alloc: Global,
        name: &str,
        reader: &mut Reader<'_>,
        depth: usize,
    ) -> Result<(), ReadFault>
        ensures ok { OnOk result (says (λ d. noted name.now d self.old) depth reader.old ≡ Some
            (self.new, reader.new)) }
        ensures shorter { OnOk result (length reader.new < length reader.old) }
        ensures bad { (place : ℕ) → result ≡ Err (BadInput place) → (place ≡ 0) × (data_at depth reader.old ≡ None) };
}

/// What the members up to the end of their object say.
fn read_members<F: Object + Drop>(
    alloc: Global,
    reader: &mut Reader<'_>,
    depth: usize,
) -> Result<F, ReadFault>
    requires { IsNoted F.of F.noted }
    ensures ok { IfOk result (λ fields. told (λ ms. F.of (object ms)) (members_at no_members depth reader.old) ≡ Some
        (fields, reader.new)) }
    ensures shorter { OnOk result (length reader.new < length reader.old) }
    ensures bad { (place : ℕ) → result ≡ Err (BadInput place) →
        (place ≡ 0) × (members_at no_members depth reader.old ≡ None) }
{
    let mut fields = F::none(alloc);
    'members: while let Some(name) = reader.next_key()? {
        fields.take(alloc, name, reader, depth)?;
    }
    Ok(fields)
}

/// What the members of the object that comes next say; nothing, where the value is no object.
pub fn read_object<F: Object + Drop>(
    alloc: Global,
    reader: &mut Reader<'_>,
    depth: usize,
) -> Result<Option<F>, ReadFault>
    requires { IsNoted F.of F.noted }
    ensures ok { IfOk result (λ fields. says (if_object F.of) depth reader.old ≡ Some (fields, reader.new)) }
    ensures shorter { OnOk result (length reader.new < length reader.old) }
    ensures bad { (place : ℕ) → result ≡ Err (BadInput place) → (place ≡ 0) × (data_at depth reader.old ≡ None) }
{
    if !opens_object(reader, depth)? {
        return Ok(None);
    }
    let fields = read_members(alloc, reader, depth - 1)?;
    Ok(Some(fields))
}
