//! The entries and rows that a message of a trace carries, read an item at a time.

ghost use Rattle.std.specs.Prelude.{◌≡◌};
ghost use Rattle.rc_traces.specs.Trace.{entry_of, row_of};
ghost use Rattle.rc_traces.specs.Parts.{takes_entry_part, no_entry_parts, entry_made};
ghost use Rattle.rc_traces.specs.Parts.{takes_row_part, no_row_parts, row_made};

use crate::values::{entry_value, key, number, seg, table};
use json::Reader;
use rc_reading::ReadFault;
use rc_reading::lists::{Items, Said, read_list};
use rc_reading::tokens::pass;
use rc_reading::wanted::id;
use rc_types::{Entry, PlanRow, ServerId, Shared};
use std::alloc::Global;

/// What the items of an entry say so far.
#[derive(Drop)]
pub(crate) struct EntryParts {
    /// How many there were, up to one too many.
    count: u8,
    term: Option<u32>,
    table: Option<u32>,
    key: Option<u64>,
    version: Option<u64>,
    value: Option<Option<Shared<u8>>>,
}

impl EntryParts {
    fn none() -> EntryParts
        ensures { result ≡ no_entry_parts }
    {
        EntryParts {
            count: 0,
            term: None,
            table: None,
            key: None,
            version: None,
            value: None,
        }
    }

    /// The entry that the items say: a term, a table, a key, a version and a value.
    fn entry(self) -> Option<Entry>
        ensures { result ≡ entry_made self }
    {
        if self.count != 5 {
            return None;
        }
        Some(Entry {
            term: self.term?,
            table: self.table?,
            key: self.key?,
            version: self.version?,
            value: self.value?,
        })
    }
}

impl Items<EntryParts> for EntryParts {
    ghost takes = { takes_entry_part };

    fn take(
        so_far: &mut Option<EntryParts>,
        alloc: Global,
        reader: &mut Reader<'_>,
        depth: usize,
    ) -> Result<(), ReadFault> {
        let Some(parts) = so_far else {
            return Ok(pass(reader, depth)?);
        };
        match parts.count {
            0 => {
                parts.count = 1;
                parts.term = number(reader, depth)?;
            }
            1 => {
                parts.count = 2;
                parts.table = table(reader, depth)?;
            }
            2 => {
                parts.count = 3;
                parts.key = key(reader, depth)?;
            }
            3 => {
                parts.count = 4;
                parts.version = key(reader, depth)?;
            }
            4 => {
                parts.count = 5;
                parts.value = entry_value(alloc, reader, depth)?;
            }
            _ => {
                parts.count = 6;
                pass(reader, depth)?;
            }
        }
        Ok(())
    }
}

/// One entry.
impl Said<Entry> for EntryParts {
    ghost said = { entry_of };

    fn read(
        alloc: Global,
        reader: &mut Reader<'_>,
        depth: usize,
    ) -> Result<Option<Entry>, ReadFault> {
        let parts = read_list::<EntryParts, _>(EntryParts::none(), alloc, reader, depth)?;
        Ok(parts.and_then(EntryParts::entry))
    }
}

/// What the items of a plan's row say so far.
#[derive(Clone, Copy)]
pub(crate) struct RowParts {
    /// How many there were, up to one too many.
    count: u8,
    seg: Option<u16>,
    holder: Option<ServerId>,
    len: Option<u32>,
}

impl RowParts {
    fn none() -> RowParts
        ensures { result ≡ no_row_parts }
    {
        RowParts {
            count: 0,
            seg: None,
            holder: None,
            len: None,
        }
    }

    /// The row that the items say: a segment, the id that holds it, and a length.
    fn row(self) -> Option<PlanRow>
        ensures { result ≡ row_made self }
    {
        if self.count != 3 {
            return None;
        }
        Some(PlanRow {
            seg: self.seg?,
            holder: self.holder?,
            len: self.len? as usize,
        })
    }
}

impl Items<RowParts> for RowParts {
    ghost takes = { takes_row_part };

    fn take(
        so_far: &mut Option<RowParts>,
        _alloc: Global,
        reader: &mut Reader<'_>,
        depth: usize,
    ) -> Result<(), ReadFault> {
        let Some(parts) = so_far else {
            return Ok(pass(reader, depth)?);
        };
        match parts.count {
            0 => {
                parts.count = 1;
                parts.seg = seg(reader, depth)?;
            }
            1 => {
                parts.count = 2;
                parts.holder = id(reader, depth)?;
            }
            2 => {
                parts.count = 3;
                parts.len = number(reader, depth)?;
            }
            _ => {
                parts.count = 4;
                pass(reader, depth)?;
            }
        }
        Ok(())
    }
}

/// One row.
impl Said<PlanRow> for RowParts {
    ghost said = { row_of };

    fn read(
        alloc: Global,
        reader: &mut Reader<'_>,
        depth: usize,
    ) -> Result<Option<PlanRow>, ReadFault> {
        let parts = read_list::<RowParts, _>(RowParts::none(), alloc, reader, depth)?;
        Ok(parts.and_then(RowParts::row))
    }
}
