//! The entries that came for a row of a part, in pieces that the row and the replay both own: so a part joins the
//! replay, and goes back to an earlier moment, without a further copy; and the replay lets go of them piece by piece.

ghost use Rattle.std.specs.Prelude.{◌≡◌, ◌++◌, length, IfOk, MatchOption};
ghost use Rattle.rc_ownership.specs.Pieces.{IsSplit, IsCut};
ghost use Rattle.rc_ownership.specs.Replay.{all_waiting};

use crate::shared::shared_copies;
use rc_types::{Entry, Shared};
use std::alloc::{AllocError, Global};
use std::marker::Model;

/// How many entries a piece has at most.
const PIECE: usize = 64;

/// The entries that came for a row, in pieces each of which has at most 64, and how many entries they are. Most rows
/// are one piece, so the first stands by itself: the list of the others then takes no memory.
#[derive(Drop)]
pub(crate) struct Pieces {
    first: Shared<Entry>,
    others: Vec<Shared<Entry>>,
    count: usize,
}

impl Model for Pieces {
    ghost use Rattle.std.specs.Prelude.{List, ◌++◌};
    ghost use Rattle.rc_types.specs.declared.entries.Entry.{Entry};
    ghost use Rattle.rc_ownership.specs.Replay.{all_waiting};
    ghost use Rattle.rc_ownership.specs.Pieces.{ArePieces};

    ghost Value = { List Entry };

    ghost view = { λ s. s.first ++ all_waiting s.others.items };

    ghost invariant = { λ s. ArePieces s.first s.others.items s.count };
}

impl Pieces {
    /// Copies of these entries. Only memory can be refused (F1).
    pub(crate) fn from_entries(alloc: Global, entries: &[Entry]) -> Result<Pieces, AllocError>
        ensures { IfOk result (λ pieces. pieces ≡ entries.now) }
    {
        let (front, after) = split_piece(entries);
        let first = shared_copies(alloc, front)?;
        let mut others = Vec::new(alloc);
        let mut rest = after;
        while let Some((piece, later)) = first_piece(rest) {
            let copies = shared_copies(alloc, piece)?;
            others.push(copies)?;
            rest = later;
        }
        Ok(Pieces {
            first,
            others,
            count: entries.len(),
        })
    }

    /// How many entries there are.
    pub(crate) fn len(&self) -> usize
        ensures { result ≡ length self.now }
    {
        self.count
    }

    /// The first piece, and the others.
    pub(crate) fn parts(&self) -> (&Shared<Entry>, &[Shared<Entry>])
        ensures { result.0.now ++ all_waiting result.1.now ≡ self.now }
    {
        (&self.first, self.others.as_slice())
    }
}

/// Entries as a piece and the rest.
fn split_piece(entries: &[Entry]) -> (&[Entry], &[Entry])
    ensures { IsSplit entries.now result.0.now result.1.now }
{
    entries.split_at(entries.len().min(PIECE))
}

/// A piece of entries that are left, and the others; none where none is left.
fn first_piece(rest: &[Entry]) -> Option<(&[Entry], &[Entry])>
    ensures { MatchOption result (length rest.now ≡ 0) (λ cut. IsCut rest.now cut.0.now cut.1.now) }
{
    if rest.is_empty() {
        return None;
    }
    Some(rest.split_at(rest.len().min(PIECE)))
}
