//! The head row: of the open rows that count, the one whose digest is the log.

ghost use Rattle.std.specs.Prelude.{◌≡◌, [], ◌∷◌};
ghost use Rattle.std.specs.Option.{option_map};
ghost use Rattle.rc_model.specs.Pick.{head_row, rows_of};
ghost use Rattle.rc_digestpick.specs.Held.{held_row, first_open};

use crate::held::Held;
use rc_types::{Pair, Row, Seq, ServerId};

/// The first by `is_higher` of the rows that are open and valid.
pub fn head_row<'a>(min: Pair, replies: &'a [(ServerId, Seq<Row>)]) -> Option<Held<'a>>
    ensures { option_map held_row result ≡ head_row min replies.now }
{
    let mut best = None;
    for (holder, rows) in replies {
        best = highest(min, *holder, rows.as_slice(), best);
    }
    best
}

/// The first by `is_higher` of the best row so far and those of one backup.
fn highest<'a>(
    min: Pair,
    holder: ServerId,
    rows: &'a [Row],
    so_far: Option<Held<'a>>,
) -> Option<Held<'a>>
    ensures { option_map held_row result ≡
        first_open min (option_map held_row so_far.entry) (rows_of holder rows.now) }
{
    let mut best = so_far;
    for row in rows {
        best = higher(min, best, Held { holder, row });
    }
    best
}

/// The first by `is_higher` of the best row so far and one more.
fn higher<'a>(min: Pair, best: Option<Held<'a>>, held: Held<'a>) -> Option<Held<'a>>
    ensures { option_map held_row result ≡
        first_open min (option_map held_row best.entry) (held_row held.entry ∷ []) }
{
    if !held.is_open_valid(min) {
        return best;
    }
    match best {
        Some(before) if !held.is_higher(before) => best,
        _ => Some(held),
    }
}
