//! The judge of a list of messages: it knows of no node, only of what was sent. What a breach is, `rc_model`'s `Breach`
//! says as the answer of a search, and its `Headline` in words. Each of the three kinds of breach has a module:
//! `missing`, `invented`, `falling`.
//!
//! The other modules sort what was sent: the entries for each place, and how far they go without a gap; the writes that
//! were acknowledged; the rows of each plan; the versions that a recovered log has; the grants, and of each the terms
//! before it. Each look-up is one in an ordered map. To be read in this order: `places`, `writes`, `recoveries`;
//! `evidence`, `runs`, `standing`, `senders`, which are made of these; `highs`, `superseded`; `grants`, `earlier`,
//! `bars`; `orders`, `circles`, `turns`, which find all bars at once.
#![tactic(auto)]

ghost use Rattle.std.specs.Prelude.{◌≡◌, [], false, IfOk};
ghost use Rattle.std.specs.Option.{option_or};
ghost use Rattle.rc_model.specs.Recovered.{accepted};
ghost use Rattle.rc_model.specs.Breach.{breach, missing_of, invented_of};

mod bars;
mod circles;
mod earlier;
mod evidence;
mod falling;
mod grants;
mod highs;
mod invented;
mod missing;
mod orders;
mod places;
mod recoveries;
mod runs;
mod senders;
mod standing;
mod superseded;
mod turns;
mod writes;

use evidence::Evidence;
use falling::falling_version;
use invented::invented_place;
use missing::missing_write;
use rc_types::{Breach, Message};
use recoveries::recovery_in;
use runs::runs_in;
use senders::senders_in;
use standing::standings_in;
use std::alloc::{AllocError, Global};

/// The first breach of the headline in these messages, or `None`: for each accepted recovery, in
/// order, the first write that its master has acknowledged and that is not in the recovered log,
/// where no greater version of its key under its term is there; if there is none for any recovery,
/// the first place of a recovered log for which not exactly one entry was sent; and if there is none
/// of these either, the first acknowledged write whose version is not above that of one that was
/// acknowledged under an earlier ownership of its key. The messages are only read.
///
/// # Errors
///
/// `OutOfMemory` (F1): memory was refused.
///
/// For n messages with e entries this takes O((n + e) log (n + e)) steps and for each recovery the
/// rows of its plan and the segments of its master that have acknowledged writes, each with a
/// look-up; where an acknowledged place is not held by the rows, the entries and acknowledgements of
/// the master too, but not again for the same rows. The places of a segment are gone over once,
/// however many plans name them and however long their rows are. That the versions of each key rise
/// along one order of the terms, each after its previous ones, is seen in O(n log n) steps; for each
/// key under a term under which one does not rise so, the chain of owners before that term is gone
/// over once.
pub fn audit(alloc: Global, messages: &[Message]) -> Result<Option<Breach>, AllocError>
    ensures { IfOk result (λ found. found ≡ breach messages.now) }
{
    let found = lost_or_invented(alloc, messages)?;
    if found.is_some() {
        return Ok(found);
    }
    falling_version(alloc, messages)
}

/// The first breach of a recovery: a write that is missing, or else a place that is invented. What was sent is sorted
/// only where there is a recovery.
fn lost_or_invented(alloc: Global, messages: &[Message]) -> Result<Option<Breach>, AllocError>
    ensures { IfOk result (λ found. found ≡ option_or (missing_of messages.now (accepted messages.now))
        (invented_of messages.now (accepted messages.now))) }
{
    if !has_recovery(messages) {
        return Ok(None);
    }
    let evidence = Evidence::new(alloc, messages)?;
    let standings = standings_in(alloc, &evidence)?;
    let senders = senders_in(alloc, messages)?;
    let missing = missing_write(alloc, &evidence, &senders, &standings)?;
    if missing.is_some() {
        return Ok(missing);
    }
    let runs = runs_in(alloc, &evidence)?;
    invented_place(alloc, &evidence, &runs)
}

/// Whether a recovery was accepted. Where none was, only a falling version can be a breach.
pub fn has_recovery(messages: &[Message]) -> bool
    ensures none { result ≡ false → accepted messages.now ≡ [] }
    ensures some { accepted messages.now ≡ [] → result ≡ false }
{
    for message in messages {
        if recovery_in(&message.body).is_some() {
            return true;
        }
    }
    false
}
