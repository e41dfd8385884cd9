//! The grants of each term.

ghost use Rattle.std.specs.Prelude.{◌≡◌, map, OnOk, IfOk};
ghost use Rattle.std.specs.Option.{option_to_list};
ghost use Rattle.rc_model.specs.Owners.{grant_in as model_grant_in};
ghost use Rattle.rc_audit.specs.Grants.{AddsGrants, AreGrants, NotesGrant, grant_of};

use rc_types::{Body, KeyRange, Message};
use std::alloc::{AllocError, Global};
use std::collections::BTreeMap;

/// A grant of a range of keys, as far as a judge asks.
#[derive(Clone, Copy)]
pub struct Grant {
    /// The keys.
    pub range: KeyRange,
    /// The term of the new owner.
    pub term: u32,
    /// The term of the owner before.
    pub previous: u32,
}

/// The grants of one term, in the order in which they were sent.
#[derive(Drop)]
pub struct TermGrants {
    /// The grants.
    pub grants: Vec<Grant>,
}

/// The grants of each term that was granted.
pub type Grants = BTreeMap<u32, TermGrants>;

/// The grant that this message is, if it is one.
fn grant_in(message: &Message) -> Option<Grant>
    ensures { option_to_list result ≡ map grant_of (model_grant_in message.now.to message.now.body) }
{
    match &message.body {
        Body::Own {
            range,
            term,
            previous,
            ..
        } => Some(Grant {
            range: *range,
            term: *term,
            previous: *previous,
        }),
        _ => None,
    }
}

/// Notes one more grant. A term mostly has one alone, so its list begins with room for one.
fn note_grant(alloc: Global, grants: &mut Grants, grant: Grant) -> Result<(), AllocError>
    ensures { OnOk result (NotesGrant grants.old grants.new grant) }
{
    let mut of_term = match grants.remove(&grant.term) {
        Some(of_term) => of_term,
        None => TermGrants {
            grants: Vec::with_capacity(alloc, 1)?,
        },
    };
    of_term.grants.push(grant)?;
    grants.insert(grant.term, of_term)?;
    Ok(())
}

/// Notes this message, where it is a grant.
fn note_message(alloc: Global, grants: &mut Grants, message: &Message) -> Result<(), AllocError>
    ensures { OnOk result (AddsGrants grants.old grants.new
        (map grant_of (model_grant_in message.now.to message.now.body))) }
{
    match grant_in(message) {
        Some(grant) => note_grant(alloc, grants, grant),
        None => Ok(()),
    }
}

/// The grants of each term, of all that these messages are.
pub fn grants_in(alloc: Global, messages: &[Message]) -> Result<Grants, AllocError>
    ensures { IfOk result (λ grants. AreGrants grants messages.now) }
{
    let mut grants = BTreeMap::new(alloc);
    for message in messages {
        note_message(alloc, &mut grants, message)?;
    }
    Ok(grants)
}
