//! An attempt to recover a crashed master, with the answers of the backups and what was decided.

ghost use Rattle.std.specs.Prelude.{◌≡◌, ◌++◌, ◌∷◌, [], nat_eq, true, length, find};
ghost use Rattle.std.specs.Prelude.{Some, OnOk, OnErr, IfOk};
ghost use Rattle.std.specs.Option.{option_copied};
ghost use Rattle.rc_model.specs.Attempts.{new_attempt, has_answered, is_gathering, parts_of};
ghost use Rattle.rc_model.specs.Deciding.{part_in};
ghost use Rattle.rc_attempts.specs.Terms.{terms_rise, part_if};

use rc_types::{Part, Plan, Row, Seq, ServerId, TryClone, copied};
use std::alloc::{AllocError, Global};
use std::marker::Model;

/// A part of a recovery, and the master that recovers it.
#[derive(Drop)]
pub struct GivenPart {
    /// The master.
    pub to: ServerId,
    /// The part.
    pub part: Part,
}

impl Model for GivenPart {
    ghost use Rattle.rc_model.specs.Attempts.{GivenPart as Given};

    ghost Value = { Given };

    ghost view = { λ g. record { to = g.to; part = g.part } };
}

/// What was decided on an attempt: where the log is, and who recovers which part. Parts get their terms in the order in
/// which they are given, so each is looked up by halving; only those of a save may stand in another order.
#[derive(Drop)]
pub struct Decision {
    plan: Plan,
    parts: Vec<GivenPart>,
    rising: bool,
}

impl Model for Decision {
    ghost use Rattle.rc_model.specs.Attempts.{Decision as Decided};

    ghost Value = { Decided };

    ghost use Rattle.std.specs.Prelude.{◌≡◌};
    ghost use Rattle.rc_attempts.specs.Terms.{terms_rise};

    ghost view = { λ d. record { plan = d.plan; parts = d.parts.items } };

    ghost invariant = { λ d. d.rising ≡ terms_rise d.parts.items };
}

impl Decision {
    /// This plan, and these parts, in the order in which they were given.
    pub fn new(plan: Plan, parts: Vec<GivenPart>) -> Decision
        ensures { result ≡ record { plan = plan; parts = parts.items } }
    {
        let rising = terms_rise(&parts);
        Decision {
            plan,
            parts,
            rising,
        }
    }

    /// Where the log is.
    pub fn plan(&self) -> &Plan
        ensures { result.now ≡ self.now.plan }
    {
        &self.plan
    }

    /// The part of this term among those of this recovery master.
    pub(crate) fn part_in(&self, id: ServerId, term: u32) -> Option<Part>
        ensures { result ≡ part_in id term (Some self.now) }
    {
        if self.rising {
            part_among_rising(&self.parts, id, term)
        } else {
            first_part(&self.parts, id, term)
        }
    }

    /// The parts, in the order in which they were given.
    pub fn parts(&self) -> &[GivenPart]
        ensures { result.now ≡ self.now.parts }
    {
        self.parts.as_slice()
    }

    /// How many parts there are.
    pub fn parts_len(&self) -> usize
        ensures { result ≡ length self.now.parts }
    {
        self.parts.len()
    }
}

/// Whether each part has a greater term than the one before it.
fn terms_rise(parts: &[GivenPart]) -> bool
    ensures { result ≡ terms_rise parts.now }
{
    parts.is_sorted_by(|one, next| one.part.term < next.part.term)
}

/// The part of this term that was given to this recovery master, of parts whose terms rise: by halving.
fn part_among_rising(parts: &[GivenPart], id: ServerId, term: u32) -> Option<Part>
    requires { terms_rise parts.now ≡ true }
    ensures { result ≡ find (λ part. nat_eq part.term term) (parts_of id parts.now) }
{
    let place = parts.partition_point(|given| given.part.term < term);
    part_if(parts.get(place), id, term)
}

/// The part, if it has this term and was given to this recovery master.
fn part_if(given: Option<&GivenPart>, id: ServerId, term: u32) -> Option<Part>
    ensures { result ≡ part_if id term (option_copied given.entry) }
{
    match given {
        Some(given) if id == given.to && given.part.term == term => Some(given.part),
        _ => None,
    }
}

/// The first part of this term among those of this recovery master.
fn first_part(parts: &[GivenPart], id: ServerId, term: u32) -> Option<Part>
    ensures { result ≡ find (λ part. nat_eq part.term term) (parts_of id parts.now) }
{
    for given in parts {
        if id == given.to && given.part.term == term {
            return Some(given.part);
        }
    }
    None
}

/// An attempt to recover a crashed master: the answers of the backups, in the order of their
/// coming, and the decision, once it is made.
#[derive(Drop)]
pub struct Attempt {
    master: ServerId,
    replies: Vec<(ServerId, Seq<Row>)>,
    decided: Option<Decision>,
}

impl Model for Attempt {
    ghost use Rattle.rc_model.specs.Attempts.{Attempt as Attempted};

    ghost Value = { Attempted };

    ghost view = { λ a. record { master = a.master; replies = a.replies.items; decided = a.decided } };
}

impl Attempt {
    /// An attempt that nobody has answered. It takes no memory.
    pub fn new(alloc: Global, master: ServerId) -> Attempt
        ensures { result ≡ new_attempt master }
    {
        Attempt {
            master,
            replies: Vec::new(alloc),
            decided: None,
        }
    }

    /// The attempt of these parts: the crashed master, the answers in the order of their coming, and what was decided,
    /// once it is.
    pub fn of_parts(
        master: ServerId,
        replies: Vec<(ServerId, Seq<Row>)>,
        decided: Option<Decision>,
    ) -> Attempt
        ensures { result ≡ record { master = master; replies = replies.items; decided = decided } }
    {
        Attempt {
            master,
            replies,
            decided,
        }
    }

    /// The crashed master.
    pub fn master(&self) -> ServerId
        ensures { result ≡ self.now.master }
    {
        self.master
    }

    /// The answers, in the order of their coming.
    pub fn replies(&self) -> &[(ServerId, Seq<Row>)]
        ensures { result.now ≡ self.now.replies }
    {
        self.replies.as_slice()
    }

    /// Whether nothing has been decided yet.
    pub fn is_gathering(&self) -> bool
        ensures { result ≡ is_gathering self.now }
    {
        self.decided.is_none()
    }

    /// The part of this term that was given to this recovery master.
    pub(crate) fn part_in(&self, id: ServerId, term: u32) -> Option<Part>
        ensures { result ≡ part_in id term self.now.decided }
    {
        match &self.decided {
            Some(decision) => decision.part_in(id, term),
            None => None,
        }
    }

    /// What was decided, once it is.
    pub fn decided(&self) -> Option<&Decision>
        ensures { option_copied result ≡ self.now.decided }
    {
        self.decided.as_ref()
    }

    /// Whether the backup has answered.
    pub fn has_answered(&self, from: ServerId) -> bool
        ensures { result ≡ has_answered from self.now.replies }
    {
        self.replies.iter().any(|reply| from == reply.0)
    }

    /// Keeps an answer. Only memory can be refused (F1), and then the attempt is as it was.
    pub fn keep(&mut self, from: ServerId, rows: Seq<Row>) -> Result<(), AllocError>
        ensures ok { OnOk result (self.new ≡ record self.old { replies = self.old.replies ++ (from, rows) ∷ [] }) }
        ensures err { OnErr result (self.new ≡ self.old) }
    {
        self.replies.push((from, rows))?;
        Ok(())
    }

    /// Keeps the decision.
    pub fn decide(&mut self, decision: Decision)
        ensures { self.new ≡ record self.old { decided = Some decision } }
    {
        self.decided = Some(decision);
    }
}

impl TryClone for GivenPart {
    fn try_clone(&self, _alloc: Global) -> Result<GivenPart, AllocError> {
        Ok(GivenPart {
            to: self.to,
            part: self.part,
        })
    }
}

impl TryClone for Decision {
    fn try_clone(&self, alloc: Global) -> Result<Decision, AllocError> {
        Ok(Decision {
            plan: self.plan.try_clone(alloc)?,
            parts: copied(alloc, self.parts.as_slice())?,
            rising: self.rising,
        })
    }
}

impl TryClone for Attempt {
    fn try_clone(&self, alloc: Global) -> Result<Attempt, AllocError> {
        Ok(Attempt {
            master: self.master,
            replies: copied_replies(alloc, self.replies.as_slice())?,
            decided: self.decided.try_clone(alloc)?,
        })
    }
}

/// Copies of these answers.
fn copied_replies(
    alloc: Global,
    replies: &[(ServerId, Seq<Row>)],
) -> Result<Vec<(ServerId, Seq<Row>)>, AllocError>
    ensures { IfOk result (λ copies. copies.items ≡ replies.now) }
{
    let mut copies = Vec::with_capacity(alloc, replies.len())?;
    for (from, rows) in replies {
        copies.push((*from, rows.try_clone(alloc)?))?;
    }
    Ok(copies)
}
