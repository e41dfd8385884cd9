//! A coordinator's book, read part by part, and made the lists of a coordinator.

ghost use Rattle.std.specs.Prelude.{◌≡◌, IfOk};
ghost use Rattle.rc_codec.specs.Reading.{Gives, optional_at};
ghost use Rattle.rc_keeping.specs.SaveReaders.{decision_at};

use rc_codec::{DecodeFault, Take};
use rc_coordinator::{Attempt, Decision, GivenPart, Lists};
use rc_types::{Grant, Pair, Part, Plan, PlanRow, Row, Seq, ServerId, Tablet};
use std::alloc::{AllocError, Global};
use std::marker::Model;

/// A part of a recovery, and who recovers it.
#[derive(Drop)]
pub(crate) struct Given {
    pub(crate) to: ServerId,
    pub(crate) part: Part,
}

impl Model for Given {
    ghost use Rattle.rc_model.specs.Attempts.{GivenPart as Told};

    ghost Value = { Told };

    ghost view = { λ g. record { to = g.to; part = g.part } };
}

impl Given {
    /// The same, as a coordinator has it.
    fn into_given(self) -> GivenPart
        ensures { result ≡ self }
    {
        let Given { to, part } = self;
        GivenPart { to, part }
    }
}

impl Take for Given {
    ghost use Rattle.rc_keeping.specs.SaveReaders.{given_at};

    ghost read = { given_at };

    fn take(alloc: Global, bytes: &[u8]) -> Result<(Given, &[u8]), DecodeFault> {
        let ((to, part), rest) = <(ServerId, Part)>::take(alloc, bytes)?;
        Ok((Given { to, part }, rest))
    }
}

/// What was decided on an attempt.
#[derive(Drop)]
pub(crate) struct Decided {
    pub(crate) plan: Plan,
    pub(crate) parts: Seq<Given>,
}

impl Model for Decided {
    ghost use Rattle.rc_model.specs.Attempts.{Decision as Told};

    ghost Value = { Told };

    ghost view = { λ d. record { plan = d.plan; parts = d.parts } };
}

impl Decided {
    /// The same, as a coordinator has it.
    fn into_decision(self, alloc: Global) -> Result<Decision, AllocError>
        ensures { IfOk result (λ decision. decision ≡ self) }
    {
        let Decided { plan, parts } = self;
        let parts = given_parts(alloc, parts.into_vec())?;
        Ok(Decision::new(plan, parts))
    }
}

impl Take for Decided {
    ghost use Rattle.rc_keeping.specs.SaveReaders.{decision_at};

    ghost read = { decision_at };

    fn take(alloc: Global, bytes: &[u8]) -> Result<(Decided, &[u8]), DecodeFault> {
        let ((head, rows, parts), rest) = <(u16, Seq<PlanRow>, Seq<Given>)>::take(alloc, bytes)?;
        let plan = Plan { head, rows };
        Ok((Decided { plan, parts }, rest))
    }
}

/// An attempt to recover a crashed master.
#[derive(Drop)]
pub(crate) struct Begun {
    pub(crate) master: ServerId,
    pub(crate) replies: Seq<(ServerId, Seq<Row>)>,
    pub(crate) decided: Option<Decided>,
}

impl Model for Begun {
    ghost use Rattle.rc_model.specs.Attempts.{Attempt as Told};

    ghost Value = { Told };

    ghost view = { λ b. record { master = b.master; replies = b.replies; decided = b.decided } };
}

impl Begun {
    /// The same, as a coordinator has it.
    fn into_attempt(self, alloc: Global) -> Result<Attempt, AllocError>
        ensures { IfOk result (λ attempt. attempt ≡ self) }
    {
        let Begun {
            master,
            replies,
            decided,
        } = self;
        let decided = into_decided(alloc, decided)?;
        Ok(Attempt::of_parts(master, replies.into_vec(), decided))
    }
}

impl Take for Begun {
    ghost use Rattle.rc_keeping.specs.SaveReaders.{attempt_at};

    ghost read = { attempt_at };

    fn take(alloc: Global, bytes: &[u8]) -> Result<(Begun, &[u8]), DecodeFault> {
        let ((master, replies), rest) = <(ServerId, Seq<(ServerId, Seq<Row>)>)>::take(
            alloc, bytes,
        )?;
        let (decided, rest) = take_decided(alloc, rest)?;
        let begun = Begun {
            master,
            replies,
            decided,
        };
        Ok((begun, rest))
    }
}

/// 0 where nothing was decided; else 1, and the decision.
fn take_decided(alloc: Global, bytes: &[u8]) -> Result<(Option<Decided>, &[u8]), DecodeFault>
    ensures { Gives (λ x. (x.0, x.1.now)) result (optional_at decision_at bytes.now) }
{
    match bytes {
        [0, rest @ ..] => Ok((None, rest)),
        [1, rest @ ..] => {
            let (decided, rest) = Decided::take(alloc, rest)?;
            Ok((Some(decided), rest))
        }
        _ => Err(DecodeFault::Malformed),
    }
}

/// What was decided, if anything, as a coordinator has it.
fn into_decided(alloc: Global, decided: Option<Decided>) -> Result<Option<Decision>, AllocError>
    ensures { IfOk result (λ made. made ≡ decided) }
{
    match decided {
        Some(decided) => Ok(Some(decided.into_decision(alloc)?)),
        None => Ok(None),
    }
}

/// These parts, as a coordinator has them.
fn given_parts(alloc: Global, parts: Vec<Given>) -> Result<Vec<GivenPart>, AllocError>
    ensures { IfOk result (λ made. made.items ≡ parts.items) }
{
    let mut made = Vec::with_capacity(alloc, parts.len())?;
    for given in parts {
        made.push(given.into_given())?;
    }
    Ok(made)
}

/// These attempts, as a coordinator has them.
fn attempts(alloc: Global, begun: Vec<Begun>) -> Result<Vec<Attempt>, AllocError>
    ensures { IfOk result (λ made. made.items ≡ begun.items) }
{
    let mut made = Vec::with_capacity(alloc, begun.len())?;
    for one in begun {
        made.push(one.into_attempt(alloc)?)?;
    }
    Ok(made)
}

/// All that a coordinator knows, in whatever order.
#[derive(Drop)]
pub(crate) struct WrittenBook {
    pub(crate) version: u32,
    pub(crate) rows: Seq<(ServerId, bool)>,
    pub(crate) ready: Seq<ServerId>,
    pub(crate) tablets: Seq<Tablet>,
    pub(crate) least: Seq<(ServerId, Pair)>,
    pub(crate) attempts: Seq<Begun>,
    pub(crate) current: Seq<(ServerId, u32)>,
    pub(crate) grants: Seq<Grant>,
    pub(crate) last_term: u32,
}

impl Model for WrittenBook {
    ghost use Rattle.rc_coordinator.specs.Book.{Book};

    ghost Value = { Book };

    ghost view = { λ w. record {
      servers = record { version = w.version; rows = w.rows };
      ready = w.ready;
      tablets = w.tablets;
      least = w.least;
      attempts = w.attempts;
      current = w.current;
      grants = w.grants;
      last_term = w.last_term;
    } };
}

impl WrittenBook {
    /// The same, as a coordinator is made of it.
    pub(crate) fn into_lists(self, alloc: Global) -> Result<Lists, AllocError>
        ensures { IfOk result (λ lists. lists ≡ self) }
    {
        let WrittenBook {
            version,
            rows,
            ready,
            tablets,
            least,
            attempts: begun,
            current,
            grants,
            last_term,
        } = self;
        let attempts = attempts(alloc, begun.into_vec())?;
        Ok(Lists {
            version,
            rows,
            ready,
            tablets,
            least,
            attempts: Seq::from_vec(attempts),
            current,
            grants,
            last_term,
        })
    }
}

/// The servers, who is ready, the tablets and the least pairs.
type Known = (
    u32,
    Seq<(ServerId, bool)>,
    Seq<ServerId>,
    Seq<Tablet>,
    Seq<(ServerId, Pair)>,
);

/// The attempts, which of them are current, the grants and the last term.
type Recovering = (Seq<Begun>, Seq<(ServerId, u32)>, Seq<Grant>, u32);

impl Take for WrittenBook {
    ghost use Rattle.rc_keeping.specs.SaveReaders.{book_at};

    ghost read = { book_at };

    fn take(alloc: Global, bytes: &[u8]) -> Result<(WrittenBook, &[u8]), DecodeFault> {
        let ((known, recovering), rest) = <(Known, Recovering)>::take(alloc, bytes)?;
        let (version, rows, ready, tablets, least) = known;
        let (attempts, current, grants, last_term) = recovering;
        let book = WrittenBook {
            version,
            rows,
            ready,
            tablets,
            least,
            attempts,
            current,
            grants,
            last_term,
        };
        Ok((book, rest))
    }
}
