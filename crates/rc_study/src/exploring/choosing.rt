//! Which kind of event comes next.

use crate::exploring::roster::KEYS;
use rand_core::utils::NextWord;
use rand_pcg::Pcg32;

/// Three words of the generator.
#[derive(Clone, Copy)]
pub(crate) struct Words {
    /// Chooses the kind of event.
    pub(crate) kind: u32,
    /// Chooses the host, the key or the message.
    pub(crate) target: u32,
    /// Chooses the rest.
    pub(crate) detail: u32,
}

impl Words {
    /// The next three.
    pub(crate) fn take(generator: &mut Pcg32) -> Words {
        Words {
            kind: generator.next_word(),
            target: generator.next_word(),
            detail: generator.next_word(),
        }
    }

    /// The key that they choose.
    pub(crate) fn key(self) -> u64 {
        u64::from(self.target % KEYS as u32)
    }
}

/// A kind of event.
#[derive(Clone, Copy)]
pub(crate) enum Choice {
    /// One of the first messages that wait is delivered.
    Deliver,
    /// One of them is lost.
    Lose,
    /// One of them is delivered, and will be once more.
    Repeat,
    /// One of them is held back.
    Hold,
    /// One that was held back is delivered.
    Release,
    Write,
    Delete,
    Read,
    Tick,
    TickCoordinator,
    Stop,
    Start,
    Suspect,
    Decide,
    Split,
    Create,
}

/// So many messages wait in a run that has fallen behind.
const MANY: usize = 6;

impl Choice {
    /// What a word chooses, of a thousand chances, where so many messages wait.
    pub(crate) fn of(word: u32, waiting: usize) -> Choice {
        if waiting > MANY && word % 8 > 0 {
            return Choice::of_mail(word / 8);
        }
        match word % 1_000 {
            0..=619 => Choice::of_mail(word / 1_000),
            620..=734 => Choice::Write,
            735..=739 => Choice::Delete,
            740..=764 => Choice::Read,
            765..=824 => Choice::Tick,
            825..=849 => Choice::TickCoordinator,
            850..=869 => Choice::Stop,
            870..=909 => Choice::Start,
            910..=929 => Choice::Suspect,
            930..=989 => Choice::Decide,
            990..=993 => Choice::Split,
            _ => Choice::Create,
        }
    }

    /// What a word chooses to do with what waits.
    fn of_mail(word: u32) -> Choice {
        match word % 100 {
            0..=88 => Choice::Deliver,
            89..=90 => Choice::Lose,
            91..=93 => Choice::Repeat,
            94..=96 => Choice::Hold,
            _ => Choice::Release,
        }
    }
}
