//! The words that choose an event.

ghost use Rattle.std.specs.Prelude.{◌≡◌};
ghost use Rattle.rand_pcg.specs.Lcg.{Lcg};

use rand_core::utils::NextWord;
use rand_pcg::Pcg32;

/// Three words of the generator.
#[derive(Clone, Copy)]
pub(crate) struct Words {
    /// Chooses which kind of event it is.
    pub(crate) kind: u32,
    /// Chooses the message or the host.
    pub(crate) target: u32,
    /// Chooses the rest.
    pub(crate) detail: u32,
}

impl Words {
    ghost use Rattle.rc_runs.specs.Words.{next_words, after_words};

    /// The next three words.
    pub(crate) fn take(generator: &mut Pcg32) -> Words
        ensures words { result ≡ next_words generator.old }
        ensures rest { generator.new ≡ after_words generator.old }
    {
        let kind = next_word(generator);
        let target = next_word(generator);
        let detail = next_word(generator);
        Words {
            kind,
            target,
            detail,
        }
    }
}

ghost use Rattle.rc_runs.specs.Generator.{generator, word, moved};

/// The generator of a seed.
#[tactic(auto, unfolding(crate::specs::Generator::generator))]
pub(crate) fn generator_of(seed: u64) -> Pcg32
    ensures { result ≡ generator seed }
{
    Pcg32::new(seed, 54)
}

/// One word.
#[tactic(auto, unfolding(crate::specs::Generator::word, crate::specs::Generator::moved))]
fn next_word(generator: &mut Pcg32) -> u32
    ensures word { result ≡ word generator.old }
    ensures moved { generator.new ≡ moved generator.old }
{
    generator.next_word()
}
