//! Numbers on the command line, of decimal digits alone.

ghost use Rattle.std.specs.Prelude.{◌≡◌, Some, None, IfOk, IfSome, MatchResult};
ghost use Rattle.clap.specs.Words.{found_of, rows_of};
ghost use Rattle.rc_commands.specs.Asking as spec;
ghost use Rattle.rc_commands.specs.Asking.{IsFew, number_given, seeds_given};
ghost use Rattle.rc_commands.specs.Numbers.{IsWithin, decimal_in};

use clap::ArgMatches;
use std::fmt;

/// A text that was given, and is not what it stands for.
#[derive(Clone, Copy)]
pub enum BadWord<'a> {
    /// No number that this option takes.
    Number {
        option: &'static str,
        text: &'a str,
        least: u64,
        most: u64,
    },
    /// No range of seeds.
    Range {
        text: &'a str,
    },
    /// Options that do not go with a range of seeds.
    NotTogether,
    /// A seed, where the first of several is looked for.
    NoSeed,
    /// Options of `stops` that go with `--explored`.
    OnlyExplored,
    /// `shrink` without its text.
    NoText,
    /// There is no command.
    NoCommand,
}

impl fmt::Display for BadWord<'_> {
    fn fmt<W: fmt::Write>(&self, f: &mut fmt::Formatter<W>) -> fmt::Result {
        match self {
            BadWord::Number {
                option,
                text,
                least,
                most,
            } => write!(
                f,
                "error: '{text}' is no value for '--{option}': decimal digits from {least} to {most}\n"
            )?,
            BadWord::Range { text } => write!(
                f,
                "error: '{text}' is no value for '--seeds': A..B, A at most B, at most {MOST_SEEDS} seeds\n"
            )?,
            BadWord::NoSeed => write!(
                f,
                "error: '--seed' does not go with '--until'; '--seeds' says which are looked through\n"
            )?,
            BadWord::NotTogether => write!(
                f,
                "error: neither '--seed' nor '--save' goes with '--seeds'\n"
            )?,
            BadWord::OnlyExplored => write!(
                f,
                "error: '--hosts', '--factor', '--segment' and '--free' go with '--explored'\n"
            )?,
            BadWord::NoText => write!(f, "error: '--keep' with a text is wanted\n")?,
            BadWord::NoCommand => write!(f, "error: a command is wanted\n")?,
        }
        write!(f, "\nFor more information, try '--help'.\n")
    }
}

/// The most seeds of one command.
const MOST_SEEDS: u64 = 10_000;

/// The number that was given for an option, if one was.
pub fn number_of<'a>(
    given: &ArgMatches<'a>,
    option: &'static str,
    least: u64,
    most: u64,
) -> Result<Option<u64>, BadWord<'a>>
    ensures number { let number = number_given option.now least most (rows_of (found_of given.now)) in
        MatchResult result (λ found. number ≡ Some found) (λ _. number ≡ None) }
    ensures range { IfOk result (IsWithin least most) }
{
    let Some(text) = given.get_str(option) else {
        return Ok(None);
    };
    match number_in(text, least, most) {
        Some(number) => Ok(Some(number)),
        None => Err(BadWord::Number {
            option,
            text,
            least,
            most,
        }),
    }
}

/// Whether this flag was given.
pub(crate) fn has_flag(given: &ArgMatches<'_>, name: &str) -> bool
    ensures { result ≡ spec.has_flag name.now (rows_of (found_of given.now)) }
{
    match given.get_str(name) {
        Some(text) => text == "true",
        None => false,
    }
}

/// Whether this option was given.
pub(crate) fn has_option(given: &ArgMatches<'_>, name: &str) -> bool
    ensures { result ≡ spec.has_option name.now (rows_of (found_of given.now)) }
{
    match given.get_str(name) {
        Some(_) => true,
        None => false,
    }
}

/// The first and the last one of the seeds that were given, if they were.
pub(crate) fn seeds_of<'a>(given: &ArgMatches<'a>) -> Result<Option<(u64, u64)>, BadWord<'a>>
    ensures number { let seeds = seeds_given (rows_of (found_of given.now)) in
        MatchResult result (λ found. seeds ≡ Some found) (λ _. seeds ≡ None) }
    ensures range { IfOk result (λ found. IfSome found IsFew) }
{
    let Some(text) = given.get_str("seeds") else {
        return Ok(None);
    };
    match range_in(text) {
        Some(seeds) => Ok(Some(seeds)),
        None => Err(BadWord::Range { text }),
    }
}

/// The range that is written as two numbers with two points between them.
fn range_in(text: &str) -> Option<(u64, u64)>
    ensures number { result ≡ spec.range_in text.now }
    ensures range { IfSome result IsFew }
{
    let (first, rest) = text.split_once('.')?;
    range_of(first, rest)
}

/// The range whose first number is written so, and what stands after it and a point.
fn range_of(first: &str, rest: &str) -> Option<(u64, u64)>
    ensures number { result ≡ spec.range_of first.now rest.now }
    ensures range { IfSome result IsFew }
{
    let last = rest.strip_prefix(".")?;
    let first = number_in(first, 0, u64::MAX)?;
    let last = number_in(last, 0, u64::MAX)?;
    range_between(first, last)
}

/// The range from one number to another, if it has few.
fn range_between(first: u64, last: u64) -> Option<(u64, u64)>
    ensures number { result ≡ spec.range_between first last }
    ensures range { IfSome result IsFew }
{
    if first <= last && last - first < MOST_SEEDS {
        Some((first, last))
    } else {
        None
    }
}

/// The number that these digits write, if it is in the range.
fn number_in(text: &str, least: u64, most: u64) -> Option<u64>
    ensures number { result ≡ decimal_in least most text.now }
    ensures range { IsWithin least most result }
{
    if text.is_empty() || text.as_bytes()[0] == b'+' {
        return None;
    }
    let Ok(number) = text.parse::<u64>() else {
        return None;
    };
    if least <= number && number <= most {
        Some(number)
    } else {
        None
    }
}
