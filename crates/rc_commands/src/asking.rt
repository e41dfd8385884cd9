//! What the command line of `ramseg` asks for, read with `clap`.

ghost use Rattle.std.specs.Prelude.{◌≡◌, ◌≢◌, ◌↔◌, Some, None, true, false, map, codes, string_bytes, IfOk};
ghost use Rattle.std.specs.Prelude.{option_map, MatchResult, option_and_then, List, ℕ, ◌≤◌};
ghost use Rattle.clap.specs.Faults.{fault_of};
ghost use Rattle.clap.specs.Words.{found_of, kind_of, rows_of, subcommand_rows_of};
ghost use Rattle.rc_commands.specs.Asking.{IsInRange, Tells, as_command, asked_in, asks_for_text};
ghost use Rattle.rc_commands.specs.Asking.{command_in, drawn_in, explore_in, fuzz_in};
ghost use Rattle.rc_commands.specs.Asking.{fuzz_line, heap_line, is_alone, is_plain, is_request, is_text, named_in};
ghost use Rattle.rc_commands.specs.Asking.{option_zip_with, run_in, shrink_in, seeds_or_first, single_in};
ghost use Rattle.rc_commands.specs.Asking.{sought_in, stops_in, stops_line, survey_in, threads_in, unread_in};
ghost use Rattle.rc_commands.specs.Asking.{until_in, IsFew, IsSized, drawing_in, explored_in, is_sized, plain_in};
ghost use Rattle.rc_commands.specs.Numbers.{decimal_in};
ghost use Rattle.rc_commands.specs.Commands.{ramseg};

use crate::commands::program;
use crate::numbers::{BadWord, has_flag, has_option, number_of, seeds_of};
use clap::error::ErrorKind;
use clap::{ArgMatches, Error};
use rc_types::Seq;
use std::alloc::{AllocError, Global};

/// What runs are drawn with so that much happens.
#[derive(Clone, Copy)]
pub struct Drawing {
    /// From which the events are drawn: the only seed, or the first one.
    pub seed: u64,
    /// How many steps are drawn.
    pub steps: u32,
    /// How many hosts there are.
    pub hosts: u8,
    /// How many replicas each segment has.
    pub factor: u8,
    /// How many entries a segment takes.
    pub segment: u16,
    /// Whether masters free segments.
    pub free: bool,
}

/// What a command line asks for.
#[derive(Drop)]
pub enum Asked {
    /// Replay a scenario; where a heap is given, the coordinator's tree stands in one of so many bytes.
    Run {
        heap: Option<usize>,
    },
    /// Replay a scenario, and write the trace of what was sent.
    Trace,
    /// Judge a trace.
    Audit,
    /// Replay a scenario, and write its clients' writes and confirmed reads.
    History,
    /// Judge a history of clients.
    Check,
    /// Run events that are drawn from a seed, with freed segments where `free` says so.
    Fuzz {
        seed: u64,
        steps: u32,
        free: bool,
    },
    /// Draw events from a seed, and cut the power after each of them.
    Stops {
        seed: u64,
        steps: u32,
    },
    /// Draw events from a seed so that much happens, and cut the power after each of them.
    StopsExplored {
        drawing: Drawing,
    },
    /// Run nodes on threads: so many hosts, and so many writes.
    Threads {
        hosts: u8,
        writes: u32,
    },
    /// Run events that are drawn from a seed so that much happens; or print them, where `save` says so.
    Explore {
        drawing: Drawing,
        save: bool,
        progress: bool,
    },
    /// Run events that are drawn so from each seed, the drawing's up to the last, and sum up what was reached.
    Survey {
        drawing: Drawing,
        last: u64,
        progress: bool,
    },
    /// Look among the seeds, the drawing's up to the last, for the first whose run reaches what is named so: a rule,
    /// or a kind of event or of message; print how, or the events up to there, where `save` says so.
    Until {
        goal: Seq<u8>,
        drawing: Drawing,
        last: u64,
        save: bool,
        progress: bool,
    },
    /// Look for a smallest scenario whose report still has a line that begins with this text.
    Shrink {
        keep: Seq<u8>,
    },
    /// Replay a scenario, and tell each event and each message as JSON.
    Log,
    /// Add to a scenario the events that bring its tablets back; after all servers were stopped and all hosts started,
    /// where `power_cycle` says so.
    Heal {
        power_cycle: bool,
    },
    /// Nothing but this text, for standard output: help, or the version.
    Tell(String),
    /// It is wrong; this text is for standard error.
    Wrong(String),
}

/// What the words after the program's name ask for. Fails only where memory was refused (F1).
pub fn asked_for(alloc: Global, words: &[String]) -> Result<Asked, AllocError>
    // Exactly the command that `clap` finds in the words, with its options; else a text.
    ensures command { IfOk result (λ a. as_command a ≡ asked_in (map string_bytes words.now)) }
    ensures tells { IfOk result (Tells (fault_of ramseg (map string_bytes words.now))) }
    ensures ranges { IfOk result IsInRange }

    // Lines without options, by their words alone.
    ensures run { IfOk result
        (λ a. (a ≡ Asked.Run None) ↔ (is_alone (codes "run") (map string_bytes words.now) ≡ true)) }
    ensures trace { IfOk result
        (λ a. (a ≡ Asked.Trace) ↔ (is_alone (codes "trace") (map string_bytes words.now) ≡ true)) }
    ensures audit { IfOk result
        (λ a. (a ≡ Asked.Audit) ↔ (is_alone (codes "audit") (map string_bytes words.now) ≡ true)) }
    ensures fuzz { IfOk result
        (λ a. is_alone (codes "fuzz") (map string_bytes words.now) ≡ true → a ≡ Asked.Fuzz 1 1000 false) }
    ensures stops { IfOk result
        (λ a. is_alone (codes "stops") (map string_bytes words.now) ≡ true → a ≡ Asked.Stops 1 300) }
    ensures threads { IfOk result
        (λ a. is_alone (codes "threads") (map string_bytes words.now) ≡ true → a ≡ Asked.Threads 4 10) }
    ensures explore { IfOk result (λ a. is_alone (codes "explore") (map string_bytes words.now) ≡ true
        → a ≡ Asked.Explore (record { seed = 1; steps = 2000; hosts = 5; factor = 2; segment = 2; free = false })
        false false) }
    ensures log { IfOk result
        (λ a. is_alone (codes "log") (map string_bytes words.now) ≡ true → a ≡ Asked.Log) }
    ensures heal { IfOk result
        (λ a. is_alone (codes "heal") (map string_bytes words.now) ≡ true → a ≡ Asked.Heal false) }
    ensures history { IfOk result
        (λ a. is_alone (codes "history") (map string_bytes words.now) ≡ true → a ≡ Asked.History) }
    ensures check { IfOk result
        (λ a. is_alone (codes "check") (map string_bytes words.now) ≡ true → a ≡ Asked.Check) }
    ensures texts { IfOk result (λ a. is_plain (map string_bytes words.now) ≡ true
        → is_text a ≡ asks_for_text (map string_bytes words.now)) }

    // Lines with each option of a command once, by their words.
    ensures heap { IfOk result (λ a. (bytes : List ℕ) → map string_bytes words.now ≡ heap_line bytes
        → as_command a ≡ option_map (λ n. Asked.Run (Some n)) (decimal_in 16 1048576 bytes)) }
    ensures drawn { IfOk result (λ a. (seed steps : List ℕ) → map string_bytes words.now ≡ fuzz_line seed steps
        → as_command a ≡ option_zip_with (λ s n. Asked.Fuzz s n true)
        (decimal_in 0 18446744073709551615 seed) (decimal_in 0 100000 steps)) }
    ensures cut { IfOk result (λ a. (seed steps : List ℕ) → map string_bytes words.now ≡ stops_line seed steps
        → as_command a ≡ option_zip_with (λ s n. Asked.Stops s n)
        (decimal_in 0 18446744073709551615 seed) (decimal_in 0 1000 steps)) }
{
    match program(alloc)?.try_get_matches_from(words) {
        Ok(matches) => found(alloc, &matches),
        Err(error) => refused(alloc, &error),
    }
}

/// The command that was found, or what is wrong with one of its numbers.
fn found(alloc: Global, matches: &ArgMatches<'_>) -> Result<Asked, AllocError>
    ensures command { IfOk result (λ a. as_command a
        ≡ option_and_then (λ p. command_in p.0 p.1) (subcommand_rows_of matches.now)) }
    ensures text { IfOk result (λ a. is_text a ≡ false) }
    ensures ranges { IfOk result IsInRange }
{
    match matches.subcommand() {
        Some((name, given)) => found_named(alloc, name, given),
        None => wrong(alloc, &BadWord::NoCommand),
    }
}

/// The command of this name, or what is wrong with what was given for it.
fn found_named(alloc: Global, name: &str, given: &ArgMatches<'_>) -> Result<Asked, AllocError>
    ensures command { IfOk result (λ a. as_command a ≡ command_in name.now (rows_of (found_of given.now))) }
    ensures text { IfOk result (λ a. is_text a ≡ false) }
    ensures ranges { IfOk result IsInRange }
{
    match name {
        "shrink" => shrink_of(alloc, given),
        "explore" => explore_of(alloc, given),
        _ => match command_named(name, given) {
            Ok(command) => Ok(command),
            Err(word) => wrong(alloc, &word),
        },
    }
}

/// What is wrong with a word.
fn wrong(alloc: Global, word: &BadWord<'_>) -> Result<Asked, AllocError>
    ensures command { IfOk result (λ a. as_command a ≡ None) }
    ensures text { IfOk result (λ a. is_text a ≡ false) }
    ensures ranges { IfOk result IsInRange }
{
    Ok(Asked::Wrong(word.to_string(alloc)?))
}

/// `shrink` with its text.
fn shrink_of(alloc: Global, given: &ArgMatches<'_>) -> Result<Asked, AllocError>
    ensures command { IfOk result (λ a. as_command a ≡ shrink_in (rows_of (found_of given.now))) }
    ensures text { IfOk result (λ a. is_text a ≡ false) }
    ensures ranges { IfOk result IsInRange }
{
    let Some(text) = given.get_str("keep") else {
        return wrong(alloc, &BadWord::NoText);
    };
    let keep = Seq::from_vec(text.as_bytes().to_vec(alloc)?);
    Ok(Asked::Shrink { keep })
}

/// The command of this name with its options, of those that need no memory for it.
fn command_named<'a>(name: &str, given: &ArgMatches<'a>) -> Result<Asked, BadWord<'a>>
    ensures command { let asked = named_in name.now (rows_of (found_of given.now)) in
        MatchResult result (λ a. as_command a ≡ asked) (λ _. asked ≡ None) }
    ensures text { IfOk result (λ a. is_text a ≡ false) }
    ensures ranges { IfOk result IsInRange }
{
    match name {
        "run" => run_of(given),
        "trace" => Ok(Asked::Trace),
        "audit" => Ok(Asked::Audit),
        "history" => Ok(Asked::History),
        "check" => Ok(Asked::Check),
        "log" => Ok(Asked::Log),
        "heal" => Ok(Asked::Heal {
            power_cycle: has_flag(given, "power-cycle"),
        }),
        _ => unread_named(name, given),
    }
}

/// The command of this name with its options, of those that read nothing from standard input.
fn unread_named<'a>(name: &str, given: &ArgMatches<'a>) -> Result<Asked, BadWord<'a>>
    ensures command { let asked = unread_in name.now (rows_of (found_of given.now)) in
        MatchResult result (λ a. as_command a ≡ asked) (λ _. asked ≡ None) }
    ensures text { IfOk result (λ a. is_text a ≡ false) }
    ensures ranges { IfOk result IsInRange }
{
    match name {
        "fuzz" => fuzz_of(given),
        "stops" => stops_of(given),
        "threads" => threads_of(given),
        _ => Err(BadWord::NoCommand),
    }
}

/// `run` with its option.
fn run_of<'a>(given: &ArgMatches<'a>) -> Result<Asked, BadWord<'a>>
    ensures command { let asked = run_in (rows_of (found_of given.now)) in
        MatchResult result (λ a. as_command a ≡ asked) (λ _. asked ≡ None) }
    ensures text { IfOk result (λ a. is_text a ≡ false) }
    ensures ranges { IfOk result IsInRange }
{
    let heap = match number_of(given, "heap", 16, 1_048_576)? {
        Some(bytes) => Some(bytes as usize),
        None => None,
    };
    Ok(Asked::Run { heap })
}

/// `fuzz` with its options.
fn fuzz_of<'a>(given: &ArgMatches<'a>) -> Result<Asked, BadWord<'a>>
    ensures command { let asked = fuzz_in (rows_of (found_of given.now)) in
        MatchResult result (λ a. as_command a ≡ asked) (λ _. asked ≡ None) }
    ensures text { IfOk result (λ a. is_text a ≡ false) }
    ensures ranges { IfOk result IsInRange }
{
    let seed = number_of(given, "seed", 0, u64::MAX)?.unwrap_or(1);
    let steps = number_of(given, "steps", 0, 100_000)?.unwrap_or(1_000) as u32;
    let free = has_flag(given, "free");
    Ok(Asked::Fuzz { seed, steps, free })
}

/// `stops` with its options.
fn stops_of<'a>(given: &ArgMatches<'a>) -> Result<Asked, BadWord<'a>>
    ensures command { let asked = stops_in (rows_of (found_of given.now)) in
        MatchResult result (λ a. as_command a ≡ asked) (λ _. asked ≡ None) }
    ensures text { IfOk result (λ a. is_text a ≡ false) }
    ensures ranges { IfOk result IsInRange }
{
    if has_flag(given, "explored") {
        explored_of(given)
    } else if is_sized(given) {
        Err(BadWord::OnlyExplored)
    } else {
        plain_of(given)
    }
}

/// Whether hosts, replicas or segments were given.
fn is_sized(given: &ArgMatches<'_>) -> bool
    ensures { result ≡ is_sized (rows_of (found_of given.now)) }
{
    has_option(given, "hosts")
        || has_option(given, "factor")
        || has_option(given, "segment")
        || has_flag(given, "free")
}

/// `stops --explored` with its other options.
fn explored_of<'a>(given: &ArgMatches<'a>) -> Result<Asked, BadWord<'a>>
    ensures command { let asked = explored_in (rows_of (found_of given.now)) in
        MatchResult result (λ a. as_command a ≡ asked) (λ _. asked ≡ None) }
    ensures text { IfOk result (λ a. is_text a ≡ false) }
    ensures ranges { IfOk result IsInRange }
{
    let seed = number_of(given, "seed", 0, u64::MAX)?.unwrap_or(1);
    let drawing = drawing_of(given, seed, 300, 1_000)?;
    Ok(Asked::StopsExplored { drawing })
}

/// What is drawn from this seed, with so many steps where none are given, and so many at most.
#[tactic(auto, unfolding(crate::specs::Asking::drawing_in))]
fn drawing_of<'a>(
    given: &ArgMatches<'a>,
    seed: u64,
    usual: u64,
    most: u64,
) -> Result<Drawing, BadWord<'a>>
    requires usual { usual ≤ most }
    requires few { most ≤ 100000 }
    ensures drawing { let drawing = drawing_in seed usual most (rows_of (found_of given.now)) in
        MatchResult result (λ found. drawing ≡ Some found) (λ _. drawing ≡ None) }
    ensures seed { IfOk result (λ found. found.seed ≡ seed) }
    ensures ranges { IfOk result (IsSized most) }
{
    let steps = number_of(given, "steps", 0, most)?.unwrap_or(usual) as u32;
    let hosts = number_of(given, "hosts", 1, 16)?.unwrap_or(5) as u8;
    let factor = number_of(given, "factor", 1, 5)?.unwrap_or(2) as u8;
    let segment = number_of(given, "segment", 1, 1_024)?.unwrap_or(2) as u16;
    let free = has_flag(given, "free");
    Ok(Drawing {
        seed,
        steps,
        hosts,
        factor,
        segment,
        free,
    })
}

/// `stops` of the events that `fuzz` draws, with its other options.
fn plain_of<'a>(given: &ArgMatches<'a>) -> Result<Asked, BadWord<'a>>
    ensures command { let asked = plain_in (rows_of (found_of given.now)) in
        MatchResult result (λ a. as_command a ≡ asked) (λ _. asked ≡ None) }
    ensures text { IfOk result (λ a. is_text a ≡ false) }
    ensures ranges { IfOk result IsInRange }
{
    let seed = number_of(given, "seed", 0, u64::MAX)?.unwrap_or(1);
    let steps = number_of(given, "steps", 0, 1_000)?.unwrap_or(300) as u32;
    Ok(Asked::Stops { seed, steps })
}

/// `threads` with its options.
fn threads_of<'a>(given: &ArgMatches<'a>) -> Result<Asked, BadWord<'a>>
    ensures command { let asked = threads_in (rows_of (found_of given.now)) in
        MatchResult result (λ a. as_command a ≡ asked) (λ _. asked ≡ None) }
    ensures text { IfOk result (λ a. is_text a ≡ false) }
    ensures ranges { IfOk result IsInRange }
{
    let hosts = number_of(given, "hosts", 3, 16)?.unwrap_or(4) as u8;
    let writes = number_of(given, "writes", 0, 1_000)?.unwrap_or(10) as u32;
    Ok(Asked::Threads { hosts, writes })
}

/// `explore` with its options.
fn explore_of(alloc: Global, given: &ArgMatches<'_>) -> Result<Asked, AllocError>
    ensures command { IfOk result (λ a. as_command a ≡ explore_in (rows_of (found_of given.now))) }
    ensures text { IfOk result (λ a. is_text a ≡ false) }
    ensures ranges { IfOk result IsInRange }
{
    match given.get_str("until") {
        Some(goal) => until_named(alloc, given, goal),
        None => drawn(alloc, given),
    }
}

/// `explore` of several seeds until one reaches what is named so.
fn until_named(alloc: Global, given: &ArgMatches<'_>, name: &str) -> Result<Asked, AllocError>
    ensures command { IfOk result (λ a. as_command a ≡ until_in name.now (rows_of (found_of given.now))) }
    ensures text { IfOk result (λ a. is_text a ≡ false) }
    ensures ranges { IfOk result IsInRange }
{
    let goal = Seq::from_vec(name.as_bytes().to_vec(alloc)?);
    match until_of(given, goal) {
        Ok(command) => Ok(command),
        Err(word) => wrong(alloc, &word),
    }
}

/// `explore` of one seed or of several, or what is wrong with it.
fn drawn(alloc: Global, given: &ArgMatches<'_>) -> Result<Asked, AllocError>
    ensures command { IfOk result (λ a. as_command a ≡ drawn_in (rows_of (found_of given.now))) }
    ensures text { IfOk result (λ a. is_text a ≡ false) }
    ensures ranges { IfOk result IsInRange }
{
    match drawn_of(given) {
        Ok(command) => Ok(command),
        Err(word) => wrong(alloc, &word),
    }
}

/// `explore` of one seed or of several.
fn drawn_of<'a>(given: &ArgMatches<'a>) -> Result<Asked, BadWord<'a>>
    ensures command { let asked = drawn_in (rows_of (found_of given.now)) in
        MatchResult result (λ a. as_command a ≡ asked) (λ _. asked ≡ None) }
    ensures text { IfOk result (λ a. is_text a ≡ false) }
    ensures ranges { IfOk result IsInRange }
{
    match seeds_of(given)? {
        Some(seeds) => survey_of(given, seeds),
        None => single_of(given),
    }
}

/// `explore` of these seeds with its other options.
fn survey_of<'a>(given: &ArgMatches<'a>, seeds: (u64, u64)) -> Result<Asked, BadWord<'a>>
    requires few { IsFew seeds }
    ensures command { let asked = survey_in seeds (rows_of (found_of given.now)) in
        MatchResult result (λ a. as_command a ≡ asked) (λ _. asked ≡ None) }
    ensures text { IfOk result (λ a. is_text a ≡ false) }
    ensures ranges { IfOk result IsInRange }
{
    if has_option(given, "seed") || has_flag(given, "save") {
        return Err(BadWord::NotTogether);
    }
    let (first, last) = seeds;
    let drawing = drawing_of(given, first, 2_000, 100_000)?;
    let progress = has_flag(given, "progress");
    Ok(Asked::Survey {
        drawing,
        last,
        progress,
    })
}

/// `explore` of one seed with its options.
fn single_of<'a>(given: &ArgMatches<'a>) -> Result<Asked, BadWord<'a>>
    ensures command { let asked = single_in (rows_of (found_of given.now)) in
        MatchResult result (λ a. as_command a ≡ asked) (λ _. asked ≡ None) }
    ensures text { IfOk result (λ a. is_text a ≡ false) }
    ensures ranges { IfOk result IsInRange }
{
    let seed = number_of(given, "seed", 0, u64::MAX)?.unwrap_or(1);
    let drawing = drawing_of(given, seed, 2_000, 100_000)?;
    let save = has_flag(given, "save");
    let progress = has_flag(given, "progress");
    Ok(Asked::Explore {
        drawing,
        save,
        progress,
    })
}

/// `explore` of several seeds until one reaches this.
fn until_of<'a>(given: &ArgMatches<'a>, goal: Seq<u8>) -> Result<Asked, BadWord<'a>>
    ensures command { let asked = until_in goal (rows_of (found_of given.now)) in
        MatchResult result (λ a. as_command a ≡ asked) (λ _. asked ≡ None) }
    ensures text { IfOk result (λ a. is_text a ≡ false) }
    ensures ranges { IfOk result IsInRange }
{
    if has_option(given, "seed") {
        return Err(BadWord::NoSeed);
    }
    let seeds = seeds_sought(given)?;
    sought_of(given, goal, seeds)
}

/// The seeds that are looked through: those that were given, or else the first ones.
fn seeds_sought<'a>(given: &ArgMatches<'a>) -> Result<(u64, u64), BadWord<'a>>
    ensures seeds { let seeds = seeds_or_first (rows_of (found_of given.now)) in
        MatchResult result (λ found. seeds ≡ Some found) (λ _. seeds ≡ None) }
    ensures few { IfOk result IsFew }
{
    match seeds_of(given)? {
        Some(seeds) => Ok(seeds),
        None => Ok((1, 10_000)),
    }
}

/// `explore` of these seeds until one reaches this, with its other options.
fn sought_of<'a>(
    given: &ArgMatches<'a>,
    goal: Seq<u8>,
    seeds: (u64, u64),
) -> Result<Asked, BadWord<'a>>
    requires few { IsFew seeds }
    ensures command { let asked = sought_in seeds goal (rows_of (found_of given.now)) in
        MatchResult result (λ a. as_command a ≡ asked) (λ _. asked ≡ None) }
    ensures text { IfOk result (λ a. is_text a ≡ false) }
    ensures ranges { IfOk result IsInRange }
{
    let (first, last) = seeds;
    let drawing = drawing_of(given, first, 2_000, 100_000)?;
    let save = has_flag(given, "save");
    let progress = has_flag(given, "progress");
    Ok(Asked::Until {
        goal,
        drawing,
        last,
        save,
        progress,
    })
}

/// What is told in place of a command's work: help and the version, or what is wrong.
fn refused(alloc: Global, error: &Error) -> Result<Asked, AllocError>
    ensures command { IfOk result (λ a. as_command a ≡ None) }
    ensures kind { IfOk result (λ a. (kind_of error.now ≢ ErrorKind.OutOfMemory)
        × (is_request (kind_of error.now) ≡ is_text a)) }
    ensures ranges { IfOk result IsInRange }
{
    if error.kind() == ErrorKind::OutOfMemory {
        return Err(AllocError);
    }
    let text = error.to_string(alloc)?;
    if error.use_stderr() {
        Ok(Asked::Wrong(text))
    } else {
        Ok(Asked::Tell(text))
    }
}
