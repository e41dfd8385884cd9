//! The program's commands and their options, for `clap`.

ghost use Rattle.std.specs.Prelude.{◌≡◌, IfOk, false};
ghost use Rattle.clap.specs.Words.{App, app_of, new_app, rule_of, with_subcommand};
ghost use Rattle.rc_commands.specs.Commands as spec;
ghost use Rattle.rc_commands.specs.Commands.{IsBuiltAs, ramseg};

use clap::{Arg, ArgAction, Command};
use std::alloc::{AllocError, Global};

/// The program with its commands.
pub fn program<'a>(alloc: Global) -> Result<Command<'a>, AllocError>
    ensures { IfOk result (λ command. app_of command ≡ ramseg) }
{
    let running = running(alloc)?;
    let exploring = with(running, explore(alloc))?;
    let shrinking = with(exploring, shrink(alloc))?;
    let healing = with(shrinking, heal(alloc))?;
    let telling = with(healing, Ok(history(alloc)))?;
    with(telling, Ok(check(alloc)))
}

/// The program with the commands up to `threads`.
fn running<'a>(alloc: Global) -> Result<Command<'a>, AllocError>
    ensures { IfOk result (λ command. app_of command ≡ spec.running) }
{
    let reading = reading(alloc)?;
    let drawing = with(reading, fuzz(alloc))?;
    let stopping = with(drawing, stops(alloc))?;
    with(stopping, threads(alloc))
}

/// The program with the commands that read from standard input.
fn reading<'a>(alloc: Global) -> Result<Command<'a>, AllocError>
    ensures { IfOk result (λ command. app_of command ≡ spec.reading) }
{
    let alone = alone(alloc)?;
    let replaying = with(alone, run(alloc))?;
    let tracing = with(replaying, Ok(trace(alloc)))?;
    let judging = with(tracing, Ok(audit(alloc)))?;
    with(judging, log(alloc))
}

/// The program with one command more, if that could be made.
fn with<'a>(
    program: Command<'a>,
    command: Result<Command<'a>, AllocError>,
) -> Result<Command<'a>, AllocError>
    ensures { IfOk result (λ p. (app : App) → IfOk command.entry (IsBuiltAs app)
        → app_of p ≡ with_subcommand (app_of program.entry) app.top) }
{
    match command {
        Ok(command) => program.subcommand(command),
        Err(error) => Err(error),
    }
}

/// The program without its commands.
fn alone<'a>(alloc: Global) -> Result<Command<'a>, AllocError>
    ensures { IfOk result (λ command. app_of command ≡ spec.alone) }
{
    let named = Command::new(alloc, "ramseg").bin_name("ramseg")?;
    Ok(
        named
            .version("0.1.0")
            .about("A replicated log, simulated event by event")
            .no_binary_name(true)
            .subcommand_required(true),
    )
}

/// A command without options. Its help ends with an example.
fn command<'a>(alloc: Global, name: &'a str, about: &'a str, example: &'a str) -> Command<'a>
    ensures { IsBuiltAs (new_app name.now) result }
{
    Command::new(alloc, name).about(about).after_help(example)
}

/// `run` with its option.
fn run<'a>(alloc: Global) -> Result<Command<'a>, AllocError>
    ensures { IfOk result (IsBuiltAs spec.run) }
{
    command(
        alloc,
        "run",
        "Replays a scenario that it reads from standard input, and prints the report",
        "Example: ramseg run --heap 65536 < examples/first-write.json",
    )
    .arg(option(
        alloc,
        "heap",
        "BYTES",
        "Keeps the coordinator's tablets in a heap of so many bytes, 16 to 1048576",
    ))
}

/// `trace`.
fn trace<'a>(alloc: Global) -> Command<'a>
    ensures { IsBuiltAs spec.trace result }
{
    command(
        alloc,
        "trace",
        "Replays a scenario that it reads from standard input, and prints the trace of what was sent",
        "Example: ramseg trace < examples/first-write.json",
    )
}

/// `audit`.
fn audit<'a>(alloc: Global) -> Command<'a>
    ensures { IsBuiltAs spec.audit result }
{
    command(
        alloc,
        "audit",
        "Judges a trace that it reads from standard input",
        "Example: ramseg audit < examples/first-write.trace",
    )
}

/// `history`.
fn history<'a>(alloc: Global) -> Command<'a>
    ensures { IsBuiltAs spec.history result }
{
    command(
        alloc,
        "history",
        "Replays a scenario from standard input, and prints its clients' writes and confirmed reads as JSON lines",
        "Example: ramseg history < examples/first-write.json",
    )
}

/// `check`.
fn check<'a>(alloc: Global) -> Command<'a>
    ensures { IsBuiltAs spec.check result }
{
    command(
        alloc,
        "check",
        "Judges whether a history that it reads from standard input is linearizable",
        "Example: ramseg history < examples/first-write.json | ramseg check",
    )
}

/// `fuzz` with its options.
fn fuzz<'a>(alloc: Global) -> Result<Command<'a>, AllocError>
    ensures { IfOk result (IsBuiltAs spec.fuzz) }
{
    drawn(
        alloc,
        "fuzz",
        "Runs events that are drawn from a seed, and prints the report",
        "Example: ramseg fuzz --seed 7 --steps 200 --free",
        "How many steps are drawn, 0 to 100000; 1000 if not given",
    )?
    .arg(flag(alloc, "free", "Lets masters free segments"))
}

/// `stops` with its options.
fn stops<'a>(alloc: Global) -> Result<Command<'a>, AllocError>
    ensures { IfOk result (IsBuiltAs spec.stops) }
{
    stops_sized(alloc)?
        .arg(flag(alloc, "free", "With --explored: lets masters free segments"))?
        .arg(flag(
            alloc,
            "explored",
            "Draws events as explore does, so that much happens",
        ))
}

/// `stops` with all its options that have a value.
fn stops_sized<'a>(alloc: Global) -> Result<Command<'a>, AllocError>
    ensures { IfOk result (IsBuiltAs spec.stops_sized) }
{
    stops_placed(alloc)?.arg(option(
        alloc,
        "segment",
        "N",
        "With --explored: how many entries a segment takes, 1 to 1024; 2 if not given",
    ))
}

/// `stops` with the options of its drawing, and with hosts and replicas.
fn stops_placed<'a>(alloc: Global) -> Result<Command<'a>, AllocError>
    ensures { IfOk result (IsBuiltAs spec.stops_placed) }
{
    drawn(
        alloc,
        "stops",
        "Cuts the power after each of the events that are drawn from a seed, and counts the breaches",
        "Example: ramseg stops --explored --seed 7 --steps 200",
        "How many steps are drawn, 0 to 1000; 300 if not given",
    )?
    .arg(option(
        alloc,
        "hosts",
        "N",
        "With --explored: how many hosts there are, 1 to 16; 5 if not given",
    ))?
    .arg(option(
        alloc,
        "factor",
        "N",
        "With --explored: how many replicas each segment has, 1 to 5; 2 if not given",
    ))
}

/// `threads` with its options.
fn threads<'a>(alloc: Global) -> Result<Command<'a>, AllocError>
    ensures { IfOk result (IsBuiltAs spec.threads) }
{
    command(
        alloc,
        "threads",
        "Runs a coordinator and masters on threads of their own, with writes and a recovery, and prints the report",
        "Example: ramseg threads --hosts 5",
    )
    .arg(option(
        alloc,
        "hosts",
        "N",
        "How many hosts there are, 3 to 16; 4 if not given",
    ))?
    .arg(option(
        alloc,
        "writes",
        "N",
        "How many writes are asked for, 0 to 1000; 10 if not given",
    ))
}

/// `explore` with its options.
fn explore<'a>(alloc: Global) -> Result<Command<'a>, AllocError>
    ensures { IfOk result (IsBuiltAs spec.explore) }
{
    explore_flagged(alloc)?
        .arg(option(
            alloc,
            "seeds",
            "A..B",
            "Runs each seed from A to B, at most 10000, and sums up what they have reached",
        ))?
        .arg(flag(alloc, "progress", "Tells on standard error how far it is"))?
        .arg(option(
            alloc,
            "until",
            "NAME",
            "Looks for the first seed that reaches this rule, or this kind of event or message",
        ))
}

/// `explore` with its options for one run.
fn explore_flagged<'a>(alloc: Global) -> Result<Command<'a>, AllocError>
    ensures { IfOk result (IsBuiltAs spec.explore_flagged) }
{
    explore_sized(alloc)?
        .arg(flag(alloc, "free", "Lets masters free segments"))?
        .arg(flag(
            alloc,
            "save",
            "Prints the run as a scenario in place of the report",
        ))
}

/// `explore` with all its options that have a value.
fn explore_sized<'a>(alloc: Global) -> Result<Command<'a>, AllocError>
    ensures { IfOk result (IsBuiltAs spec.explore_sized) }
{
    explore_placed(alloc)?.arg(option(
        alloc,
        "segment",
        "N",
        "How many entries a segment takes, 1 to 1024; 2 if not given",
    ))
}

/// `explore` with the options of its drawing, and with hosts and replicas.
fn explore_placed<'a>(alloc: Global) -> Result<Command<'a>, AllocError>
    ensures { IfOk result (IsBuiltAs spec.explore_placed) }
{
    drawn(
        alloc,
        "explore",
        "Runs events drawn so that much happens, and prints the report and what the run has reached",
        "Example: ramseg explore --seed 7 --steps 2000 --free",
        "How many steps are drawn, 0 to 100000; 2000 if not given",
    )?
    .arg(option(
        alloc,
        "hosts",
        "N",
        "How many hosts there are, 1 to 16; 5 if not given",
    ))?
    .arg(option(
        alloc,
        "factor",
        "N",
        "How many replicas each segment has, 1 to 5; 2 if not given",
    ))
}

/// A command of this name that draws events: with the options of its drawing, the seed and the steps.
fn drawn<'a>(
    alloc: Global,
    name: &'a str,
    about: &'a str,
    example: &'a str,
    steps: &'a str,
) -> Result<Command<'a>, AllocError>
    ensures { IfOk result (IsBuiltAs (spec.drawn name.now)) }
{
    command(alloc, name, about, example)
        .arg(option(alloc, "seed", "N", "The seed, below 2^64; 1 if not given"))?
        .arg(option(alloc, "steps", "N", steps))
}

/// `shrink` with its text.
fn shrink<'a>(alloc: Global) -> Result<Command<'a>, AllocError>
    ensures { IfOk result (IsBuiltAs spec.shrink) }
{
    command(
        alloc,
        "shrink",
        "Leaves out of a scenario what its report does not need to keep a line, and prints it",
        "Example: ramseg shrink --keep 'ack 0.1' < examples/first-write.json",
    )
    .arg(option(
        alloc,
        "keep",
        "TEXT",
        "Required: the report keeps a line that begins with this text",
    ))
}

/// `log` with its flag, which says what is told anyway.
fn log<'a>(alloc: Global) -> Result<Command<'a>, AllocError>
    ensures { IfOk result (IsBuiltAs spec.log) }
{
    command(
        alloc,
        "log",
        "Replays a scenario that it reads from standard input, and tells each event and each message as JSON",
        "Example: ramseg log --json < examples/first-write.json",
    )
    .arg(flag(alloc, "json", "Tells it as one JSON value, as without it"))
}

/// `heal` with its flag.
fn heal<'a>(alloc: Global) -> Result<Command<'a>, AllocError>
    ensures { IfOk result (IsBuiltAs spec.heal) }
{
    command(
        alloc,
        "heal",
        "Prints a scenario with the events that bring each of its tablets back, and tells what it did and why",
        "Example: ramseg heal < examples/stuck/own-lost.json > healed.json",
    )
    .arg(flag(
        alloc,
        "power-cycle",
        "Stops all servers first, and starts all hosts",
    ))
}

/// A flag `--NAME`.
fn flag<'a>(alloc: Global, name: &'a str, help: &'a str) -> Arg<'a>
    ensures { (rule_of result ≡ spec.flag name.now) × (result.global ≡ false) }
{
    Arg::new(alloc, name)
        .long(name)
        .action(ArgAction::SetTrue)
        .help(help)
}

/// An option `--NAME VALUE`.
fn option<'a>(alloc: Global, name: &'a str, value: &'a str, help: &'a str) -> Arg<'a>
    ensures { (rule_of result ≡ spec.option name.now) × (result.global ≡ false) }
{
    Arg::new(alloc, name)
        .long(name)
        .value_name(value)
        .help(help)
}
