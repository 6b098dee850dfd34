//! The subcommands and their options.

ghost use Rattle.std.specs.Prelude.{◌≡◌, codes, false, IfOk};
ghost use Rattle.clap.specs.Words.{App, Rule, app_of, rule_of, with_rule, with_subcommand};
ghost use Rattle.clap.specs.declared.builder.value_parser.ValueParser.TheVariants.{Names};
ghost use Rattle.confer.specs.Cli.Commands.{
  audit_app,
  confer_app,
  default_rule,
  expand_app,
  group_rule,
  IsCommand,
  link_rule,
  parsed_rule,
  play_app,
  run_app,
  size_rule,
  trace_rule,
};

use crate::cli::help;
use clap::builder::ValueParser;
use clap::{Arg, ArgAction, Command, value_parser};
use std::alloc::{AllocError, Global};

/// The name of the link over channels, which is taken where none is named.
pub const CHANNEL: &str = "channel";

/// The name of the link over UDP.
pub const UDP: &str = "udp";

/// The name of the link over TCP.
pub const TCP: &str = "tcp";

/// The names of the links.
pub const LINKS: &[&str] = &[CHANNEL, UDP, TCP];

/// The words of `confer`, where the links have these names.
pub fn command<'a>(alloc: Global, links: &'a [&'a str]) -> Result<Command<'a>, AllocError>
    ensures { IfOk result (λ command. app_of command ≡ confer_app (Names links.entry)) }
{
    let program = Command::new(alloc, "confer")
        .about("Causal broadcast in a fixed group")
        .long_about(help::PROGRAM)
        .subcommand_required(true);
    let expanding = with_if_made(Ok(program), expand_command(alloc));
    let playing = with_command(expanding, play_command(alloc));
    let running = with_if_made(playing, run_command(alloc, links));
    with_command(running, audit_command(alloc))
}

/// The program, if it was made, with this subcommand, if that was made.
fn with_if_made<'a>(
    program: Result<Command<'a>, AllocError>,
    command: Result<Command<'a>, AllocError>,
) -> Result<Command<'a>, AllocError>
    ensures { (all one : App) → IfOk program.entry (λ p. app_of p ≡ all)
        → IfOk command.entry (IsCommand one)
        → IfOk result (λ p. app_of p ≡ with_subcommand all one.top) }
{
    match command {
        Ok(command) => with_command(program, command),
        Err(refused) => {
            // A call of `drop` takes the prover less time than a value that is left to the end.
            drop(program);
            Err(refused)
        }
    }
}

/// The program, if it was made, with this subcommand.
fn with_command<'a>(
    program: Result<Command<'a>, AllocError>,
    command: Command<'a>,
) -> Result<Command<'a>, AllocError>
    ensures { (all one : App) → IfOk program.entry (λ p. app_of p ≡ all)
        → IsCommand one command.entry
        → IfOk result (λ p. app_of p ≡ with_subcommand all one.top) }
{
    match program {
        Ok(program) => program.subcommand(command),
        Err(refused) => {
            drop(command);
            Err(refused)
        }
    }
}

/// The command, if it was made, with this option.
fn with_option<'a>(
    command: Result<Command<'a>, AllocError>,
    option: Arg<'a>,
) -> Result<Command<'a>, AllocError>
    ensures { (app : App) (rule : Rule) → IfOk command.entry (IsCommand app)
        → rule_of option.entry ≡ rule → option.entry.global ≡ false
        → IfOk result (IsCommand (with_rule app rule)) }
{
    match command {
        Ok(command) => command.arg(option),
        Err(refused) => {
            drop(option);
            Err(refused)
        }
    }
}

fn expand_command<'a>(alloc: Global) -> Result<Command<'a>, AllocError>
    ensures { IfOk result (IsCommand expand_app) }
{
    let expand = Command::new(alloc, "expand")
        .about(
            "Reads cast frames in hexadecimal, a frame a line, and prints the vector time of each message",
        )
        .long_about(help::EXPAND);
    let in_group = with_option(Ok(expand), group_option(alloc));
    with_option(in_group, size_option(alloc))
}

fn play_command<'a>(alloc: Global) -> Command<'a>
    ensures { IsCommand play_app result }
{
    Command::new(alloc, "play")
        .about("Reads a script of steps, and prints what happens in a group that takes them")
        .long_about(help::PLAY)
}

fn run_command<'a>(alloc: Global, links: &'a [&'a str]) -> Result<Command<'a>, AllocError>
    ensures { IfOk result (IsCommand (run_app (Names links.entry))) }
{
    let run = Command::new(alloc, "run")
        .about("Runs a conference whose members are threads, and prints what became of each")
        .long_about(help::RUN);
    let sized = with_option(Ok(run), members_option(alloc));
    let windowed = with_option(sized, window_option(alloc));
    let asking = with_option(windowed, questions_option(alloc));
    let limited = with_option(asking, turns_option(alloc));
    let linked = with_option(limited, link_option(alloc, links));
    with_option(linked, trace_option(alloc))
}

fn audit_command<'a>(alloc: Global) -> Command<'a>
    ensures { IsCommand audit_app result }
{
    Command::new(alloc, "audit")
        .about(
            "Reads a trace, and prints the script of a run that has its histories, or why there is none",
        )
        .long_about(help::AUDIT)
}

/// An option that takes a number.
fn number_option<'a>(
    alloc: Global,
    name: &'a str,
    unit: &'a str,
    numbers: ValueParser<'a>,
    help: &'a str,
) -> Arg<'a>
    ensures rule { rule_of result ≡ parsed_rule name.entry.now numbers.entry }
    ensures local { result.global ≡ false }
{
    Arg::new(alloc, name)
        .long(name)
        .value_name(unit)
        .action(ArgAction::Set)
        .value_parser(numbers)
        .help(help)
}

fn members_option<'a>(alloc: Global) -> Arg<'a>
    ensures rule { rule_of result ≡ default_rule (codes "size") 2 8 (codes "3") }
    ensures local { result.global ≡ false }
{
    number_option(
        alloc,
        "size",
        "N",
        value_parser!(u32).range(2..=8),
        "How many members run, 2 to 8",
    )
    .default_value("3")
}

fn window_option<'a>(alloc: Global) -> Arg<'a>
    ensures rule { rule_of result ≡ default_rule (codes "window") 1 256 (codes "4") }
    ensures local { result.global ≡ false }
{
    number_option(
        alloc,
        "window",
        "W",
        value_parser!(u32).range(1..=256),
        "How many casts a member may be ahead of the slowest, 1 to 256",
    )
    .default_value("4")
}

fn questions_option<'a>(alloc: Global) -> Arg<'a>
    ensures rule { rule_of result ≡ default_rule (codes "questions") 1 100 (codes "3") }
    ensures local { result.global ≡ false }
{
    number_option(
        alloc,
        "questions",
        "Q",
        value_parser!(u32).range(1..=100),
        "How many questions member 0 asks, 1 to 100; every other member answers each",
    )
    .default_value("3")
}

fn turns_option<'a>(alloc: Global) -> Arg<'a>
    ensures rule { rule_of result ≡ default_rule (codes "turns") 1 10000000 (codes "1000000") }
    ensures local { result.global ≡ false }
{
    number_option(
        alloc,
        "turns",
        "T",
        value_parser!(u32).range(1..=10_000_000),
        "How many turns each worker makes at most, 1 to 10000000; an idle turn lasts a millisecond",
    )
    .default_value("1000000")
}

fn link_option<'a>(alloc: Global, links: &'a [&'a str]) -> Arg<'a>
    ensures rule { rule_of result ≡ link_rule (Names links.entry) }
    ensures local { result.global ≡ false }
{
    Arg::new(alloc, "link")
        .long("link")
        .value_name("L")
        .action(ArgAction::Set)
        .value_parser(links)
        .default_value("channel")
        .help(
            "What carries the frames: channels in the process, UDP or TCP on the loopback address",
        )
}

fn trace_option<'a>(alloc: Global) -> Arg<'a>
    ensures rule { rule_of result ≡ trace_rule }
    ensures local { result.global ≡ false }
{
    Arg::new(alloc, "trace")
        .long("trace")
        .action(ArgAction::SetTrue)
        .help("Prints the trace of the histories in place of all else")
}

fn group_option<'a>(alloc: Global) -> Arg<'a>
    ensures rule { rule_of result ≡ group_rule }
    ensures local { result.global ≡ false }
{
    number_option(
        alloc,
        "group",
        "G",
        value_parser!(u32),
        "The number of the group, 0 to 4294967295",
    )
    .required(true)
}

fn size_option<'a>(alloc: Global) -> Arg<'a>
    ensures rule { rule_of result ≡ size_rule }
    ensures local { result.global ≡ false }
{
    number_option(
        alloc,
        "size",
        "N",
        value_parser!(u32).range(2..=64),
        "How many members the group has, 2 to 64",
    )
    .required(true)
}
