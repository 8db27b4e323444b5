//! Orders of `fr_bench`: the words after its name, read as what it has to do.
ghost use Rattle.std.specs.Prelude.{◌≡◌, IfOk, IfSome, IsSome, true, false, map};
ghost use Rattle.clap.specs.Words.{app_of, first_value, found_of, subcommand_rows_of};
ghost use Rattle.clap.specs.declared.builder.command.Command.TheViews.{out-Command};
ghost use Rattle.fr_cli.specs.BenchOrders.{IsAnswer, IsOrder, IsRunBy, IsWhole, run_command, the_commands};
ghost use Rattle.fr_cli.specs.Commands.{has_run_by};

use crate::command::Order;
use crate::commands::{cycles_of, of_file, program};
use crate::error::OrderError;
use clap::{Arg, ArgAction, ArgMatches, Command};
use std::alloc::{AllocError, Global};

/// Returns the command `run`, with its two files, the number of cycles and the flag.
fn run_command<'a>(alloc: Global) -> Result<Command<'a>, AllocError>
    ensures app { IfOk result (λ c. app_of c ≡ run_command) }
    ensures local { IfOk result (λ c. (out-Command c).has_globals ≡ false) }
{
    let scenario = Arg::new(alloc, "SCENARIO").required(true);
    let cycles = Arg::new(alloc, "cycles").long("cycles").required(true);
    let free = Arg::new(alloc, "free")
        .long("free")
        .action(ArgAction::SetTrue);
    let files = of_file(alloc, "run")?.arg(scenario)?;
    files.arg(cycles)?.arg(free)
}

/// Returns the program with all its commands.
fn commands<'a>(alloc: Global) -> Result<Command<'a>, AllocError>
    ensures { IfOk result (λ c. app_of c ≡ the_commands) }
{
    let first = program(alloc, "fr_bench").subcommand(Command::new(alloc, "audit"))?;
    let second = first.subcommand(of_file(alloc, "check")?)?;
    let third = second.subcommand(of_file(alloc, "plan")?)?;
    let fourth = third.subcommand(Command::new(alloc, "midpoint"))?;
    fourth.subcommand(run_command(alloc)?)
}

/// Returns the run of these arguments, if they have both files and a number of cycles.
fn run_in<'a>(arguments: &ArgMatches<'a>) -> Option<Order<'a>>
    ensures told { IfSome result (IsRunBy (first_value (found_of arguments.now))) }
    ensures whole { has_run_by (first_value (found_of arguments.now)) ≡ true → IsSome result }
{
    Some(Order::Run {
        cluster: arguments.get_str("FILE")?,
        scenario: arguments.get_str("SCENARIO")?,
        cycles: cycles_of(arguments.get_str("cycles")?)?,
        free: arguments.get_str("free") == Some("true"),
    })
}

/// Returns the order of the command's name and arguments.
fn order_in<'a>(matches: &ArgMatches<'a>) -> Option<Order<'a>>
    ensures told { IfSome result (λ o. IsOrder (subcommand_rows_of matches.now) o) }
    ensures whole { IsWhole (subcommand_rows_of matches.now) → IsSome result }
{
    let (name, arguments) = matches.subcommand()?;
    match name {
        "audit" => Some(Order::Audit),
        "check" => Some(Order::Check(arguments.get_str("FILE")?)),
        "plan" => Some(Order::Plan(arguments.get_str("FILE")?)),
        "midpoint" => Some(Order::Midpoint),
        "run" => run_in(arguments),
        _ => None,
    }
}

/// Returns the order of the words after the program's name (project-defined).
///
/// Refused with `Memory` if an allocation fails, otherwise with `Usage` for all words that are no command. A call for
/// help is no command. A run is none if its number of cycles isn't 1 to 1024, or has a leading zero.
pub fn order<'a>(alloc: Global, words: &'a [&'a str]) -> Result<Order<'a>, OrderError>
    ensures { IsAnswer (map (λ word. word.now) words.now) result }
{
    let matches = commands(alloc)?.try_get_matches_from(words)?;
    order_in(&matches).ok_or(OrderError::Usage)
}
