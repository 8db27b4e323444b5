//! Commands of the program, and their effects.
ghost use Rattle.std.specs.Prelude.{◌≡◌};
ghost use Rattle.fr_bench.specs.Commands.{Prints, task_of};

use crate::audit::audit;
use crate::failure::BenchFailure;
use fr_cli::command::Order;
use fr_commands::check::check_text;
use fr_commands::midpoint::midpoint_text;
use fr_commands::plan::plan_text;
use fr_threads::outcome::RunOptions;
use std::alloc::Global;
use std::io::{BufRead, Write};

/// A command that reads one text and prints another (project-defined).
#[derive(Clone, Copy, PartialEq, Eq)]
pub enum TextCommand {
    /// Read a trace, and print its report.
    Audit,
    /// Read a cluster file, and print the line of its parameters.
    Check,
    /// Read a cluster file, and print its plan.
    Plan,
    /// Read numbers, and print their midpoint.
    Midpoint,
}

/// The place of the text that a command reads (project-defined).
#[derive(Clone, Copy, PartialEq, Eq)]
pub enum Source<'a> {
    /// Standard input.
    Standard,
    /// The file of this name.
    Named(&'a str),
}

/// The task of a command (project-defined).
#[derive(Clone, Copy)]
pub enum Task<'a> {
    /// A command on the text from a source.
    Text(TextCommand, Source<'a>),
    /// A run of the cluster of the first file with the scenario of the second.
    Run(&'a str, &'a str, RunOptions),
}

/// Returns the task of a command.
pub fn task_of<'a>(order: &Order<'a>) -> Task<'a>
    ensures { result ≡ task_of order.now }
{
    match *order {
        Order::Audit => Task::Text(TextCommand::Audit, Source::Standard),
        Order::Check(file) => Task::Text(TextCommand::Check, Source::Named(file)),
        Order::Plan(file) => Task::Text(TextCommand::Plan, Source::Named(file)),
        Order::Midpoint => Task::Text(TextCommand::Midpoint, Source::Standard),
        Order::Run {
            cluster,
            scenario,
            cycles,
            free,
        } => Task::Run(cluster, scenario, RunOptions { cycles, free }),
    }
}

/// Reads the text to its end, and prints what the command makes of it (project-defined).
///
/// Fails as the function of the command does, and with no other error.
pub fn print_text<R: BufRead, W: Write>(
    alloc: Global,
    command: TextCommand,
    reader: &mut R,
    writer: &mut W,
) -> Result<(), BenchFailure>
    ensures { Prints command (R.remaining reader.old) (W.contents writer.old) (W.contents writer.new) result }
{
    match command {
        TextCommand::Audit => match audit(alloc, reader, writer) {
            Ok(()) => Ok(()),
            Err(error) => Err(BenchFailure::Audit(error)),
        },
        TextCommand::Check => match check_text(alloc, reader, writer) {
            Ok(()) => Ok(()),
            Err(error) => Err(BenchFailure::Text(error)),
        },
        TextCommand::Plan => match plan_text(alloc, reader, writer) {
            Ok(()) => Ok(()),
            Err(error) => Err(BenchFailure::Text(error)),
        },
        TextCommand::Midpoint => match midpoint_text(alloc, reader, writer) {
            Ok(()) => Ok(()),
            Err(error) => Err(BenchFailure::Text(error)),
        },
    }
}
