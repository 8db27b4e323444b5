//! Orders of `fr_view`: the words after its name, read as what it has to do.
ghost use Rattle.std.specs.Prelude.{◌≡◌, IfNone, IfOk, IfSome, codes, false, map};
ghost use Rattle.clap.specs.Walk.{rule_of};
ghost use Rattle.clap.specs.Words.{app_of, first_value, found_of, subcommand_rows_of};
ghost use Rattle.clap.specs.declared.builder.command.Command.TheViews.{out-Command};
ghost use Rattle.fr_text.specs.Reading.{number_in};
ghost use Rattle.fr_cli.specs.Commands.{is_true};
ghost use Rattle.fr_cli.specs.ViewOrders.{IsAnswer, IsOrder, IsScheduleBy, IsShowBy, asked_by, asks, channel_asked};
ghost use Rattle.fr_cli.specs.ViewOrders.{cause_commands};
ghost use Rattle.fr_cli.specs.ViewOrders.{drawn_by, file_commands, flag_named, from_asked, has_schedule_by};
ghost use Rattle.fr_cli.specs.ViewOrders.{IsLatencyBy, has_latency_by, latency_command, slot_in, way_asked};
ghost use Rattle.fr_cli.specs.ViewOrders.{IsLinksBy, has_links_by};
ghost use Rattle.fr_cli.specs.ViewOrders.{has_show_by, is_help, line_commands, matrix_command, of_trace};
ghost use Rattle.fr_cli.specs.ViewOrders.{schedule_command, the_commands, trace_command, viewer_asked, window_asked};
ghost use Rattle.fr_cli.specs.ViewOrders.{with_run};
ghost use Rattle.fr_cli.specs.ViewOrders.{IsKeptBy, IsStreamBy, has_kept_by, has_stream_by, of_long_run, streamed_by};

use crate::commands::{cycles_of, most_of, of_file, program};
use crate::error::OrderError;
use clap::{Arg, ArgAction, ArgMatches, Command};
use fr_slots::channel::Channel;
use fr_text::numbers::number_of;
use std::alloc::{AllocError, Global};

/// A view of a run (project-defined).
#[derive(Clone, Copy, PartialEq, Eq)]
pub enum Asked {
    /// Its outcome.
    Outcome,
    /// A line for each line of a script, with its answer.
    Answers,
    /// A line for each commit, with what became of it.
    Commits,
    /// A line for each transmission and each flipped bit.
    Record,
    /// A line for each window.
    Windows,
    /// The facts by which a commit wasn't sent or received: due buffers, openings, and effects of faults.
    Reasons,
    /// The answers, with the cycle of the run in which each frame came.
    Origins,
    /// A line for each node and window, with the node's observations.
    Received,
    /// A capture of the bus, as a passive listener receives it.
    Heard,
    /// The trace of the node of this number, 0 to 15.
    Trace(u8),
    /// A picture of what a channel carried.
    Matrix {
        /// The channel.
        channel: Channel,
        /// The number of the node whose observations are drawn, 0 to 15; `None` for what the bus carried.
        node: Option<u8>,
        /// The cycle of the run that is drawn first, 0 to 1023.
        from: u16,
        /// The window of each cycle that is drawn first, 0 to 4095.
        from_window: u16,
    },
}

/// A view that is written as the run goes (project-defined).
#[derive(Clone, Copy, PartialEq, Eq)]
pub enum StreamAsked {
    /// Its outcome.
    Outcome,
    /// A line for each line of a script, with its answer.
    Answers,
    /// A line for each commit, with what became of it.
    Commits,
    /// A line for each transmission and each flipped bit.
    Record,
    /// A line for each window.
    Windows,
    /// The facts by which a commit wasn't sent or received: due buffers, openings, and effects of faults.
    Reasons,
    /// The answers, with the cycle of the run in which each frame came.
    Origins,
    /// A line for each node and window, with the node's observations.
    Received,
    /// A capture of the bus, as a passive listener receives it.
    Heard,
}

/// A slot on a channel (project-defined).
#[derive(Clone, Copy, PartialEq, Eq)]
pub struct SlotAsked {
    /// The number of the slot, 1 to 2047.
    pub slot: u16,
    /// The channel.
    pub channel: Channel,
}

/// A command of `fr_view` (project-defined).
#[derive(Clone, Copy, PartialEq, Eq)]
pub enum ViewOrder<'a> {
    /// Read the cluster file of this name and print a picture of one of its cycles.
    Schedule {
        /// The name of the cluster file.
        file: &'a str,
        /// The cycle, 0 to 63, and 0 where none is named.
        cycle: u8,
    },
    /// Read the cluster file of this name and print the worst latencies of its transmit buffers.
    Latency {
        /// The name of the cluster file.
        file: &'a str,
        /// The slot whose latest start is explained, if one is named.
        way: Option<SlotAsked>,
    },
    /// Read the cluster file of this name and print the receivers of its transmit buffers.
    Links {
        /// The name of the cluster file.
        file: &'a str,
    },
    /// Read the trace of one controller on standard input and print a capture of its observations.
    Capture {
        /// For a rejected trace, print the observations before the faulty line.
        until_fault: bool,
        /// With the frames that the controller sent itself.
        own: bool,
    },
    /// Read such a trace and print a table of its observations.
    Frames {
        /// For a rejected trace, print the observations before the faulty line.
        until_fault: bool,
        /// With a line for each channel of each window.
        all: bool,
    },
    /// Read such a trace and print the reason why an audit rejects it.
    Why,
    /// Read such a trace and print what becomes of each frame of its receive FIFO.
    Fifo,
    /// Run the cluster with a scenario in one thread, and print a view of the run.
    Show {
        /// The view.
        asked: Asked,
        /// The name of the cluster file.
        cluster: &'a str,
        /// The name of the scenario file.
        scenario: &'a str,
        /// The number of cycles, 1 to 1024.
        cycles: u16,
    },
    /// Run the cluster with a scenario in one thread without history, and print a view as the run goes.
    Stream {
        /// The view.
        asked: StreamAsked,
        /// The name of the cluster file.
        cluster: &'a str,
        /// The name of the scenario file.
        scenario: &'a str,
        /// The number of cycles, 1 to 4,000,000.
        cycles: u32,
    },
    /// Print the commands of the program.
    Help,
}

/// Returns the command `schedule`, with its file and the number of a cycle.
fn schedule_command<'a>(alloc: Global) -> Result<Command<'a>, AllocError>
    ensures app { IfOk result (λ c. app_of c ≡ schedule_command) }
    ensures local { IfOk result (λ c. (out-Command c).has_globals ≡ false) }
{
    let cycle = Arg::new(alloc, "cycle").long("cycle");
    of_file(alloc, "schedule")?.arg(cycle)
}

/// Returns the command with the two files of a run and its number of cycles.
fn of_run<'a>(alloc: Global, command: Command<'a>) -> Result<Command<'a>, AllocError>
    requires { (out-Command command).has_globals ≡ false }
    ensures app { IfOk result (λ c. app_of c ≡ with_run (app_of command.entry)) }
    ensures local { IfOk result (λ c. (out-Command c).has_globals ≡ false) }
{
    let file = Arg::new(alloc, "FILE").required(true);
    let scenario = Arg::new(alloc, "SCENARIO").required(true);
    let cycles = Arg::new(alloc, "cycles").long("cycles").required(true);
    command.arg(file)?.arg(scenario)?.arg(cycles)
}

/// Returns the command `trace`, with its node and its run.
fn trace_command<'a>(alloc: Global) -> Result<Command<'a>, AllocError>
    ensures app { IfOk result (λ c. app_of c ≡ trace_command) }
    ensures local { IfOk result (λ c. (out-Command c).has_globals ≡ false) }
{
    let node = Arg::new(alloc, "NODE").required(true);
    of_run(alloc, Command::new(alloc, "trace").arg(node)?)
}

/// Returns a flag of this name.
fn flag<'a>(alloc: Global, name: &'a str) -> Arg<'a>
    ensures rule { rule_of result ≡ flag_named name.now }
    ensures local { result.global ≡ false }
{
    Arg::new(alloc, name).long(name).action(ArgAction::SetTrue)
}

/// Returns the command of a run that can be one without history, with its flag.
fn of_long_run<'a>(alloc: Global, name: &'a str) -> Result<Command<'a>, AllocError>
    ensures app { IfOk result (λ c. app_of c ≡ of_long_run name.now) }
    ensures local { IfOk result (λ c. (out-Command c).has_globals ≡ false) }
{
    let endless = flag(alloc, "endless");
    of_run(alloc, Command::new(alloc, name))?.arg(endless)
}

/// Returns a command that reads a trace, with `--until-fault`, and a flag by which it shows more.
fn of_trace<'a>(alloc: Global, name: &'a str, more: &'a str) -> Result<Command<'a>, AllocError>
    ensures app { IfOk result (λ c. app_of c ≡ of_trace name.now more.now) }
    ensures local { IfOk result (λ c. (out-Command c).has_globals ≡ false) }
{
    let (until_fault, more) = (flag(alloc, "until-fault"), flag(alloc, more));
    Command::new(alloc, name).arg(until_fault)?.arg(more)
}

/// Returns the command `matrix`, with the options of its picture.
fn matrix_command<'a>(alloc: Global) -> Result<Command<'a>, AllocError>
    ensures app { IfOk result (λ c. app_of c ≡ matrix_command) }
    ensures local { IfOk result (λ c. (out-Command c).has_globals ≡ false) }
{
    let channel = Arg::new(alloc, "channel").long("channel");
    let node = Arg::new(alloc, "node").long("node");
    let from = Arg::new(alloc, "from").long("from");
    let from_window = Arg::new(alloc, "from-window").long("from-window");
    let drawn = Command::new(alloc, "matrix")
        .arg(channel)?
        .arg(node)?
        .arg(from)?
        .arg(from_window)?;
    of_run(alloc, drawn)
}

/// Returns the command `latency`, with its file, a slot and a channel.
fn latency_command<'a>(alloc: Global) -> Result<Command<'a>, AllocError>
    ensures app { IfOk result (λ c. app_of c ≡ latency_command) }
    ensures local { IfOk result (λ c. (out-Command c).has_globals ≡ false) }
{
    let slot = Arg::new(alloc, "slot").long("slot");
    let channel = Arg::new(alloc, "channel").long("channel");
    of_file(alloc, "latency")?.arg(slot)?.arg(channel)
}

/// Returns the program with the commands that read one file.
fn file_commands<'a>(alloc: Global) -> Result<Command<'a>, AllocError>
    ensures { IfOk result (λ c. app_of c ≡ file_commands) }
{
    let first = program(alloc, "fr_view").subcommand(of_trace(alloc, "capture", "own")?)?;
    let second = first.subcommand(of_trace(alloc, "frames", "all")?)?;
    let third = second.subcommand(Command::new(alloc, "why"))?;
    let fourth = third.subcommand(schedule_command(alloc)?)?;
    let fifth = fourth.subcommand(latency_command(alloc)?)?;
    let sixth = fifth.subcommand(of_file(alloc, "links")?)?;
    sixth.subcommand(Command::new(alloc, "fifo"))
}

/// Adds the commands that show a run as lines.
fn line_commands<'a>(alloc: Global, files: Command<'a>) -> Result<Command<'a>, AllocError>
    requires { app_of files ≡ file_commands }
    ensures { IfOk result (λ c. app_of c ≡ line_commands) }
{
    let first = files.subcommand(of_long_run(alloc, "outcome")?)?;
    let second = first.subcommand(of_long_run(alloc, "answers")?)?;
    let third = second.subcommand(of_long_run(alloc, "commits")?)?;
    let fourth = third.subcommand(of_long_run(alloc, "record")?)?;
    fourth.subcommand(of_long_run(alloc, "windows")?)
}

/// Adds the commands that show why a run went so, as lines.
fn cause_commands<'a>(alloc: Global, lines: Command<'a>) -> Result<Command<'a>, AllocError>
    requires { app_of lines ≡ line_commands }
    ensures { IfOk result (λ c. app_of c ≡ cause_commands) }
{
    let first = lines.subcommand(of_long_run(alloc, "reasons")?)?;
    let second = first.subcommand(of_long_run(alloc, "origins")?)?;
    second.subcommand(of_long_run(alloc, "received")?)
}

/// Returns the program with all its commands.
fn commands<'a>(alloc: Global) -> Result<Command<'a>, AllocError>
    ensures { IfOk result (λ c. app_of c ≡ the_commands) }
{
    let lines = line_commands(alloc, file_commands(alloc)?)?;
    let causes = cause_commands(alloc, lines)?;
    let heard = causes.subcommand(of_long_run(alloc, "bus")?)?;
    let drawn = heard.subcommand(matrix_command(alloc)?)?;
    drawn.subcommand(trace_command(alloc)?)
}

/// Returns the cycle that a word spells: 0 to 63, without a leading zero.
fn cycle_of(word: &str) -> Option<u8>
    ensures { result ≡ number_in 64 word.now }
{
    match number_of(word.as_bytes(), 64) {
        Some(number) => Some(number as u8),
        None => None,
    }
}

/// Returns the order for the picture of a cycle, if the arguments have a file and no wrong cycle.
fn schedule_in<'a>(arguments: &ArgMatches<'a>) -> Option<ViewOrder<'a>>
    ensures told { IfSome result (IsScheduleBy (first_value (found_of arguments.now))) }
    ensures nothing { IfNone result (has_schedule_by (first_value (found_of arguments.now)) ≡ false) }
{
    let file = arguments.get_str("FILE")?;
    let cycle = match arguments.get_str("cycle") {
        Some(word) => cycle_of(word)?,
        None => 0,
    };
    Some(ViewOrder::Schedule { file, cycle })
}

/// Returns the number of a node that a word spells: 0 to 15, without a leading zero.
fn node_of(word: &str) -> Option<u8>
    ensures { result ≡ number_in 16 word.now }
{
    match number_of(word.as_bytes(), 16) {
        Some(number) => Some(number as u8),
        None => None,
    }
}

/// Returns the channel that is drawn: A unless B is named.
fn channel_in(arguments: &ArgMatches<'_>) -> Option<Channel>
    ensures { result ≡ channel_asked (first_value (found_of arguments.now) (codes "channel")) }
{
    match arguments.get_str("channel") {
        None | Some("A") => Some(Channel::A),
        Some("B") => Some(Channel::B),
        Some(_) => None,
    }
}

/// Returns the slot that a word spells: 1 to 2047, without a leading zero.
fn slot_of(word: &str) -> Option<u16>
    ensures { result ≡ slot_in word.now }
{
    match number_of(word.as_bytes(), 2048) {
        Some(0) | None => None,
        Some(number) => Some(number as u16),
    }
}

/// Returns the slot whose latest start is explained, or `Some(None)` if no slot and no channel is named.
fn way_in(arguments: &ArgMatches<'_>) -> Option<Option<SlotAsked>>
    ensures { result ≡ way_asked (first_value (found_of arguments.now) (codes "slot"))
        (first_value (found_of arguments.now) (codes "channel")) }
{
    let Some(word) = arguments.get_str("slot") else {
        return match arguments.get_str("channel") {
            None => Some(None),
            Some(_) => None,
        };
    };
    let slot = slot_of(word)?;
    let channel = channel_in(arguments)?;
    Some(Some(SlotAsked { slot, channel }))
}

/// Returns the order for the latencies of a cluster, if the arguments have a file and no wrong slot or channel.
fn latency_in<'a>(arguments: &ArgMatches<'a>) -> Option<ViewOrder<'a>>
    ensures told { IfSome result (IsLatencyBy (first_value (found_of arguments.now))) }
    ensures nothing { IfNone result (has_latency_by (first_value (found_of arguments.now)) ≡ false) }
{
    let file = arguments.get_str("FILE")?;
    let way = way_in(arguments)?;
    Some(ViewOrder::Latency { file, way })
}

/// Returns the order for the receivers of a cluster's transmit buffers, if the arguments have a file.
fn links_in<'a>(arguments: &ArgMatches<'a>) -> Option<ViewOrder<'a>>
    ensures told { IfSome result (IsLinksBy (first_value (found_of arguments.now))) }
    ensures nothing { IfNone result (has_links_by (first_value (found_of arguments.now)) ≡ false) }
{
    let file = arguments.get_str("FILE")?;
    Some(ViewOrder::Links { file })
}

/// Returns the node whose observations are drawn, or `Some(None)` if no node is named.
fn viewer_in(arguments: &ArgMatches<'_>) -> Option<Option<u8>>
    ensures { result ≡ viewer_asked (first_value (found_of arguments.now) (codes "node")) }
{
    match arguments.get_str("node") {
        None => Some(None),
        Some(word) => match node_of(word) {
            Some(node) => Some(Some(node)),
            None => None,
        },
    }
}

/// Returns the cycle of the run that is drawn first, and 0 if none is named.
///
/// A cycle is 0 to 1023, without a leading zero.
fn first_in(arguments: &ArgMatches<'_>) -> Option<u16>
    ensures { result ≡ from_asked (first_value (found_of arguments.now) (codes "from")) }
{
    match arguments.get_str("from") {
        None => Some(0),
        Some(word) => match number_of(word.as_bytes(), 1024) {
            Some(number) => Some(number as u16),
            None => None,
        },
    }
}

/// Returns the window of each cycle that is drawn first, and 0 if none is named.
///
/// A window is 0 to 4095, without a leading zero: no cycle has more.
fn window_in(arguments: &ArgMatches<'_>) -> Option<u16>
    ensures { result ≡ window_asked (first_value (found_of arguments.now) (codes "from-window")) }
{
    match arguments.get_str("from-window") {
        None => Some(0),
        Some(word) => match number_of(word.as_bytes(), 4096) {
            Some(number) => Some(number as u16),
            None => None,
        },
    }
}

/// Returns the picture of a run, if its options are right.
fn drawn_in(arguments: &ArgMatches<'_>) -> Option<Asked>
    ensures { result ≡ drawn_by (first_value (found_of arguments.now)) }
{
    let channel = channel_in(arguments)?;
    let node = viewer_in(arguments)?;
    let from = first_in(arguments)?;
    let from_window = window_in(arguments)?;
    Some(Asked::Matrix {
        channel,
        node,
        from,
        from_window,
    })
}

/// Returns the view of the command of this name, if it shows a run.
fn asked_in(name: &str, arguments: &ArgMatches<'_>) -> Option<Asked>
    ensures { result ≡ asked_by name.now (first_value (found_of arguments.now)) }
{
    match name {
        "outcome" => Some(Asked::Outcome),
        "answers" => Some(Asked::Answers),
        "commits" => Some(Asked::Commits),
        "record" => Some(Asked::Record),
        "windows" => Some(Asked::Windows),
        "reasons" => Some(Asked::Reasons),
        "origins" => Some(Asked::Origins),
        "received" => Some(Asked::Received),
        "bus" => Some(Asked::Heard),
        "trace" => Some(Asked::Trace(node_of(arguments.get_str("NODE")?)?)),
        "matrix" => drawn_in(arguments),
        _ => None,
    }
}

/// Returns the order of a command that shows a run with its history.
fn kept_in<'a>(name: &str, arguments: &ArgMatches<'a>) -> Option<ViewOrder<'a>>
    ensures told { IfSome result (IsKeptBy name.now (first_value (found_of arguments.now))) }
    ensures nothing { IfNone result (has_kept_by name.now (first_value (found_of arguments.now)) ≡ false) }
{
    let asked = asked_in(name, arguments)?;
    Some(ViewOrder::Show {
        asked,
        cluster: arguments.get_str("FILE")?,
        scenario: arguments.get_str("SCENARIO")?,
        cycles: cycles_of(arguments.get_str("cycles")?)?,
    })
}

/// Returns the view of the command of this name, if it can be written as the run goes.
fn streamed_in(name: &str) -> Option<StreamAsked>
    ensures { result ≡ streamed_by name.now }
{
    match name {
        "outcome" => Some(StreamAsked::Outcome),
        "answers" => Some(StreamAsked::Answers),
        "commits" => Some(StreamAsked::Commits),
        "record" => Some(StreamAsked::Record),
        "windows" => Some(StreamAsked::Windows),
        "reasons" => Some(StreamAsked::Reasons),
        "origins" => Some(StreamAsked::Origins),
        "received" => Some(StreamAsked::Received),
        "bus" => Some(StreamAsked::Heard),
        _ => None,
    }
}

/// Returns the order of a command that shows a run without history.
fn stream_in<'a>(name: &str, arguments: &ArgMatches<'a>) -> Option<ViewOrder<'a>>
    ensures told { IfSome result (IsStreamBy name.now (first_value (found_of arguments.now))) }
    ensures nothing { IfNone result (has_stream_by name.now (first_value (found_of arguments.now)) ≡ false) }
{
    let asked = streamed_in(name)?;
    Some(ViewOrder::Stream {
        asked,
        cluster: arguments.get_str("FILE")?,
        scenario: arguments.get_str("SCENARIO")?,
        cycles: most_of(arguments.get_str("cycles")?)?,
    })
}

/// Returns the order of a command that shows a run.
fn show_in<'a>(name: &str, arguments: &ArgMatches<'a>) -> Option<ViewOrder<'a>>
    ensures told { IfSome result (IsShowBy name.now (first_value (found_of arguments.now))) }
    ensures nothing { IfNone result (has_show_by name.now (first_value (found_of arguments.now)) ≡ false) }
{
    if has_flag(arguments, "endless") {
        stream_in(name, arguments)
    } else {
        kept_in(name, arguments)
    }
}

/// Returns whether the flag of this name is set.
fn has_flag(arguments: &ArgMatches<'_>, name: &str) -> bool
    ensures { result ≡ is_true (first_value (found_of arguments.now) name.now) }
{
    arguments.get_str(name) == Some("true")
}

/// Returns the flag `--until-fault`, and the flag of this name, by which the command shows more.
fn flags_in(arguments: &ArgMatches<'_>, more: &str) -> (bool, bool)
    ensures until_fault { result.0 ≡ is_true (first_value (found_of arguments.now) (codes "until-fault")) }
    ensures more { result.1 ≡ is_true (first_value (found_of arguments.now) more.now) }
{
    (
        has_flag(arguments, "until-fault"),
        has_flag(arguments, more),
    )
}

/// Returns the order of the command's name and arguments.
fn order_in<'a>(matches: &ArgMatches<'a>) -> Option<ViewOrder<'a>>
    ensures told { IfSome result (IsOrder (subcommand_rows_of matches.now)) }
    ensures nothing { IfNone result (asks (subcommand_rows_of matches.now) ≡ false) }
{
    let (name, arguments) = matches.subcommand()?;
    match name {
        "schedule" => schedule_in(arguments),
        "latency" => latency_in(arguments),
        "links" => links_in(arguments),
        "capture" => {
            let (until_fault, own) = flags_in(arguments, "own");
            Some(ViewOrder::Capture { until_fault, own })
        }
        "frames" => {
            let (until_fault, all) = flags_in(arguments, "all");
            Some(ViewOrder::Frames { until_fault, all })
        }
        "why" => Some(ViewOrder::Why),
        "fifo" => Some(ViewOrder::Fifo),
        name => show_in(name, arguments),
    }
}

/// Returns whether the words are the call for help.
fn is_help(words: &[&str]) -> bool
    ensures { result ≡ is_help (map (λ word. word.now) words.now) }
{
    match words {
        [word] => *word == "--help",
        _ => false,
    }
}

/// Returns the order of the words after the program's name (project-defined).
///
/// Refused with `Memory` if an allocation fails, otherwise with `Usage` for all words that are no command. A call for
/// help is the word `--help` alone. A cycle of a picture is 0 to 63, the first one of a matrix 0 to 1023, its first
/// window 0 to 4095, a node 0 to 15 and a number of cycles 1 to 1024, and with `--endless` 1 to 4,000,000, without a
/// leading zero.
pub fn order<'a>(alloc: Global, words: &'a [&'a str]) -> Result<ViewOrder<'a>, OrderError>
    ensures { IsAnswer (map (λ word. word.now) words.now) result }
{
    if is_help(words) {
        return Ok(ViewOrder::Help);
    }
    let matches = commands(alloc)?.try_get_matches_from(words)?;
    order_in(&matches).ok_or(OrderError::Usage)
}
