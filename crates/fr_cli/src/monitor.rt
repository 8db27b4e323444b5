//! The command of `fr_monitor`: the words after its name, read as the recording that it has to audit.
ghost use Rattle.std.specs.Prelude.{◌≡◌, IfOk, codes, map, option_map, false};
ghost use Rattle.clap.specs.Words.{app_of, first_value, found_of, rule_of, with_rule};
ghost use Rattle.clap.specs.declared.builder.command.Command.TheViews.{out-Command};
ghost use Rattle.fr_cli.specs.MonitorCommands.{IsAnswer, given_in, given_of, the_command, with_options};
ghost use Rattle.fr_cli.specs.MonitorCommands.{with_first, with_channel_option, option_named, the_flag};
ghost use Rattle.fr_cli.specs.MonitorCommands.{with_macrotick_option, the_frames_flag};
ghost use Rattle.fr_cli.specs.MonitorCommands.{number_asked, findings_asked, macrotick_asked, channel_asked};
ghost use Rattle.fr_cli.specs.Commands.{is_true, the_file};
ghost use Rattle.fr_cli.specs.MonitorCommands.{bare_command};

use crate::error::OrderError;
use clap::{Arg, ArgAction, ArgMatches, Command};
use fr_slots::channel::Channel;
use fr_text::numbers::number_of;
use std::alloc::{AllocError, Global};

/// The lines of each name that are told if the words don't say otherwise.
const FINDINGS: u32 = 20;

/// The command of `fr_monitor`: the audit of a recording (project-defined).
#[derive(Clone, Copy, PartialEq, Eq)]
pub struct MonitorCommand<'a> {
    /// The name of the cluster file.
    pub file: &'a str,
    /// The most lines of each name.
    pub findings: u32,
    /// The recording begins and ends with whole cycles.
    pub whole: bool,
    /// The only channel that is judged, if one is named.
    pub channel: Option<Channel>,
    /// The length of a macrotick in nanoseconds, 0 if none is given.
    pub macrotick: u32,
    /// Each frame has a line.
    pub frames: bool,
}

/// Returns an option of this name, with a value.
fn option<'a>(alloc: Global, name: &'a str) -> Arg<'a>
    ensures rule { rule_of result ≡ option_named name.now }
    ensures local { result.global ≡ false }
{
    Arg::new(alloc, name).long(name)
}

/// Returns the flag of a recording with whole cycles.
fn whole_flag<'a>(alloc: Global) -> Arg<'a>
    ensures rule { rule_of result ≡ the_flag }
    ensures local { result.global ≡ false }
{
    Arg::new(alloc, "whole")
        .long("whole")
        .action(ArgAction::SetTrue)
}

/// Returns the flag of lines for frames.
fn frames_flag<'a>(alloc: Global) -> Arg<'a>
    ensures rule { rule_of result ≡ the_frames_flag }
    ensures local { result.global ≡ false }
{
    Arg::new(alloc, "frames")
        .long("frames")
        .action(ArgAction::SetTrue)
}

/// Returns the program with its first two options.
#[tactic(auto, unfolding(crate::specs::MonitorCommands::with_first))]
fn with_first<'a>(alloc: Global, command: Command<'a>) -> Result<Command<'a>, AllocError>
    requires { (out-Command command).has_globals ≡ false }
    ensures app { IfOk result (λ c. app_of c ≡ with_first (app_of command.entry)) }
    ensures local { IfOk result (λ c. (out-Command c).has_globals ≡ false) }
{
    let (findings, whole) = (option(alloc, "findings"), whole_flag(alloc));
    command.arg(findings)?.arg(whole)
}

/// Returns the program with its first three options.
#[tactic(auto, unfolding(crate::specs::MonitorCommands::with_channel_option))]
fn with_channel<'a>(alloc: Global, command: Command<'a>) -> Result<Command<'a>, AllocError>
    requires { (out-Command command).has_globals ≡ false }
    ensures app { IfOk result (λ c. app_of c ≡ with_channel_option (app_of command.entry)) }
    ensures local { IfOk result (λ c. (out-Command c).has_globals ≡ false) }
{
    let channel = option(alloc, "channel");
    with_first(alloc, command)?.arg(channel)
}

/// Returns the program with its first four options.
#[tactic(auto, unfolding(crate::specs::MonitorCommands::with_macrotick_option))]
fn with_macrotick<'a>(alloc: Global, command: Command<'a>) -> Result<Command<'a>, AllocError>
    requires { (out-Command command).has_globals ≡ false }
    ensures app { IfOk result (λ c. app_of c ≡ with_macrotick_option (app_of command.entry)) }
    ensures local { IfOk result (λ c. (out-Command c).has_globals ≡ false) }
{
    let macrotick = option(alloc, "macrotick");
    with_channel(alloc, command)?.arg(macrotick)
}

/// Returns the program with its options.
#[tactic(auto, unfolding(crate::specs::MonitorCommands::with_options))]
fn with_options<'a>(alloc: Global, command: Command<'a>) -> Result<Command<'a>, AllocError>
    requires { (out-Command command).has_globals ≡ false }
    ensures { IfOk result (λ c. app_of c ≡ with_options (app_of command.entry)) }
{
    let frames = frames_flag(alloc);
    with_macrotick(alloc, command)?.arg(frames)
}

/// Returns the program without arguments.
fn bare_command<'a>(alloc: Global) -> Command<'a>
    ensures app { app_of result ≡ bare_command }
    ensures local { (out-Command result).has_globals ≡ false }
{
    Command::new(alloc, "fr_monitor")
        .no_binary_name(true)
        .disable_help_flag(true)
}

/// Returns the program with a file.
fn with_file<'a>(alloc: Global) -> Result<Command<'a>, AllocError>
    ensures app { IfOk result (λ c. app_of c ≡ with_rule bare_command the_file) }
    ensures local { IfOk result (λ c. (out-Command c).has_globals ≡ false) }
{
    let file = Arg::new(alloc, "FILE").required(true);
    bare_command(alloc).arg(file)
}

/// Returns the program, with a file and its options.
fn the_command<'a>(alloc: Global) -> Result<Command<'a>, AllocError>
    ensures { IfOk result (λ c. app_of c ≡ the_command) }
{
    let command = with_file(alloc)?;
    with_options(alloc, command)
}

/// Returns the number that a word spells: 0 to 4294967295, without a leading zero.
fn number_asked(word: &str) -> Option<u32>
    ensures { result ≡ number_asked word.now }
{
    match number_of(word.as_bytes(), 4_294_967_296) {
        Some(number) => Some(number as u32),
        None => None,
    }
}

/// Returns the most lines of each name.
fn findings_in(matches: &ArgMatches<'_>) -> Option<u32>
    ensures { result ≡ findings_asked (first_value (found_of matches.now) (codes "findings")) }
{
    match matches.get_str("findings") {
        None => Some(FINDINGS),
        Some(word) => number_asked(word),
    }
}

/// Returns the length of a macrotick, or 0 if none is given.
fn macrotick_in(matches: &ArgMatches<'_>) -> Option<u32>
    ensures { result ≡ macrotick_asked (first_value (found_of matches.now) (codes "macrotick")) }
{
    match matches.get_str("macrotick") {
        None => Some(0),
        Some(word) => match number_asked(word) {
            Some(0) | None => None,
            Some(number) => Some(number),
        },
    }
}

/// Returns the channel that is named, or `Some(None)` if none is.
fn channel_in(matches: &ArgMatches<'_>) -> Option<Option<Channel>>
    ensures { result ≡ channel_asked (first_value (found_of matches.now) (codes "channel")) }
{
    match matches.get_str("channel") {
        None => Some(None),
        Some("A") => Some(Some(Channel::A)),
        Some("B") => Some(Some(Channel::B)),
        Some(_) => None,
    }
}

/// Returns the command of the arguments, if they have a file and no wrong option.
fn given_in<'a>(matches: &ArgMatches<'a>) -> Option<MonitorCommand<'a>>
    ensures { option_map given_of result ≡ given_in (first_value (found_of matches.now)) }
{
    let file = matches.get_str("FILE")?;
    let findings = findings_in(matches)?;
    let channel = channel_in(matches)?;
    let macrotick = macrotick_in(matches)?;
    Some(MonitorCommand {
        file,
        findings,
        whole: matches.get_str("whole") == Some("true"),
        channel,
        macrotick,
        frames: matches.get_str("frames") == Some("true"),
    })
}

/// Returns the command of the words after the program's name (project-defined).
///
/// A command is the name of a cluster file, and options in any order: `--findings` with a number from 0 to 4294967295,
/// `--whole`, `--channel` with `A` or `B`, `--macrotick` with a number from 1 to 4294967295, and `--frames`. Numbers
/// have no leading zero. Refused with `Memory` if an allocation fails, and with `Usage` for all other words.
pub fn command_of<'a>(alloc: Global, words: &'a [&'a str]) -> Result<MonitorCommand<'a>, OrderError>
    ensures { IsAnswer (map (λ word. word.now) words.now) result }
{
    let matches = the_command(alloc)?.try_get_matches_from(words)?;
    given_in(&matches).ok_or(OrderError::Usage)
}
