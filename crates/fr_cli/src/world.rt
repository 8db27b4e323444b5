//! The command of `fr_world`: the words after its name, read as the session that it has to serve.
ghost use Rattle.std.specs.Prelude.{◌≡◌, IfOk, codes, map, option_map, false};
ghost use Rattle.clap.specs.Words.{app_of, first_value, found_of, rule_of, with_rule};
ghost use Rattle.clap.specs.declared.builder.command.Command.TheViews.{out-Command};
ghost use Rattle.fr_cli.specs.Commands.{is_true, the_file};
ghost use Rattle.fr_cli.specs.WorldCommands.{IsAnswer, are_allowed, bare_command, capture_option, cycles_option};
ghost use Rattle.fr_cli.specs.WorldCommands.{endless_flag, few_in, files_by, files_in, given_by, given_in};
ghost use Rattle.fr_cli.specs.WorldCommands.{keep_option, kept_in, nodes_option, record_option, run_in, the_command};
ghost use Rattle.fr_cli.specs.WorldCommands.{trace_option, traced_in, with_files, with_keep, with_options};
ghost use Rattle.fr_cli.specs.WorldCommands.{words_in, words_of};

use crate::commands::{cycles_of, most_of};
use crate::error::OrderError;
use crate::nodes::nodes_of;
use clap::{Arg, ArgAction, ArgMatches, Command};
use fr_text::numbers::number_of;
use std::alloc::{AllocError, Global};

/// The run of a session (project-defined).
#[derive(Clone, Copy, PartialEq, Eq)]
pub enum WorldRun {
    /// A run of so many cycles, 1 to 1024, whose world keeps its history.
    Kept(u16),
    /// A run without history. It has so many cycles, 1 to 4,000,000, or the most that its cluster allows.
    Endless(Option<u32>),
}

/// The files to which a run without history writes (project-defined).
#[derive(Clone, Copy, PartialEq, Eq)]
pub struct WorldFiles<'a> {
    /// The name of the file that gets the record.
    pub record: Option<&'a str>,
    /// The name of the file that gets a capture.
    pub capture: Option<&'a str>,
    /// The name of the folder that gets the traces of nodes.
    pub trace: Option<&'a str>,
    /// The nodes whose traces the folder gets: node n's if the place n is true. `None` for all nodes.
    pub trace_nodes: Option<[bool; 16]>,
}

/// The command of `fr_world`: a session with a world (project-defined).
#[derive(Clone, Copy, PartialEq, Eq)]
pub struct WorldCommand<'a> {
    /// The name of the cluster file.
    pub file: &'a str,
    /// The run.
    pub run: WorldRun,
    /// The files to which it writes.
    pub files: WorldFiles<'a>,
    /// The number of cycles whose windows a run without history keeps, 1 to 64.
    pub keep: Option<u8>,
}

/// Returns the option of a number of cycles.
fn cycles_option<'a>(alloc: Global) -> Arg<'a>
    ensures rule { rule_of result ≡ cycles_option }
    ensures local { result.global ≡ false }
{
    Arg::new(alloc, "cycles").long("cycles")
}

/// Returns the flag of a run without history.
fn endless_flag<'a>(alloc: Global) -> Arg<'a>
    ensures rule { rule_of result ≡ endless_flag }
    ensures local { result.global ≡ false }
{
    Arg::new(alloc, "endless")
        .long("endless")
        .action(ArgAction::SetTrue)
}

/// Returns the option of a file for the record.
fn record_option<'a>(alloc: Global) -> Arg<'a>
    ensures rule { rule_of result ≡ record_option }
    ensures local { result.global ≡ false }
{
    Arg::new(alloc, "record").long("record")
}

/// Returns the option of a file for the capture.
fn capture_option<'a>(alloc: Global) -> Arg<'a>
    ensures rule { rule_of result ≡ capture_option }
    ensures local { result.global ≡ false }
{
    Arg::new(alloc, "capture").long("capture")
}

/// Returns the option of a folder for the traces.
fn trace_option<'a>(alloc: Global) -> Arg<'a>
    ensures rule { rule_of result ≡ trace_option }
    ensures local { result.global ≡ false }
{
    Arg::new(alloc, "trace").long("trace")
}

/// Returns the option of the nodes whose traces are written.
fn nodes_option<'a>(alloc: Global) -> Arg<'a>
    ensures rule { rule_of result ≡ nodes_option }
    ensures local { result.global ≡ false }
{
    Arg::new(alloc, "trace-nodes").long("trace-nodes")
}

/// Returns the option of a number of cycles that are kept.
fn keep_option<'a>(alloc: Global) -> Arg<'a>
    ensures rule { rule_of result ≡ keep_option }
    ensures local { result.global ≡ false }
{
    Arg::new(alloc, "keep").long("keep")
}

/// Returns the program without arguments.
fn bare_command<'a>(alloc: Global) -> Command<'a>
    ensures app { app_of result ≡ bare_command }
    ensures local { (out-Command result).has_globals ≡ false }
{
    Command::new(alloc, "fr_world")
        .no_binary_name(true)
        .disable_help_flag(true)
}

/// Returns the program with a file.
fn with_file<'a>(alloc: Global) -> Result<Command<'a>, AllocError>
    ensures app { IfOk result (λ c. app_of c ≡ with_rule bare_command the_file) }
    ensures local { IfOk result (λ c. (out-Command c).has_globals ≡ false) }
{
    let file = Arg::new(alloc, "FILE").required(true);
    bare_command(alloc).arg(file)
}

/// Returns the program with its options.
#[tactic(auto, unfolding(crate::specs::WorldCommands::with_options))]
fn with_options<'a>(alloc: Global, command: Command<'a>) -> Result<Command<'a>, AllocError>
    requires { (out-Command command).has_globals ≡ false }
    ensures app { IfOk result (λ c. app_of c ≡ with_options (app_of command.entry)) }
    ensures local { IfOk result (λ c. (out-Command c).has_globals ≡ false) }
{
    let (cycles, endless) = (cycles_option(alloc), endless_flag(alloc));
    command.arg(cycles)?.arg(endless)
}

/// Returns the program with the options of files.
#[tactic(auto, unfolding(crate::specs::WorldCommands::with_files))]
fn with_files<'a>(alloc: Global, command: Command<'a>) -> Result<Command<'a>, AllocError>
    requires { (out-Command command).has_globals ≡ false }
    ensures app { IfOk result (λ c. app_of c ≡ with_files (app_of command.entry)) }
    ensures local { IfOk result (λ c. (out-Command c).has_globals ≡ false) }
{
    let command = command.arg(record_option(alloc))?;
    let (captured, traced) = (capture_option(alloc), trace_option(alloc));
    command.arg(captured)?.arg(traced)
}

/// Returns the program with the options of traced nodes and of cycles that are kept.
#[tactic(auto, unfolding(crate::specs::WorldCommands::with_keep))]
fn with_keep<'a>(alloc: Global, command: Command<'a>) -> Result<Command<'a>, AllocError>
    requires { (out-Command command).has_globals ≡ false }
    ensures { IfOk result (λ c. app_of c ≡ with_keep (app_of command.entry)) }
{
    let (nodes, keep) = (nodes_option(alloc), keep_option(alloc));
    command.arg(nodes)?.arg(keep)
}

/// Returns the program, with a file and its options.
fn the_command<'a>(alloc: Global) -> Result<Command<'a>, AllocError>
    ensures { IfOk result (λ c. app_of c ≡ the_command) }
{
    let command = with_file(alloc)?;
    let command = with_options(alloc, command)?;
    let command = with_files(alloc, command)?;
    with_keep(alloc, command)
}

/// The words of options that only a run without history has.
#[derive(Clone, Copy)]
struct Words<'a> {
    record: Option<&'a str>,
    capture: Option<&'a str>,
    trace: Option<&'a str>,
    nodes: Option<&'a str>,
    keep: Option<&'a str>,
}

/// Returns whether a run may have these words. One with its history has none, and nodes are named beside a folder.
fn are_allowed(endless: bool, words: &Words<'_>) -> bool
    ensures { result ≡ are_allowed endless (words_of words.now) }
{
    if endless {
        return words.trace.is_some() || words.nodes.is_none();
    }
    let no_file = words.record.is_none() && words.capture.is_none() && words.trace.is_none();
    no_file && words.nodes.is_none() && words.keep.is_none()
}

/// Returns the number of kept cycles that a word spells: 1 to 64, without a leading zero.
fn few_of(word: &str) -> Option<u8>
    ensures { result ≡ few_in word.now }
{
    match number_of(word.as_bytes(), 65) {
        Some(0) | None => None,
        Some(cycles) => Some(cycles as u8),
    }
}

/// Returns the number of kept cycles of a word, or `Some(None)` if there is no word.
fn kept_of(word: Option<&str>) -> Option<Option<u8>>
    ensures { result ≡ kept_in (option_map (λ w. w.now) word.entry) }
{
    match word {
        None => Some(None),
        Some(word) => Some(Some(few_of(word)?)),
    }
}

/// Returns the nodes of a word, or `Some(None)` if there is no word.
fn traced_of(word: Option<&str>) -> Option<Option<[bool; 16]>>
    ensures { result ≡ traced_in (option_map (λ w. w.now) word.entry) }
{
    match word {
        None => Some(None),
        Some(word) => Some(Some(nodes_of(word)?)),
    }
}

/// Returns the run of the flag and of the word for cycles, if they spell one.
fn run_of(endless: bool, word: Option<&str>) -> Option<WorldRun>
    ensures { result ≡ run_in endless (option_map (λ w. w.now) word.entry) }
{
    match (endless, word) {
        (false, None) => None,
        (false, Some(word)) => Some(WorldRun::Kept(cycles_of(word)?)),
        (true, None) => Some(WorldRun::Endless(None)),
        (true, Some(word)) => Some(WorldRun::Endless(Some(most_of(word)?))),
    }
}

/// Returns the words of the options that only a run without history has.
fn words_in<'a>(matches: &ArgMatches<'a>) -> Words<'a>
    ensures { words_of result ≡ words_in (first_value (found_of matches.now)) }
{
    Words {
        record: matches.get_str("record"),
        capture: matches.get_str("capture"),
        trace: matches.get_str("trace"),
        nodes: matches.get_str("trace-nodes"),
        keep: matches.get_str("keep"),
    }
}

/// Returns the files that the words name, if they are right.
fn files_of<'a>(words: &Words<'a>) -> Option<WorldFiles<'a>>
    ensures { option_map files_by result ≡ files_in (words_of words.now) }
{
    let trace_nodes = traced_of(words.nodes)?;
    Some(WorldFiles {
        record: words.record,
        capture: words.capture,
        trace: words.trace,
        trace_nodes,
    })
}

/// Returns the command of the arguments, if they have a file and a run.
fn given_in<'a>(matches: &ArgMatches<'a>) -> Option<WorldCommand<'a>>
    ensures { option_map given_by result ≡ given_in (first_value (found_of matches.now)) }
{
    let endless = matches.get_str("endless") == Some("true");
    let words = words_in(matches);
    if !are_allowed(endless, &words) {
        return None;
    }
    let run = run_of(endless, matches.get_str("cycles"));
    let file = matches.get_str("FILE")?;
    let run = run?;
    let keep = kept_of(words.keep)?;
    let files = files_of(&words)?;
    Some(WorldCommand {
        file,
        run,
        files,
        keep,
    })
}

/// Returns the command of the words after the program's name (project-defined).
///
/// A command is the name of a cluster file, and `--cycles` with a number from 1 to 1024, in any order. With `--endless`
/// beside them the number is 1 to 4,000,000, and `--cycles` may be absent. Then there may also be `--record` and
/// `--capture`, each with the name of a file, `--trace` with the name of a folder, and `--keep` with a number from 1 to
/// 64. Beside `--trace` there may be `--trace-nodes` with numbers of nodes, 0 to 15, each once and with commas between
/// them. Numbers have no leading zero. Refused with `Memory` if an allocation fails, and with `Usage` for all other
/// words.
pub fn command_of<'a>(alloc: Global, words: &'a [&'a str]) -> Result<WorldCommand<'a>, OrderError>
    ensures { IsAnswer (map (λ word. word.now) words.now) result }
{
    let matches = the_command(alloc)?.try_get_matches_from(words)?;
    given_in(&matches).ok_or(OrderError::Usage)
}
