//! The program of the bench. It reads its command from the words after its name, and executes it. The exit status is 0
//! if the command is executed, 1 if an input is rejected, 2 if the words are no command, and 3 if a run missed an
//! expectation of its scenario.
//!
//! Standard output has the output of one command, and only once that command has accepted all its input. A refusal is
//! one line on standard error. After a run, each line of faults without effect has a line there, and so has each
//! expectation that the run missed.
//!
//! ```text
//! fr_bench audit < node.trace      the report of a trace, or the first line at fault
//! fr_bench check cluster.toml      the parameters of a cluster, or the first fault of its file
//! fr_bench plan cluster.toml       senders of slots, and open intervals of each channel for each node
//! fr_bench midpoint < numbers      the fault-tolerant midpoint of numbers
//! fr_bench run cluster.toml scenario --cycles 4
//!                                  the reports of all nodes after a run in which tasks, controllers and the
//!                                  bus are threads
//! ```
//!
//! A chapter in parentheses is one of the FlexRay Protocol Specification 2.1, revision A.
//! *(project-defined)* marks a rule of this project, and makes no claim about the standard.
//!
//! # Definitions
//!
//! - `Audits`, `LongStops`, `Versions`: the result of `audit`, and the bytes that it reads, by the version of the text.
//! - `Commands`, `Failures`: what each command does; the text and the exit status of each failure.
#![tactic(auto)]

mod audit;
mod command;
mod failure;
mod reading;

use arrayvec::ArrayVec;
use command::{Source, Task, TextCommand, print_text, task_of};
use failure::BenchFailure;
use fr_cli::bench::order;
use fr_cli::standard::hold_standard;
use fr_cli::waiting::{WaitingReader, WaitingWriter};
use fr_cli::words::{texts_of, words_given};
use fr_expecting::missed::{Missed, write_missed};
use fr_files::error::BenchError;
use fr_files::named::file_named;
use fr_names::cluster_file::named_cluster_of;
use fr_threads::outcome::{RunNotes, RunOptions, run_cluster};
use fr_threads::outcome_error::OutcomeError;
use std::alloc::Global;
use std::io::{BufReader, Read, Write};
use std::process::ExitCode;
use std::rt::{Env, Files};
use std::sync::Wait;
use std::thread::Threads;
use std::time::Clock;
use std::{io, str};

/// The exit status if a run missed an expectation.
const MISSED: u8 = 3;

/// The number of bytes that are asked for at a time. In pieces of 4,096 a long trace takes about a tenth more time.
const READ_AHEAD: usize = 65_536;

/// Room for the line of a missed expectation: two payloads of 254 bytes take 1,018 of them.
const MOST_BYTES: usize = 1_280;

/// Writes the line of a missed expectation on standard error.
fn tell_missed<R: Eprint>(rt: &R, missed: &Missed) {
    let mut text = ArrayVec::<u8, MOST_BYTES>::new();
    if write_missed(&mut text, missed).is_err() {
        return;
    }
    if let Ok(line) = str::from_utf8(text.as_slice()) {
        let _ = eprintln!(rt; "{line}");
    }
}

/// Writes a line on standard error for each line of the scenario that names cycles, but none of the run, for each line
/// of faults without effect, and for each expectation that the run missed. Returns the exit status.
fn tell_notes<R: Eprint>(rt: &R, notes: &RunNotes) -> ExitCode {
    for number in &notes.skipped {
        let _ = eprintln!(rt; "line {number} names no cycle of the run");
    }
    for number in &notes.idle {
        let _ = eprintln!(rt; "line {number} struck nothing");
    }
    for missed in &notes.missed {
        tell_missed(rt, missed);
    }
    if notes.missed.is_empty() {
        ExitCode::SUCCESS
    } else {
        ExitCode::from(MISSED)
    }
}

/// Runs the cluster of one file with the scenario of the other, and returns the exit status. The scenario is opened
/// once the cluster is accepted.
fn run_files<R: Files + Print + Eprint + AllocGlobal + Threads + Wait + Clock + Sync>(
    rt: &R,
    cluster: &str,
    scenario: &str,
    options: RunOptions,
) -> Result<ExitCode, OutcomeError> {
    let alloc = rt.alloc();
    let (cluster, names) = named_cluster_of(alloc, &mut file_named(rt, cluster)?)?;
    let mut file = file_named(rt, scenario)?;
    let notes = run_cluster(
        rt,
        alloc,
        &cluster,
        &names,
        &mut file,
        options,
        &mut WaitingWriter::new(rt, io::writer(rt)),
    )?;
    Ok(tell_notes(rt, &notes))
}

/// Executes the command on the text of the reader, which is read in large pieces.
///
/// The buffer for reading is allocated first.
fn print_buffered<R: Read + Drop, W: Write>(
    alloc: Global,
    command: TextCommand,
    reader: R,
    writer: &mut W,
) -> Result<(), BenchFailure> {
    match BufReader::with_capacity(alloc, READ_AHEAD, reader) {
        Ok(mut buffered) => print_text(alloc, command, &mut buffered, writer),
        Err(_) => Err(BenchFailure::Text(BenchError::Memory)),
    }
}

/// Executes the command on the text of its source.
fn print_from<R: Files + Input + Print + AllocGlobal + Clock>(
    rt: &R,
    command: TextCommand,
    source: Source<'_>,
) -> Result<(), BenchFailure> {
    let (alloc, mut output) = (rt.alloc(), WaitingWriter::new(rt, io::writer(rt)));
    match source {
        Source::Standard => {
            let input = WaitingReader::new(rt, rt.reader());
            print_buffered(alloc, command, input, &mut output)
        }
        Source::Named(path) => print_buffered(alloc, command, file_named(rt, path)?, &mut output),
    }
}

/// Executes the task, and returns the exit status.
fn carry_out<R: Files + Input + Print + Eprint + AllocGlobal + Threads + Wait + Clock + Sync>(
    rt: &R,
    task: &Task<'_>,
) -> Result<ExitCode, BenchFailure> {
    match task {
        Task::Text(command, source) => {
            print_from(rt, *command, *source)?;
            Ok(ExitCode::SUCCESS)
        }
        Task::Run(cluster, scenario, options) => { Ok(run_files(rt, cluster, scenario, *options)?) }
    }
}

/// Reads the words and executes their command. Returns the exit status.
fn run<R: Env + Files + Input + Print + Eprint + AllocGlobal + Threads + Wait + Clock + Sync>(
    rt: &R,
) -> Result<ExitCode, BenchFailure> {
    let words = words_given(rt)?;
    let texts: Vec<&str> = texts_of(rt.alloc(), words.as_slice())?;
    carry_out(rt, &task_of(&order(rt.alloc(), texts.as_slice())?))
}

fn main(rt: HostRuntime) -> ExitCode {
    let _held = hold_standard(&rt);
    match run(&rt) {
        Ok(status) => status,
        Err(failure) => {
            let _ = eprintln!(rt; "{failure}");
            ExitCode::from(failure.status())
        }
    }
}
