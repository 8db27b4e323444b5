//! The program of the bench for views. It executes the command of the words after its name. Its exit status is 0 after
//! success, 1 if an input is rejected, 2 if the words are no command, 3 if a run missed an expectation, and 5 if it
//! judged none of the scenario's expectations.
//!
//! Output comes only once the command has accepted all its input, except with `--until-fault`, and for `why`, whose
//! answer is its output. A refusal is one line on standard error. After a run, each fault line without effect has a
//! line there, and so has each expectation that the run missed.
//!
//! ```text
//! fr_view schedule cluster.toml > cycle.svg          a picture of a cycle: senders, and open intervals of guardians
//! fr_view latency cluster.toml                       the worst latency of each transmit buffer
//! fr_view links cluster.toml                         the senders of each slot and their receivers
//! fr_view capture < node.trace > node.pcap           the observations of a controller, as a capture for Wireshark
//! fr_view frames < node.trace                        the same as a table
//! fr_view why < node.trace                           the line of a trace at fault, and the reason
//! fr_view fifo < node.trace                          what becomes of each frame of the receive FIFO
//! fr_view outcome cluster.toml scenario --cycles 8   the output of `fr_bench run`
//! fr_view answers cluster.toml scenario --cycles 8   the answer to each line of the scenario
//! fr_view commits cluster.toml scenario --cycles 8   the fate of each commit
//! fr_view record cluster.toml scenario --cycles 8    the transmissions on the bus, window by window
//! fr_view windows cluster.toml scenario --cycles 8   when each window begins, and how long its slots last
//! fr_view reasons cluster.toml scenario --cycles 8   why commits weren't sent or received
//! fr_view origins cluster.toml scenario --cycles 8   the answers, with the cycle in which each frame came
//! fr_view received cluster.toml scenario --cycles 8  what each node receives in each window
//! fr_view bus cluster.toml scenario --cycles 8       the frames at a listener on the bus, as a capture
//! fr_view matrix cluster.toml scenario --cycles 8    the transmissions on the bus, as a picture
//! fr_view trace 0 cluster.toml scenario --cycles 8   the trace of a node after the run
//! fr_view --help                                     the list of commands
//! ```
//!
//! A chapter in parentheses is one of the FlexRay Protocol Specification 2.1, revision A.
//! *(project-defined)* marks a rule of this project, and makes no claim about the standard.
//!
//! # Definitions
//!
//! - `Failures`, `Tasks`: the text and the exit status of each failure of `fr_view`; what each of its commands does.
#![tactic(auto)]

mod failure;
mod task;

use arrayvec::ArrayVec;
use failure::ViewFailure;
use fr_capture::form::Form;
use fr_capture::show::show_trace;
use fr_cli::error::OrderError;
use fr_cli::standard::hold_standard;
use fr_cli::view::order;
use fr_cli::waiting::{WaitingReader, WaitingWriter};
use fr_cli::words::{texts_of, words_given};
use fr_expecting::missed::{Missed, write_missed};
use fr_fifo::show::show_fifo;
use fr_files::named::file_named;
use fr_latency::text::show_latencies;
use fr_latency::way_text::show_way;
use fr_links::text::show_links;
use fr_names::cluster_file::named_cluster_of;
use fr_picture::picture::show_schedule;
use fr_showing::show::{Notes, show_run};
use fr_showing::shown::Shown;
use fr_slots::channel::Channel;
use fr_slots::numbers::{Cycle, SlotId};
use fr_streaming::stream::{NAMED_CYCLES, Streamed, stream_run};
use fr_why::explain::explain_trace;
use fr_why::until_fault::show_until_fault;
use std::process::ExitCode;
use std::rt::{Env, Files};
use std::time::Clock;
use std::{io, str};
use task::{Task, run_status, status_told, task_of};

/// The help of the program.
const HELP: &str = "fr_view schedule FILE [--cycle N] > SVG
    a picture of a cycle of the cluster, 0 unless another is named
fr_view latency FILE [--slot SLOT [--channel A|B]]
    the worst latency of each transmit buffer; with --slot the frames before the latest start of a slot
fr_view links FILE
    the senders of each slot, with the receive buffers and FIFOs that are for their frames
fr_view capture [--own] [--until-fault] < TRACE > CAPTURE
    what a controller saw, as a capture that Wireshark opens; with --own also what it sent
fr_view frames [--all] [--until-fault] < TRACE
    the same as a table; with --all a line for each channel of each window
    --until-fault, of both: what was seen before the line at fault, and then the refusal
fr_view why < TRACE
    why an audit refuses a trace: the line at fault, the reason, and the line as it would be right
fr_view fifo < TRACE
    a line for each thing that happens to a frame of the receive FIFO: stored, popped, overwritten, waiting
fr_view outcome FILE SCENARIO --cycles N [--endless]
    what `fr_bench run` prints of a run of the cluster
fr_view answers FILE SCENARIO --cycles N [--endless]
    a line for each line of a task, with its answer
fr_view commits FILE SCENARIO --cycles N [--endless]
    a line for each commit, with what became of it; with --endless a line for each thing that happens to one
fr_view record FILE SCENARIO --cycles N [--endless]
    a line for each transmission and each bit to be turned, window by window
fr_view windows FILE SCENARIO --cycles N [--endless]
    a line for each window: when it begins, and how long the slot of each channel lasts
fr_view reasons FILE SCENARIO --cycles N [--endless]
    why commits weren't sent or received: when dynamic slots open, and what faults do
fr_view origins FILE SCENARIO --cycles N [--endless]
    the same as answers, with the cycle in which each frame came
fr_view received FILE SCENARIO --cycles N [--endless]
    what each node receives in each window, what it counts, and what stores it
fr_view bus FILE SCENARIO --cycles N [--endless] > CAPTURE
    what a listener on the bus hears, as a capture that Wireshark opens
    --endless, of all these: a run of up to 4,000,000 cycles, written as it goes
fr_view matrix FILE SCENARIO --cycles N [--channel A|B] [--node N] [--from CYCLE]
        [--from-window N] > SVG
    what channel A or B carried, or a node saw there, as a picture of up to 64 cycles
fr_view trace NODE FILE SCENARIO --cycles N
    the trace of a node after the run
fr_view --help
    these lines
";

/// Writes a line on standard error for each line of the scenario that names cycles, but none of the run.
fn tell_skipped<R: Eprint>(rt: &R, skipped: &[u32]) {
    for number in skipped {
        let _ = eprintln!(rt; "line {number} names no cycle of the run");
    }
}

/// Room for the line of a missed expectation: two payloads of 254 bytes take 1,018 of them.
const MOST_BYTES: usize = 1_280;

/// Writes the line of a missed expectation on standard error.
fn tell_missed<R: Eprint>(rt: &R, missed: &Missed) {
    let mut text = ArrayVec::<u8, MOST_BYTES>::new();
    if write_missed(&mut text, missed).is_err() {
        return;
    }
    if let Ok(line) = str::from_utf8(text.as_slice()) {
        let _ = eprintln!(rt; "{line}");
    }
}

/// Writes a line on standard error for each line without effect, and for each expectation that the run missed. All
/// output is written by then. Returns the exit status.
fn tell_notes<R: Eprint>(rt: &R, notes: &Notes) -> ExitCode {
    tell_skipped(rt, notes.skipped.as_slice());
    for number in &notes.idle {
        let _ = eprintln!(rt; "line {number} struck nothing");
    }
    for missed in &notes.missed {
        tell_missed(rt, missed);
    }
    ExitCode::from(run_status(notes.missed.len(), 0))
}

/// Writes a line on standard error for each line of expectations that isn't judged. Those of a line with lists have
/// one number, and follow one another.
fn tell_unjudged<R: Eprint>(rt: &R, numbers: &[u32]) {
    let mut told = None;
    for number in numbers {
        if told != Some(*number) {
            let _ = eprintln!(rt; "line {number} is not judged in a run without history");
            told = Some(*number);
        }
    }
}

/// Runs the cluster of one file with the scenario of the other, writes the view of the run, and returns the exit
/// status.
///
/// The scenario is opened once the cluster is accepted.
fn show_files<R: Files + Print + Eprint + AllocGlobal + Clock>(
    rt: &R,
    shown: Shown,
    cluster: &str,
    scenario: &str,
    cycles: u16,
) -> Result<ExitCode, ViewFailure> {
    let alloc = rt.alloc();
    let (cluster, names) = named_cluster_of(alloc, &mut file_named(rt, cluster)?)?;
    let mut file = file_named(rt, scenario)?;
    let mut output = WaitingWriter::new(rt, io::writer(rt));
    let notes = show_run(
        alloc,
        &cluster,
        &names,
        &mut file,
        cycles,
        shown,
        &mut output,
    )?;
    Ok(tell_notes(rt, &notes))
}

/// Runs the cluster of one file with the scenario of the other without history, writes the view as the run goes, and
/// returns the exit status.
fn stream_files<R: Files + Print + Eprint + AllocGlobal + Clock>(
    rt: &R,
    streamed: Streamed,
    cluster: &str,
    scenario: &str,
    cycles: u32,
) -> Result<ExitCode, ViewFailure> {
    let alloc = rt.alloc();
    let (cluster, names) = named_cluster_of(alloc, &mut file_named(rt, cluster)?)?;
    let mut file = file_named(rt, scenario)?;
    let mut output = WaitingWriter::new(rt, io::writer(rt));
    let notes = stream_run(
        alloc,
        &cluster,
        &names,
        &mut file,
        cycles,
        streamed,
        &mut output,
    )?;
    tell_skipped(rt, notes.skipped.as_slice());
    if cycles > NAMED_CYCLES && notes.calls_last {
        let _ = eprintln!(rt; "no call comes after cycle 1023, the last that a scenario names");
    }
    tell_unjudged(rt, notes.unjudged.as_slice());
    Ok(ExitCode::from(run_status(0, notes.unjudged.len())))
}

/// Writes the observations of a controller, from its trace on standard input.
fn show_seen<R: Input + Print + AllocGlobal + Clock>(
    rt: &R,
    form: Form,
    until_fault: bool,
) -> Result<(), ViewFailure> {
    let (alloc, mut output) = (rt.alloc(), WaitingWriter::new(rt, io::writer(rt)));
    if until_fault {
        Ok(show_until_fault(
            alloc,
            form,
            &mut WaitingReader::new(rt, rt.reader()),
            &mut output,
        )?)
    } else {
        Ok(show_trace(
            alloc,
            form,
            &mut WaitingReader::new(rt, rt.reader()),
            &mut output,
        )?)
    }
}

/// Writes why an audit rejects the trace on standard input. The status shows whether it does.
fn explain<R: Input + Print + AllocGlobal + Clock>(rt: &R) -> Result<ExitCode, ViewFailure> {
    let verdict = explain_trace(
        rt.alloc(),
        &mut WaitingReader::new(rt, rt.reader()),
        &mut WaitingWriter::new(rt, io::writer(rt)),
    )?;
    Ok(ExitCode::from(status_told(verdict)))
}

/// Writes what becomes of the frames of a receive FIFO, from its node's trace on standard input.
fn show_frames<R: Input + Print + AllocGlobal + Clock>(rt: &R) -> Result<(), ViewFailure> {
    Ok(show_fifo(
        rt.alloc(),
        &mut WaitingReader::new(rt, rt.reader()),
        &mut WaitingWriter::new(rt, io::writer(rt)),
    )?)
}

/// Writes the picture of a cycle of the cluster in the file.
fn show_cycle<R: Files + Print + AllocGlobal + Clock>(
    rt: &R,
    file: &str,
    cycle: Cycle,
) -> Result<(), ViewFailure> {
    let mut file = file_named(rt, file)?;
    let mut output = WaitingWriter::new(rt, io::writer(rt));
    Ok(show_schedule(rt.alloc(), &mut file, cycle, &mut output)?)
}

/// Writes the latencies of the cluster in the file.
fn show_worst<R: Files + Print + AllocGlobal + Clock>(
    rt: &R,
    file: &str,
) -> Result<(), ViewFailure> {
    let mut file = file_named(rt, file)?;
    let mut output = WaitingWriter::new(rt, io::writer(rt));
    Ok(show_latencies(rt.alloc(), &mut file, &mut output)?)
}

/// Writes the way to the latest start of a slot of the cluster in the file.
fn show_before<R: Files + Print + AllocGlobal + Clock>(
    rt: &R,
    file: &str,
    slot: SlotId,
    channel: Channel,
) -> Result<(), ViewFailure> {
    let mut file = file_named(rt, file)?;
    let mut output = WaitingWriter::new(rt, io::writer(rt));
    Ok(show_way(rt.alloc(), &mut file, slot, channel, &mut output)?)
}

/// Writes the links of the cluster in the file.
fn show_receivers<R: Files + Print + AllocGlobal + Clock>(
    rt: &R,
    file: &str,
) -> Result<(), ViewFailure> {
    let mut file = file_named(rt, file)?;
    let mut output = WaitingWriter::new(rt, io::writer(rt));
    Ok(show_links(rt.alloc(), &mut file, &mut output)?)
}

/// Writes the list of commands.
fn show_help<R: Print + Clock>(rt: &R) -> Result<(), ViewFailure> {
    match io::Write::write_all(&mut WaitingWriter::new(rt, io::writer(rt)), HELP.as_bytes()) {
        Ok(()) => Ok(()),
        Err(_) => Err(ViewFailure::Write),
    }
}

/// Does what the command says.
fn carry_out<R: Files + Input + Print + Eprint + AllocGlobal + Clock>(
    rt: &R,
    task: &Task<'_>,
) -> Result<ExitCode, ViewFailure> {
    match task {
        Task::Cycle { file, cycle } => show_cycle(rt, file, *cycle)?,
        Task::Latencies { file } => show_worst(rt, file)?,
        Task::Way {
            file,
            slot,
            channel,
        } => show_before(rt, file, *slot, *channel)?,
        Task::Links { file } => show_receivers(rt, file)?,
        Task::Seen { form, until_fault } => show_seen(rt, *form, *until_fault)?,
        Task::Why => return explain(rt),
        Task::Fifo => show_frames(rt)?,
        Task::Run {
            shown,
            cluster,
            scenario,
            cycles,
        } => return show_files(rt, *shown, cluster, scenario, *cycles),
        Task::Stream {
            streamed,
            cluster,
            scenario,
            cycles,
        } => return stream_files(rt, *streamed, cluster, scenario, *cycles),
        Task::Help => show_help(rt)?,
    }
    Ok(ExitCode::SUCCESS)
}

/// Reads the words and executes their command.
fn run<R: Env + Files + Input + Print + Eprint + AllocGlobal + Clock>(
    rt: &R,
) -> Result<ExitCode, ViewFailure> {
    let words = words_given(rt)?;
    let texts: Vec<&str> = texts_of(rt.alloc(), words.as_slice())?;
    match task_of(order(rt.alloc(), texts.as_slice())?) {
        Some(task) => carry_out(rt, &task),
        None => Err(ViewFailure::Words(OrderError::Usage)),
    }
}

fn main(rt: HostRuntime) -> ExitCode {
    let _held = hold_standard(&rt);
    match run(&rt) {
        Ok(status) => status,
        Err(failure) => {
            let _ = eprintln!(rt; "{failure}");
            ExitCode::from(failure.status())
        }
    }
}
