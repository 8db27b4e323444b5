//! The program through which host programs take part in a cluster. It opens the world of a cluster file for a run of
//! some cycles. Then it answers each line on standard input with a line or a block of lines on standard output, before
//! it reads the next.
//!
//! ```text
//! fr_world cluster.toml --cycles 4
//! fr_world cluster.toml --endless
//! fr_world cluster.toml --endless --keep 8
//! fr_world cluster.toml --endless --record lines --capture bus.pcap --trace folder
//! ```
//!
//! Its exit status is 0 at the end of the input, 1 if the cluster is refused or a stream fails, and 2 if the words are
//! no command. Such a refusal is one line on standard error. The refusal of a request is its reply.
//!
//! *(project-defined)* marks a rule of this project, and makes no claim about the standard.
//!
//! # Definitions
//!
//! - `Failures`: the text and the exit status of each failure of `fr_world`.
//! - `Serving`: the session of a run, with the world that it opens.
//!
//! # Inner workings
//!
//! `main` reads the words, makes the cluster, opens the files for the record, the capture and the traces (`outputs`),
//! and allocates the buffers for reading and writing, and with `--keep` the places for the lines of the last windows.
//! `serve_run` (`serving`) opens the world, and with it the files are emptied. Then `serve` (`fr_session`) answers
//! until the reader ends, or without history `serve_endless` (`fr_endless`).
#![tactic(auto)]

mod failure;
mod outputs;
mod serving;

use failure::WorldFailure;
use fr_cli::standard::hold_standard;
use fr_cli::waiting::{WaitingReader, WaitingWriter};
use fr_cli::words::{texts_of, words_given};
use fr_cli::world::{WorldCommand, WorldFiles, command_of};
use fr_endless::taps::{Tap, Taps};
use fr_files::cluster_file::cluster_of;
use fr_files::named::file_named;
use fr_schedule::cluster::Cluster;
use fr_session::error::SessionError;
use fr_slots::numbers::NodeId;
use outputs::{Output, UsedFiles, output_named};
use serving::serve_run;
use std::fs::OpenFile;
use std::io::{BufReader, BufWriter};
use std::process::ExitCode;
use std::rt::{Env, Files};
use std::time::Clock;
use std::{fs, io, mem};

/// A file that a session writes.
type SessionFile<R> = BufWriter<Output<<R as Files>::File>>;

/// Returns the command's cluster, and notes its file.
fn cluster_in<R: Files + AllocGlobal>(
    rt: &R,
    used: &mut UsedFiles,
    command: WorldCommand<'_>,
) -> Result<Cluster, WorldFailure> {
    let mut file = file_named(rt, command.file)?;
    if let Ok(metadata) = file.metadata() {
        // The requests may come from the same file.
        let _is_input = used.note(&metadata);
    }
    Ok(cluster_of(rt.alloc(), &mut file)?)
}

/// Opens the file of this name to be written, if there is a name.
///
/// Fails with `Memory` if an allocation fails, otherwise with `Tap` if the file can't be opened, and with `SameFile` if
/// it is in use.
fn file_of<R: Files + AllocGlobal>(
    rt: &R,
    used: &mut UsedFiles,
    name: Option<&str>,
    tap: Tap,
) -> Result<Option<SessionFile<R>>, WorldFailure> {
    let Some(name) = name else {
        return Ok(None);
    };
    let file = output_named(rt, used, name, tap)?;
    match BufWriter::new(rt.alloc(), file) {
        Ok(writer) => Ok(Some(writer)),
        Err(_) => Err(WorldFailure::Memory),
    }
}

/// Returns whether a symbolic link of this name leads to a regular file, or to none, so that a file would be made
/// there. A link to a terminal, a pipe or a device changes no file.
fn leads_to_file<R: Files>(rt: &R, name: &str) -> bool {
    let is_link = match fs::symlink_metadata(rt, name) {
        Ok(metadata) => metadata.is_symlink(),
        Err(_) => false,
    };
    let is_other = match fs::metadata(rt, name) {
        Ok(metadata) => !metadata.is_file(),
        Err(_) => false,
    };
    is_link && !is_other
}

/// Opens the file of the node's trace in this folder. A symbolic link to a file is refused, since it may lead out of
/// the folder.
///
/// Fails as `file_of` does.
fn trace_of<R: Files + AllocGlobal>(
    rt: &R,
    used: &mut UsedFiles,
    folder: &str,
    node: NodeId,
) -> Result<Option<SessionFile<R>>, WorldFailure> {
    // A folder without a name isn't the root.
    if folder.is_empty() {
        return Err(WorldFailure::Tap(Tap::Trace(node)));
    }
    let Ok(name) = format!(in rt.alloc(); "{folder}/{node}") else {
        return Err(WorldFailure::Memory);
    };
    if leads_to_file(rt, name.as_str()) {
        return Err(WorldFailure::Tap(Tap::Trace(node)));
    }
    file_of(rt, used, Some(name.as_str()), Tap::Trace(node))
}

/// Returns whether the trace of the node of this number is asked for.
fn is_chosen(nodes: &Option<[bool; 16]>, number: u8) -> bool {
    match nodes {
        Some(nodes) => nodes.get(usize::from(number)) == Some(&true),
        None => true,
    }
}

/// Fails with `Tap` if the trace of a node is asked for that the cluster doesn't have.
fn check_nodes(cluster: &Cluster, nodes: &Option<[bool; 16]>) -> Result<(), WorldFailure> {
    for number in cluster.nodes()..16 {
        match NodeId::new(number) {
            Some(node) if nodes.is_some() && is_chosen(nodes, number) => {
                return Err(WorldFailure::Tap(Tap::Trace(node)));
            }
            _ => {}
        }
    }
    Ok(())
}

/// Opens the files of the nodes' traces that are asked for, in the order of the nodes, if there is a folder for them.
fn traces_of<R: Files + AllocGlobal>(
    rt: &R,
    used: &mut UsedFiles,
    cluster: &Cluster,
    files: &WorldFiles<'_>,
) -> Result<Vec<Option<SessionFile<R>>>, WorldFailure> {
    let mut traces = Vec::new(rt.alloc());
    let Some(folder) = files.trace else {
        return Ok(traces);
    };
    for number in 0..cluster.nodes() {
        let file = match NodeId::new(number) {
            Some(node) if is_chosen(&files.trace_nodes, number) => {
                trace_of(rt, used, folder, node)?
            }
            _ => None,
        };
        if traces.push(file).is_err() {
            return Err(WorldFailure::Memory);
        }
    }
    Ok(traces)
}

/// Opens the command's files for the windows of the cluster and the traces of its nodes.
fn taps_of<R: Files + AllocGlobal>(
    rt: &R,
    used: &mut UsedFiles,
    cluster: &Cluster,
    command: WorldCommand<'_>,
) -> Result<Taps<SessionFile<R>>, WorldFailure> {
    check_nodes(cluster, &command.files.trace_nodes)?;
    let recorded = file_of(rt, used, command.files.record, Tap::Record)?;
    let captured = file_of(rt, used, command.files.capture, Tap::Capture)?;
    let traces = traces_of(rt, used, cluster, &command.files)?;
    let keep = command.keep.unwrap_or(0);
    match Taps::new(
        rt.alloc(),
        cluster.params(),
        recorded,
        captured,
        traces,
        keep,
    ) {
        Ok(taps) => Ok(taps),
        Err(_) => Err(WorldFailure::Memory),
    }
}

/// Returns whether the session ended before its first line, since an allocation failed.
fn is_unbegun(served: &Result<(), WorldFailure>) -> bool {
    matches!(served, Err(WorldFailure::Session(SessionError::Memory)))
}

/// Serves the world of the command's cluster on standard input and output.
///
/// The buffers for reading and writing are allocated first. The session allocates the room for a reply.
fn serve_world<R: Files + Input + Print + AllocGlobal + Clock>(
    rt: &R,
    command: WorldCommand<'_>,
) -> Result<(), WorldFailure> {
    let (alloc, mut used) = (rt.alloc(), UsedFiles::standard(rt));
    let cluster = cluster_in(rt, &mut used, command)?;
    let mut taps = taps_of(rt, &mut used, &cluster, command)?;
    let Ok(mut reader) = BufReader::new(alloc, WaitingReader::new(rt, rt.reader())) else {
        return Err(WorldFailure::Memory);
    };
    let Ok(mut writer) = BufWriter::new(alloc, WaitingWriter::new(rt, io::writer(rt))) else {
        return Err(WorldFailure::Memory);
    };
    let served = serve_run(
        alloc,
        &cluster,
        command.run,
        &mut taps,
        &mut reader,
        &mut writer,
    );
    // The rest of a failed write is dropped, so that nothing comes after the failure.
    let _left = writer.into_parts();
    if is_unbegun(&served) {
        // The first lines of the traces are in their buffers, which would write them when they are dropped.
        mem::forget(taps);
    }
    served
}

/// Executes the command of the words.
fn run<R: Env + Files + Input + Print + AllocGlobal + Clock>(rt: &R) -> Result<(), WorldFailure> {
    let words = words_given(rt)?;
    let texts: Vec<&str> = texts_of(rt.alloc(), words.as_slice())?;
    serve_world(rt, command_of(rt.alloc(), texts.as_slice())?)
}

fn main(rt: HostRuntime) -> ExitCode {
    let _held = hold_standard(&rt);
    match run(&rt) {
        Ok(()) => ExitCode::SUCCESS,
        Err(failure) => {
            let _ = eprintln!(rt; "{failure}");
            ExitCode::from(failure.status())
        }
    }
}
