//! The program that audits a recording of a bus. It reads a capture of link type 210 on standard input, and compares
//! each frame with the cluster of a file.
//!
//! ```text
//! fr_monitor cluster.toml < recording.pcapng
//! fr_monitor cluster.toml --whole --macrotick 1000 < recording.pcap
//! fr_monitor cluster.toml --frames < recording.pcap
//! ```
//!
//! Standard output has a line for each finding as it comes, and then a summary. With `--frames` it also has a line for
//! each frame. The exit status is 0 without a finding, 3 with one, 1 if an input is refused or a stream fails, and 2 if
//! the words are no command. A refusal is one line on standard error; the summary of what was read is written even so.
//!
//! *(project-defined)* marks a rule of this project, and makes no claim about the standard.
//!
//! # Definitions
//!
//! - `Failures`: the text and the exit status of each failure of `fr_monitor`.
//! - `Ends`: the rules that the words of a command ask for, and the exit status of each end.
#![tactic(auto)]

mod audit;
mod failure;

use audit::end_status;
use failure::MonitorFailure;
use fr_cli::monitor::{MonitorCommand, command_of};
use fr_cli::standard::hold_standard;
use fr_cli::waiting::{WaitingReader, WaitingWriter};
use fr_cli::words::{texts_of, words_given};
use fr_files::cluster_file::cluster_of;
use fr_files::named::file_named;
use fr_schedule::cluster::Cluster;
use std::io;
use std::io::BufWriter;
use std::process::ExitCode;
use std::rt::{Env, Files};
use std::time::Clock;

/// Returns the command's cluster.
fn cluster_in<R: Files + AllocGlobal>(
    rt: &R,
    command: &MonitorCommand<'_>,
) -> Result<Cluster, MonitorFailure> {
    let mut file = file_named(rt, command.file)?;
    Ok(cluster_of(rt.alloc(), &mut file)?)
}

/// Audits standard input by the command's cluster. Returns whether there is a finding.
fn audit_input<R: Files + Input + Print + AllocGlobal + Clock>(
    rt: &R,
    command: &MonitorCommand<'_>,
) -> Result<bool, MonitorFailure> {
    let cluster = cluster_in(rt, command)?;
    let mut reader = WaitingReader::new(rt, rt.reader());
    let Ok(mut writer) = BufWriter::new(rt.alloc(), WaitingWriter::new(rt, io::writer(rt))) else {
        return Err(MonitorFailure::Memory);
    };
    let audited = audit::audit(rt.alloc(), cluster, command, &mut reader, &mut writer);
    // The rest of a failed write is dropped, so that nothing comes after the failure.
    let _left = writer.into_parts();
    Ok(audited?)
}

/// Executes the command of the words.
fn run<R: Env + Files + Input + Print + AllocGlobal + Clock>(
    rt: &R,
) -> Result<bool, MonitorFailure> {
    let words = words_given(rt)?;
    let texts: Vec<&str> = texts_of(rt.alloc(), words.as_slice())?;
    audit_input(rt, &command_of(rt.alloc(), texts.as_slice())?)
}

fn main(rt: HostRuntime) -> ExitCode {
    let _held = hold_standard(&rt);
    let ended = run(&rt);
    if let Err(failure) = &ended {
        let _ = eprintln!(rt; "{failure}");
    }
    ExitCode::from(end_status(&ended))
}
