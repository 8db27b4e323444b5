//! The fault lines that a session keeps.
ghost use Rattle.fr_session.specs.Keeping.{KeepsLine, KeepsBoth};
ghost use Rattle.fr_session.specs.Queries.{Replies};

use crate::kept::KeptLines;
use crate::queries::write_memory;
use crate::replies::{write_bad_fault, write_done};
use fr_runs::fault_line::FaultLine;
use fr_schedule::cluster::Cluster;
use std::io;
use std::io::Write;

/// Keeps the line after the others, if it suits, and writes the reply.
///
/// It must suit the cluster, the run and these lines.
pub fn keep_line<W: Write>(
    cluster: &Cluster,
    cycles: u16,
    kept: &mut KeptLines,
    line: FaultLine,
    writer: &mut W,
) -> io::Result<()>
    ensures { Replies W.contents writer.old writer.new result
        (λ reply. KeepsLine cluster.now cycles kept.old line reply kept.new) }
{
    if !kept.suit(cluster, cycles, &line) {
        return write_bad_fault(writer, kept.len());
    }
    match kept.push(line) {
        Ok(()) => write_done(writer),
        Err(_) => write_memory(writer),
    }
}

/// Keeps both lines after the others, or neither, and writes the reply.
///
/// The first must suit as the line of `keep_line` must, and the second must suit beside it as well. The reply is
/// `done`, `refused BadFault N` with N kept lines, or `refused Memory`.
pub fn keep_both<W: Write>(
    cluster: &Cluster,
    cycles: u16,
    kept: &mut KeptLines,
    a: FaultLine,
    b: FaultLine,
    writer: &mut W,
) -> io::Result<()>
    ensures { Replies W.contents writer.old writer.new result
        (λ reply. KeepsBoth cluster.now cycles kept.old a b reply kept.new) }
{
    if !kept.suit_both(cluster, cycles, &a, &b) {
        return write_bad_fault(writer, kept.len());
    }
    match kept.push_both(a, b) {
        Ok(()) => write_done(writer),
        Err(_) => write_memory(writer),
    }
}
