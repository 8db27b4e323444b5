//! The text of the outcome of a run.
ghost use Rattle.std.specs.Prelude.{OnOk};
ghost use Rattle.std.specs.Io.KnownBytes.{Appends};
ghost use Rattle.fr_outcome.specs.OutcomeText.{node_text, nodes_text, settled_text, outcome_text};

use fr_interface::interface::Interface;
use fr_trace::report::write_report;
use std::io::{self, ErrorKind, Write};

/// Writes the line of a node and its report.
fn write_node<W: Write>(writer: &mut W, node: usize, interface: &Interface) -> io::Result<()>
    ensures { OnOk result (Appends (W.contents writer.old) (W.contents writer.new) (node_text node interface.now)) }
{
    writeln!(writer, "node {node}")?;
    match write_report(interface, writer) {
        Ok(()) => Ok(()),
        Err(_) => Err(io::Error::from(ErrorKind::Other)),
    }
}

/// Writes the lines and reports of all nodes in order.
fn write_nodes<W: Write>(writer: &mut W, interfaces: &[Interface]) -> io::Result<()>
    ensures { OnOk result (Appends (W.contents writer.old) (W.contents writer.new) (nodes_text interfaces.now)) }
{
    for (node, interface) in interfaces.iter().enumerate() {
        write_node(writer, node, interface)?;
    }
    Ok(())
}

/// Writes the end of an outcome: the number of windows and the line `settled` (project-defined).
///
/// Fails if the writer fails. Then a part of the text may have gone out.
pub fn write_settled<W: Write>(writer: &mut W, windows: u64) -> io::Result<()>
    ensures { OnOk result (Appends (W.contents writer.old) (W.contents writer.new) (settled_text windows)) }
{
    // A single-threaded run has `settled` without a cross-check: its agreement is proved.
    writeln!(writer, "windows {windows}")?;
    writeln!(writer, "settled")
}

/// Writes the outcome of a run (project-defined).
///
/// It is each node's report, the number of windows and `settled`. Fails if the writer fails. Then a part of the text
/// may have gone out.
pub fn write_outcome<W: Write>(
    writer: &mut W,
    interfaces: &[Interface],
    windows: usize,
) -> io::Result<()>
    ensures { OnOk result
        (Appends (W.contents writer.old) (W.contents writer.new) (outcome_text interfaces.now windows)) }
{
    write_nodes(writer, interfaces)?;
    write_settled(writer, windows as u64)
}
