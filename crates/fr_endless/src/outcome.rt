//! The outcome of a run, by the data that a world without history keeps.
ghost use Rattle.std.specs.Prelude.{length, OnOk};
ghost use Rattle.std.specs.Io.KnownBytes.{Appends};
ghost use Rattle.fr_endless.specs.Answers.{kept_node};
ghost use Rattle.fr_live.specs.LiveWorlds.{ForEachWorld};
ghost use Rattle.fr_outcome.specs.OutcomeText.{nodes_text, outcome_text};

use crate::queries::{count_at, windows_by};
use crate::world::EndlessWorld;
use fr_auditing::report::write_kept_report;
use fr_interface::state::InterfaceState;
use fr_outcome::outcome_text::write_settled;
use std::io::{self, ErrorKind, Write};

/// Writes the line of a node, and the report of its interface with so many buffers.
fn write_node<W: Write>(
    writer: &mut W,
    node: usize,
    interface: &InterfaceState,
    count: u8,
) -> io::Result<()>
    ensures { OnOk result (Appends (W.contents writer.old) (W.contents writer.new)
        (kept_node node interface.now count)) }
{
    writeln!(writer, "node {node}")?;
    write_kept_report(interface, count, writer)?;
    Ok(())
}

/// Writes the lines and reports of all nodes in order.
fn write_nodes<W: Write>(writer: &mut W, world: &EndlessWorld) -> io::Result<()>
    ensures { OnOk result (ForEachWorld world.now (λ w.
        Appends (W.contents writer.old) (W.contents writer.new) (nodes_text w.interfaces))) }
{
    let (interfaces, buffers) = (world.interfaces(), world.buffers());
    for node in 0..interfaces.len() {
        let Some(count) = count_at(buffers, node) else {
            return Err(io::Error::from(ErrorKind::Other));
        };
        write_node(writer, node, &interfaces[node], count)?;
    }
    Ok(())
}

/// Writes the outcome of a run, as `fr_outcome::outcome_text::write_outcome` does for a world that keeps its history
/// (project-defined).
///
/// Fails if the writer fails. Then a part of the text may have gone out.
pub fn write_outcome<W: Write>(writer: &mut W, world: &EndlessWorld) -> io::Result<()>
    ensures { OnOk result (ForEachWorld world.now (λ w. Appends (W.contents writer.old) (W.contents writer.new)
        (outcome_text w.interfaces (length w.bus.sealed)))) }
{
    write_nodes(writer, world)?;
    let windows = windows_by(world.bus().last());
    write_settled(writer, windows)
}
