//! A node's transmission in a recorded window, as the commits of a run have it.
ghost use Rattle.fr_showing.specs.CommitText.{received_text, words_by};
ghost use Rattle.fr_text.specs.Spaces.{line_of};
ghost use Rattle.fr_text.specs.Writing.{Writes};

use crate::commits::is_takeable;
use crate::ends::{End, end_on, ended_word, window_of};
use crate::takers::{Transmission, write_takers_by_plans};
use fr_bus::outcome::Sealed;
use fr_lines::writing::write_slot;
use fr_schedule::cluster::Cluster;
use fr_slots::channel::Channel;
use std::io;
use std::io::Write;

/// Writes the receivers of a transmission with this end, or a dash.
fn write_received<W: Write>(
    writer: &mut W,
    cluster: &Cluster,
    sealed: &Sealed,
    channel: Channel,
    end: Option<End>,
) -> io::Result<()>
    ensures { Writes W.contents writer.old writer.new result (received_text cluster.now sealed.now channel end) }
{
    if is_takeable(end) {
        let sent = Transmission {
            params: cluster.params(),
            sealed,
            channel,
        };
        write_takers_by_plans(writer, cluster.plans(), &sent)
    } else {
        write!(writer, "-")
    }
}

/// Writes the words of a node's transmission, as `write_commits` does (project-defined): the cycle of the run, the
/// slot, the channel, the end, and the receivers or a dash.
///
/// Fails if the writer fails. Then a part of the words may have gone out.
pub fn write_sending<W: Write>(
    writer: &mut W,
    cluster: &Cluster,
    sealed: &Sealed,
    cycle: u32,
    node: usize,
    channel: Channel,
) -> io::Result<()>
    ensures { Writes W.contents writer.old writer.new result
        (line_of (words_by cluster.now sealed.now cycle node channel)) }
{
    let end = end_on(cluster.params(), sealed, channel, node);
    write!(writer, "{cycle}")?;
    write_slot(writer, window_of(sealed).slot(channel))?;
    write!(writer, " {} {} ", channel, ended_word(end))?;
    write_received(writer, cluster, sealed, channel, end)
}
