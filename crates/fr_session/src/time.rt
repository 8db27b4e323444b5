//! The time of a run.
ghost use Rattle.std.specs.Prelude.{◌≡◌};
ghost use Rattle.fr_lines.specs.Spelling.{line_text};
ghost use Rattle.fr_session.specs.Queries.{at_words, cycle_at, moment_words};
ghost use Rattle.fr_text.specs.Writing.{Writes};

use fr_bus::error::Phase;
use fr_capture::moment::start_of_window;
use fr_slots::params::Params;
use fr_slots::window::{Window, run_cycle};
use std::io;
use std::io::Write;

/// Returns the cycle of the run of the open window.
fn cycle_at(phase: Phase, begun: u32, window: &Window) -> u32
    ensures { result ≡ cycle_at phase begun window.now }
{
    match phase {
        Phase::Collect => run_cycle(begun, window),
        // The number of cycles that have begun counts the window's own.
        Phase::Sealed | Phase::Finished => begun.saturating_sub(1),
    }
}

/// Writes a time: a cycle of the run, a macrotick of it, and the number of sealed windows.
fn write_moment<W: Write>(
    writer: &mut W,
    cycle: u32,
    macrotick: u32,
    windows: u64,
) -> io::Result<()>
    ensures { Writes W.contents writer.old writer.new result (line_text (moment_words cycle macrotick windows)) }
{
    writeln!(writer, "at {cycle} {macrotick} {windows}")
}

/// Writes the time at which the open window starts, or that of the end of the run (project-defined).
///
/// The time is the cycle of the run, from 0, the macrotick in it, from 0, and the number of sealed windows. It is known
/// by the phase of the bus and the number of cycles that have begun with a sealed window.
pub fn write_time<W: Write>(
    writer: &mut W,
    params: &Params,
    opened: Option<Window>,
    phase: Phase,
    begun: u32,
    windows: u64,
) -> io::Result<()>
    ensures { Writes W.contents writer.old writer.new result
        (line_text (at_words params.now phase begun windows opened)) }
{
    match opened {
        Some(window) => {
            let cycle = cycle_at(phase, begun, &window);
            write_moment(writer, cycle, start_of_window(params, &window), windows)
        }
        None => write_moment(writer, begun, 0, windows),
    }
}
