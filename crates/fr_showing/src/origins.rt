//! The line of a scenario from which each fault of a record comes.
ghost use Rattle.std.specs.Prelude.{◌≡◌, option_and_then, position, slice_get};
ghost use Rattle.fr_showing.specs.Origins.{has_brought, has_turned, origin_of_bit, origin_of_sent};

use fr_bus::outcome::Sent;
use fr_runs::effects::{brings, turns};
use fr_runs::fault_line::FaultLine;
use fr_scenario::scenario::Scenario;
use fr_slots::channel::Channel;
use fr_slots::window::Window;

/// Returns whether the line takes effect in the window, and the transmission comes from it.
fn has_brought(cycle: usize, window: &Window, sent: &Sent, line: &FaultLine) -> bool
    ensures { result ≡ has_brought cycle window.now sent.now line.now }
{
    line.strikes(cycle, window) && brings(sent, &line.fault)
}

/// Returns whether the line takes effect in the window, and flips a bit on the channel.
fn has_turned(cycle: usize, window: &Window, channel: Channel, line: &FaultLine) -> bool
    ensures { result ≡ has_turned cycle window.now channel line.now }
{
    line.strikes(cycle, window) && turns(channel, &line.fault)
}

/// Returns the place of the first line from which the transmission comes.
fn first_brought(lines: &[FaultLine], cycle: usize, window: &Window, sent: &Sent) -> Option<usize>
    ensures { result ≡ position (has_brought cycle window.now sent.now) lines.now }
{
    lines
        .iter()
        .position(|line| has_brought(cycle, window, sent, line))
}

/// Returns the place of the first line that flips a bit on the channel.
fn first_turned(
    lines: &[FaultLine],
    cycle: usize,
    window: &Window,
    channel: Channel,
) -> Option<usize>
    ensures { result ≡ position (has_turned cycle window.now channel) lines.now }
{
    lines
        .iter()
        .position(|line| has_turned(cycle, window, channel, line))
}

/// Returns the number of the line at this place.
fn number_at(numbers: &[u32], place: Option<usize>) -> Option<u32>
    ensures { result ≡ option_and_then (slice_get numbers.now) place }
{
    numbers.get(place?).copied()
}

/// Returns the number of the scenario's line from which a transmission of the window comes.
///
/// For a babble it is the line of the babble, for a muted offer that of the mute. The window lies in the cycle of this
/// number of the run.
pub(crate) fn origin_of_sent(
    scenario: &Scenario,
    cycle: usize,
    window: &Window,
    sent: &Sent,
) -> Option<u32>
    ensures { result ≡ origin_of_sent scenario.now cycle window.now sent.now }
{
    let place = first_brought(scenario.faults(), cycle, window, sent);
    number_at(scenario.fault_numbers(), place)
}

/// Returns the number of the scenario's line that flips a bit on the channel of the window.
pub(crate) fn origin_of_bit(
    scenario: &Scenario,
    cycle: usize,
    window: &Window,
    channel: Channel,
) -> Option<u32>
    ensures { result ≡ origin_of_bit scenario.now cycle window.now channel }
{
    let place = first_turned(scenario.faults(), cycle, window, channel);
    number_at(scenario.fault_numbers(), place)
}
