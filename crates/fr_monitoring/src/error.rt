//! Refusals of a recording.

use fr_recording::phase::Refusal;
use fr_slots::channel::Channel;
use fr_slots::numbers::Cycle;
use std::fmt;

/// The failures of the streams.
#[derive(Clone, Copy, Debug)]
pub(crate) enum StreamError {
    /// The input couldn't be read.
    Read,
    /// The output couldn't be written.
    Write,
}

/// Reasons for which a recording isn't audited to its end (project-defined).
#[derive(Debug, Drop)]
pub enum MonitorError {
    /// A channel that has a sender has no static slot with an owner in the cycle.
    NoClock(Channel, Cycle),
    /// The recording is no capture, or ends within a record.
    Capture(Refusal),
    /// The input couldn't be read.
    Read,
    /// The output couldn't be written.
    Write,
    /// An allocation failed.
    Memory,
}

impl fmt::Display for MonitorError {
    ghost use Rattle.std.specs.Prelude.{Some};
    ghost use Rattle.fr_monitoring.specs.ErrorNames.{monitor_error_text};

    ghost output = { λ error. Some (monitor_error_text error) };

    /// Writes the name, and the place at fault if there is one.
    fn fmt<W: fmt::Write>(&self, f: &mut fmt::Formatter<W>) -> fmt::Result {
        match self {
            MonitorError::NoClock(channel, cycle) => write!(f, "NoClock {channel} {cycle}"),
            MonitorError::Capture(Refusal::NoCapture) => write!(f, "NoCapture"),
            MonitorError::Capture(Refusal::BadBlock(place)) => write!(f, "BadBlock {place}"),
            MonitorError::Capture(Refusal::Truncated(place)) => write!(f, "Truncated {place}"),
            MonitorError::Read => write!(f, "Read"),
            MonitorError::Write => write!(f, "Write"),
            MonitorError::Memory => write!(f, "Memory"),
        }
    }
}
