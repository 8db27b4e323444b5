//! The ends of a program that hasn't audited its input to the end.
ghost use Rattle.std.specs.Prelude.{◌≡◌};
ghost use Rattle.fr_monitor.specs.declared.failure.MonitorFailure.TheVariants as failure;
ghost use Rattle.fr_monitor.specs.Failures.{status_of};

use fr_cli::error::OrderError;
use fr_files::error::BenchError;
use fr_monitoring::error::MonitorError;
use std::error::Error;
use std::fmt;

/// The reason for which the program hasn't audited its input to the end (project-defined). Printed, it is the line on
/// standard error.
#[derive(Debug, Drop)]
pub enum MonitorFailure {
    /// The words were no command, or an allocation failed while they were read.
    Words(OrderError),
    /// The allocation of a buffer for writing failed.
    Memory,
    /// The cluster file was refused, or couldn't be read.
    Text(BenchError),
    /// The recording was refused, or a stream failed.
    Recording(MonitorError),
}

impl fmt::Display for MonitorFailure {
    ghost use Rattle.std.specs.Prelude.{Some};
    ghost use Rattle.fr_monitor.specs.Failures.{failure_text};

    ghost output = { λ failure. Some (failure_text failure) };

    /// Writes the line on standard error, without its line feed.
    fn fmt<W: fmt::Write>(&self, f: &mut fmt::Formatter<W>) -> fmt::Result {
        match self {
            MonitorFailure::Words(error) => write!(f, "{error}"),
            MonitorFailure::Memory => write!(f, "refused Memory"),
            MonitorFailure::Text(error) => write!(f, "refused {error}"),
            MonitorFailure::Recording(error) => write!(f, "refused {error}"),
        }
    }
}

impl Error for MonitorFailure {}

impl MonitorFailure {
    /// Returns the program's exit status: 2 for words that are no command, 1 for everything else.
    pub fn status(&self) -> u8
        ensures { result ≡ status_of self.now }
    {
        match self {
            MonitorFailure::Words(error) => error.status(),
            MonitorFailure::Memory | MonitorFailure::Text(_) | MonitorFailure::Recording(_) => 1,
        }
    }
}

impl From<OrderError> for MonitorFailure {
    ghost from_gives = { λ error given. given ≡ failure.Words error };

    fn from(error: OrderError) -> MonitorFailure {
        MonitorFailure::Words(error)
    }
}

impl From<BenchError> for MonitorFailure {
    ghost from_gives = { λ error given. given ≡ failure.Text error };

    fn from(error: BenchError) -> MonitorFailure {
        MonitorFailure::Text(error)
    }
}

impl From<MonitorError> for MonitorFailure {
    ghost from_gives = { λ error given. given ≡ failure.Recording error };

    fn from(error: MonitorError) -> MonitorFailure {
        MonitorFailure::Recording(error)
    }
}
