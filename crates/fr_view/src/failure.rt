//! Failures of the program, and its exit status.
ghost use Rattle.std.specs.Prelude.{◌≡◌};
ghost use Rattle.fr_view.specs.declared.failure.ViewFailure.TheVariants as failure;
ghost use Rattle.fr_view.specs.Failures.{status_of};

use fr_cli::error::OrderError;
use fr_files::error::BenchError;
use fr_playing::error::PlayError;
use fr_trace::error::TraceError;
use std::error::Error;
use std::fmt;

/// Reasons why the program hasn't executed its command (project-defined).
///
/// An error prints as the line on standard error.
#[derive(Clone, Copy, Debug, Drop, PartialEq, Eq)]
pub enum ViewFailure {
    /// The words are no command, or an allocation for them failed.
    Words(OrderError),
    /// The output couldn't be written.
    Write,
    /// The cluster file was rejected, or couldn't be read, or its picture couldn't be written.
    Text(BenchError),
    /// The trace was rejected, or couldn't be read, or its view couldn't be written.
    Trace(TraceError),
    /// A run was rejected, or its view couldn't be written.
    Play(PlayError),
}

impl fmt::Display for ViewFailure {
    ghost use Rattle.std.specs.Prelude.{Some};
    ghost use Rattle.fr_view.specs.Failures.{failure_text};

    ghost output = { λ failure. Some (failure_text failure) };

    /// Writes the line on standard error, without its line feed.
    fn fmt<W: fmt::Write>(&self, f: &mut fmt::Formatter<W>) -> fmt::Result {
        match self {
            ViewFailure::Words(error) => write!(f, "{error}"),
            ViewFailure::Write => write!(f, "refused Write"),
            ViewFailure::Text(error) => write!(f, "refused {error}"),
            ViewFailure::Trace(error) => write!(f, "refused {error}"),
            ViewFailure::Play(error) => write!(f, "refused {error}"),
        }
    }
}

impl Error for ViewFailure {}

impl ViewFailure {
    /// Returns the program's exit status: 2 for words that are no command, 1 for everything else.
    pub fn status(&self) -> u8
        ensures { result ≡ status_of self.now }
    {
        match self {
            ViewFailure::Words(error) => error.status(),
            ViewFailure::Write
            | ViewFailure::Text(_)
            | ViewFailure::Trace(_)
            | ViewFailure::Play(_) => 1,
        }
    }
}

impl From<OrderError> for ViewFailure {
    ghost from_gives = { λ error given. given ≡ failure.Words error };

    fn from(error: OrderError) -> ViewFailure {
        ViewFailure::Words(error)
    }
}

impl From<BenchError> for ViewFailure {
    ghost from_gives = { λ error given. given ≡ failure.Text error };

    fn from(error: BenchError) -> ViewFailure {
        ViewFailure::Text(error)
    }
}

impl From<TraceError> for ViewFailure {
    ghost from_gives = { λ error given. given ≡ failure.Trace error };

    fn from(error: TraceError) -> ViewFailure {
        ViewFailure::Trace(error)
    }
}

impl From<PlayError> for ViewFailure {
    ghost from_gives = { λ error given. given ≡ failure.Play error };

    fn from(error: PlayError) -> ViewFailure {
        ViewFailure::Play(error)
    }
}
