//! Failures of the program, and its exit status.
ghost use Rattle.std.specs.Prelude.{◌≡◌};
ghost use Rattle.fr_bench.specs.declared.failure.BenchFailure.TheVariants as failure;
ghost use Rattle.fr_bench.specs.Failures.{status_of};

use fr_cli::error::OrderError;
use fr_files::error::BenchError;
use fr_threads::outcome_error::OutcomeError;
use fr_trace::error::TraceError;
use std::error::Error;
use std::fmt;

/// Reasons why the program hasn't executed its command (project-defined).
///
/// An error prints as the line on standard error.
#[derive(Clone, Copy, Debug, Drop, PartialEq, Eq)]
pub enum BenchFailure {
    /// The words are no command, or an allocation for them failed.
    Words(OrderError),
    /// The trace was rejected, or couldn't be read, or its report couldn't be written.
    Audit(TraceError),
    /// Another input was rejected, or couldn't be read, or the output couldn't be written. Or an allocation for the
    /// buffer of an input failed.
    Text(BenchError),
    /// A run was refused, or failed.
    Run(OutcomeError),
}

impl fmt::Display for BenchFailure {
    ghost use Rattle.std.specs.Prelude.{Some};
    ghost use Rattle.fr_bench.specs.Failures.{failure_text};

    ghost output = { λ failure. Some (failure_text failure) };

    /// Writes the line on standard error, without its line feed.
    fn fmt<W: fmt::Write>(&self, f: &mut fmt::Formatter<W>) -> fmt::Result {
        match self {
            BenchFailure::Words(error) => write!(f, "{error}"),
            BenchFailure::Audit(error) => write!(f, "refused {error}"),
            BenchFailure::Text(error) => write!(f, "refused {error}"),
            BenchFailure::Run(error) => write!(f, "refused {error}"),
        }
    }
}

impl Error for BenchFailure {}

impl BenchFailure {
    /// Returns the program's exit status: 2 for words that are no command, 1 for everything else.
    pub fn status(&self) -> u8
        ensures { result ≡ status_of self.now }
    {
        match self {
            BenchFailure::Words(error) => error.status(),
            BenchFailure::Audit(_) | BenchFailure::Text(_) | BenchFailure::Run(_) => 1,
        }
    }
}

impl From<OrderError> for BenchFailure {
    ghost from_gives = { λ error given. given ≡ failure.Words error };

    fn from(error: OrderError) -> BenchFailure {
        BenchFailure::Words(error)
    }
}

impl From<TraceError> for BenchFailure {
    ghost from_gives = { λ error given. given ≡ failure.Audit error };

    fn from(error: TraceError) -> BenchFailure {
        BenchFailure::Audit(error)
    }
}

impl From<BenchError> for BenchFailure {
    ghost from_gives = { λ error given. given ≡ failure.Text error };

    fn from(error: BenchError) -> BenchFailure {
        BenchFailure::Text(error)
    }
}

impl From<OutcomeError> for BenchFailure {
    ghost from_gives = { λ error given. given ≡ failure.Run error };

    fn from(error: OutcomeError) -> BenchFailure {
        BenchFailure::Run(error)
    }
}
