//! Laws of the log of commits.
ghost use Rattle.fr_streaming.specs.CommitLaws.{LogHasFates, LogHasSendings, LogIsSpelled};

// For the prover: the clauses are the laws.
/// The log has, of each commit, its fate and its sendings as the view of all commits after a run has them
/// (project-defined).
pub fn log_has_commits()
    ensures spelled { LogIsSpelled }
    ensures fates { LogHasFates }
    ensures sendings { LogHasSendings }
{}
