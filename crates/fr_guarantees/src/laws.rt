//! The laws of this crate. Each is the clause of a function without code.
ghost use Rattle.fr_core.specs.Headline.{Headline};
ghost use Rattle.fr_core.specs.Worlds.{WorldState};
ghost use Rattle.fr_guarantees.specs.Chances.{AreOffered};
ghost use Rattle.fr_guarantees.specs.Delays.{AreAllReached, AreReached, IsEachWorstReached, IsWorstReached};
ghost use Rattle.fr_guarantees.specs.Exactness.{AreRealized};
ghost use Rattle.fr_guarantees.specs.Guarantees.{Guarantees, TableHolds};
ghost use Rattle.fr_schedule.specs.Clusters.{IsCluster};
ghost use Rattle.fr_schedule.specs.Descriptions.{Description};

// For the prover: the clause is the law.
/// What the schedule guarantees holds in each world with the headline promise (project-defined).
pub fn guarantees_hold()
    ensures { (w : WorldState) → Headline w → Guarantees w }
{}

// For the prover: the clause is the law.
/// In each world with the headline promise the table of latencies holds (project-defined).
pub fn table_holds()
    ensures { (w : WorldState) → Headline w → TableHolds w }
{}

// For the prover: the clause is the law.
/// Wherever the definition of `fr_latency` lets a dynamic slot open, some run opens it (project-defined).
pub fn all_realized()
    ensures { (d : Description) → IsCluster d → AreRealized d }
{}

// For the prover: the clause is the law.
/// In each cycle in which a dynamic buffer is possible, some run offers its commit (project-defined).
pub fn all_offered()
    ensures { (d : Description) → IsCluster d → AreOffered d }
{}

// For the prover: the clause is the law.
/// From each guaranteed cycle of a transmit buffer some run has the worst wait (project-defined).
pub fn each_reached()
    ensures { (d : Description) → IsCluster d → AreAllReached d }
{}

// For the prover: the clause is the law.
/// The same of a buffer that is guaranteed in all its cycles, with less room (project-defined).
pub fn all_reached()
    ensures { (d : Description) → IsCluster d → AreReached d }
{}

// For the prover: the clause is the law.
/// Each worst latency of the table is that of some run (project-defined).
pub fn each_worst_reached()
    ensures { (d : Description) → IsCluster d → IsEachWorstReached d }
{}

// For the prover: the clause is the law.
/// The same of a buffer that the table calls guaranteed, with less room (project-defined).
pub fn worst_reached()
    ensures { (d : Description) → IsCluster d → IsWorstReached d }
{}
