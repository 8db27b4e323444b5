//! Laws of every single-threaded run.
ghost use Rattle.std.specs.Prelude.{ℕ, List};
ghost use Rattle.fr_core.specs.Scripts.{Scripted};
ghost use Rattle.fr_core.specs.Worlds.{opening_world};
ghost use Rattle.fr_playing.specs.declared.play.Played.{Played};
ghost use Rattle.fr_playing.specs.Playing.{IsPlayed};
ghost use Rattle.fr_runs.specs.declared.fault_line.FaultLine.{FaultLine};
ghost use Rattle.fr_schedule.specs.Descriptions.{Description};
ghost use Rattle.fr_playing.specs.Laws.{IsLed};
ghost use Rattle.fr_playing.specs.Settled.{PlayedIsSettled};

// For the prover: the clause is the law.
/// A list of events leads from the opening world to the world of the run (project-defined).
pub fn led_by_events()
    ensures { (d : Description) (scripts : List Scripted) (faults : List FaultLine) (cycles : ℕ) (played : Played)
        → IsPlayed d scripts faults cycles played → IsLed (opening_world d cycles) played.world }
{}

// For the prover: the clause is the law.
/// The run that the list of its events defines is settled: its journals, record and scripts agree, and each fault and
/// each call comes in its window and its cycle (project-defined).
pub fn played_is_settled()
    ensures { PlayedIsSettled }
{}
