//! The run of a scenario file.
ghost use Rattle.fr_files.specs.Inputs.{ForText};
ghost use Rattle.fr_playing.specs.Files.{IsPlayOf};

use crate::error::PlayError;
use crate::play::{Played, play};
use fr_names::names::Names;
use fr_outcome::scenario_file::scenario_of;
use fr_scenario::scenario::Scenario;
use fr_schedule::cluster::Cluster;
use std::alloc::Global;
use std::io::Read;

/// A scenario, and the results of a run with it (project-defined).
#[derive(Drop)]
pub struct PlayedFile {
    /// The scenario that the file spells.
    pub scenario: Scenario,
    /// The world and the calls at the end of the run.
    pub played: Played,
}

/// Reads a scenario file to its end, and executes a run of the cluster with it (project-defined). The file may name
/// nodes and buffers by these names.
///
/// It also returns the scenario. Returns the error of the scenario's file, then that of the run (`play`).
#[tactic(auto, using(crate::proofs::FileLemmas::file_refused))]
pub fn play_file<R: Read>(
    alloc: Global,
    cluster: &Cluster,
    names: &Names,
    reader: &mut R,
    cycles: u16,
) -> Result<PlayedFile, PlayError>
    ensures { ForText (R.remaining reader.old) (λ text. IsPlayOf cluster.now names.now cycles text result) }
{
    let scenario = scenario_of(alloc, reader, names, cycles)?;
    let played = play(
        alloc,
        cluster,
        scenario.scripts(),
        scenario.faults(),
        cycles,
    )?;
    Ok(PlayedFile { scenario, played })
}
