//! A scenario file, read as a scenario.
ghost use Rattle.fr_files.specs.Inputs.{ForText};
ghost use Rattle.fr_outcome.specs.ScenarioFiles.{IsScenarioIn, IsScenarioOf};

use crate::file_error::FileError;
use fr_files::input::read_up_to;
use fr_names::names::Names;
use fr_scenario::error::ScenarioError;
use fr_scenario::scenario::Scenario;
use std::alloc::Global;
use std::io::Read;
use std::str;

/// The largest number of bytes of a scenario file.
const MOST_BYTES: u64 = 1_048_576;

/// Returns the scenario that the bytes of a scenario file spell.
#[tactic(auto, using(crate::proofs::FileLemmas::refused_as))]
fn scenario_in(
    alloc: Global,
    bytes: &[u8],
    names: &Names,
    cycles: u16,
) -> Result<Scenario, FileError>
    ensures { IsScenarioIn names.now cycles bytes.now result }
{
    let Ok(text) = str::from_utf8(bytes) else {
        return Err(FileError::Scenario(ScenarioError::BadMagic));
    };
    match Scenario::for_run(alloc, text, names, cycles) {
        Ok(scenario) => Ok(scenario),
        Err(error) => Err(FileError::Scenario(error)),
    }
}

// Callers read the cluster first. If the cluster is rejected, the scenario isn't opened.
/// Reads a scenario file to its end, for a cluster with these names and a run of so many cycles (project-defined).
///
/// Returns `TooLong` for more than 1,048,576 bytes, and otherwise the error of a text that is no scenario. A text that
/// isn't UTF-8 gives `BadMagic`. Returns `Read` if the reader fails, and `Memory` if an allocation fails.
#[tactic(auto, using(crate::proofs::FileLemmas::read_in))]
pub fn scenario_of<R: Read>(
    alloc: Global,
    reader: &mut R,
    names: &Names,
    cycles: u16,
) -> Result<Scenario, FileError>
    ensures { ForText (R.remaining reader.old) (λ text. IsScenarioOf names.now cycles text result) }
{
    let bytes = read_up_to(alloc, reader, MOST_BYTES)?;
    scenario_in(alloc, bytes.as_slice(), names, cycles)
}
