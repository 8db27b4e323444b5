//! A cluster file, read node by node where its form allows that.
ghost use Rattle.fr_files.specs.ClusterFiles.{IsClusterIn, IsClusterOf};
ghost use Rattle.fr_files.specs.Inputs.{ForText};

use crate::nodes::cluster_from_text;
use fr_files::error::BenchError;
use fr_files::input::read_up_to;
use fr_schedule::cluster::Cluster;
use fr_schedule::error::ConfigError;
use std::alloc::Global;
use std::io::Read;
use std::str;

/// The most bytes that a cluster file may have.
const MOST_BYTES: u64 = 1_048_576;

/// Returns the cluster that the bytes of a cluster file describe.
fn cluster_in(alloc: Global, bytes: &[u8]) -> Result<Cluster, BenchError>
    ensures { IsClusterIn bytes.now result }
{
    let Ok(text) = str::from_utf8(bytes) else {
        return Err(BenchError::Config(ConfigError::Toml));
    };
    Ok(cluster_from_text(alloc, text)?)
}

/// Reads a cluster file to its end, and returns the cluster that it describes (project-defined).
///
/// The results are those of `cluster_of` of `fr_files`.
///
/// Refused with `TooLong` for more than 1,048,576 bytes, then with the first fault of the file. A file that isn't UTF-8
/// is refused with `Toml`. `Read` comes if the reader fails, and `Memory` may come if an allocation fails.
pub fn cluster_of<R: Read>(alloc: Global, reader: &mut R) -> Result<Cluster, BenchError>
    ensures { ForText (R.remaining reader.old) (λ text. IsClusterOf text result) }
{
    let bytes = read_up_to(alloc, reader, MOST_BYTES)?;
    cluster_in(alloc, bytes.as_slice())
}
