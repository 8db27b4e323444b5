//! A cluster file, read as a cluster and its names.

ghost use Rattle.std.specs.Prelude.{◌≡◌, IfOk};
ghost use Rattle.fr_files.specs.Inputs.{ForText};
ghost use Rattle.fr_names.specs.FileNames.{names_in};
ghost use Rattle.fr_names.specs.NamedFiles.{IsClusterAt, IsNamedClusterIn, IsNamedClusterOf, cluster_part};
ghost use Rattle.toml.specs.View.{table_view};

use crate::names::Names;
use fr_files::error::BenchError;
use fr_files::input::read_up_to;
use fr_schedule::cluster::{Cluster, table_of};
use fr_schedule::error::ConfigError;
use std::alloc::Global;
use std::io::Read;
use std::{mem, str};
use toml::Table;

/// The most bytes that a cluster file may have.
const MOST_BYTES: u64 = 1_048_576;

/// Returns the cluster in the table of a cluster file, and its names.
fn named_cluster_at(alloc: Global, root: &Table) -> Result<(Cluster, Names), BenchError>
    ensures cluster { IsClusterAt (table_view root.now) (cluster_part result) }
    ensures names { IfOk result (λ named. named.1 ≡ names_in (table_view root.now)) }
{
    let cluster = Cluster::from_table(alloc, root)?;
    match Names::from_table(alloc, root) {
        Ok(names) => Ok((cluster, names)),
        Err(_) => Err(BenchError::Memory),
    }
}

/// Returns the cluster that the bytes of a cluster file describe, and its names.
fn named_cluster_in(alloc: Global, bytes: &[u8]) -> Result<(Cluster, Names), BenchError>
    ensures { IsNamedClusterIn bytes.now result }
{
    let Ok(text) = str::from_utf8(bytes) else {
        return Err(BenchError::Config(ConfigError::Toml));
    };
    let root = table_of(alloc, text)?;
    let named = named_cluster_at(alloc, &root);
    // The table isn't freed, since freeing it takes a tenth of the time of reading it.
    mem::forget(root);
    named
}

/// Reads a cluster file to its end, and returns the cluster that it describes and the names of its nodes and buffers
/// (project-defined).
///
/// Refused with `TooLong` for more than 1,048,576 bytes, then with the first fault of the file. A file that isn't UTF-8
/// is refused with `Toml`. `Read` comes if the reader fails, and `Memory` if an allocation fails. Names refuse no file.
pub fn named_cluster_of<R: Read>(
    alloc: Global,
    reader: &mut R,
) -> Result<(Cluster, Names), BenchError>
    ensures { ForText (R.remaining reader.old) (λ text. IsNamedClusterOf text result) }
{
    let bytes = read_up_to(alloc, reader, MOST_BYTES)?;
    named_cluster_in(alloc, bytes.as_slice())
}
