//! `fr_bench check`.
ghost use Rattle.fr_commands.specs.Checks.{Checks};
ghost use Rattle.fr_files.specs.Inputs.{ForText};

use fr_files::error::BenchError;
use fr_files::output::write_whole;
use fr_lines::writing::write_params;
use fr_reader::cluster_file::cluster_of;
use std::alloc::Global;
use std::io::{Read, Write};

/// Reads a cluster file to its end and writes the line of its parameters (project-defined).
///
/// A trace has the same line. The whole file is compared with the rules. Refused with `TooLong` for more than 1,048,576
/// bytes, and then with the file's first fault. `Read` comes if the reader fails, `Write` if the writer fails, and
/// `Memory` may come if an allocation fails. Every error but `Write` leaves the writer unchanged.
pub fn check_text<R: Read, W: Write>(
    alloc: Global,
    reader: &mut R,
    writer: &mut W,
) -> Result<(), BenchError>
    ensures { ForText (R.remaining reader.old)
        (λ text. Checks text (W.contents writer.old) (W.contents writer.new) result) }
{
    let cluster = cluster_of(alloc, reader)?;
    let mut line = Vec::new(alloc);
    match write_params(&mut line, cluster.params()) {
        Ok(()) => write_whole(writer, line.as_slice()),
        // A list of bytes takes no more only if an allocation fails.
        Err(_) => Err(BenchError::Memory),
    }
}
