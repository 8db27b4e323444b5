//! `fr_bench midpoint`.
ghost use Rattle.std.specs.Prelude.{OnOk};
ghost use Rattle.std.specs.Io.KnownBytes.{Appends};
ghost use Rattle.fr_commands.specs.Midpoints.{Midpoints, midpoint_line};
ghost use Rattle.fr_files.specs.Inputs.{ForText};

use crate::numbers::numbers_of;
use fr_files::error::BenchError;
use fr_files::input::read_up_to;
use fr_files::output::write_whole;
use fr_midpoint::midpoint::midpoint;
use fr_midpoint::ranks::Midpoint;
use std::alloc::Global;
use std::io::{self, Read, Write};

/// The most bytes that the input may have.
const MOST_BYTES: u64 = 4096;

/// Writes the line of a midpoint with its two ranks, or the line `none`.
fn write_midpoint<W: Write>(writer: &mut W, answer: Option<Midpoint>) -> io::Result<()>
    ensures { OnOk result (Appends (W.contents writer.old) (W.contents writer.new) (midpoint_line answer)) }
{
    match answer {
        None => writeln!(writer, "none"),
        Some(
            Midpoint {
                value,
                low_rank,
                high_rank,
            },
        ) => writeln!(writer, "{value} {low_rank} {high_rank}"),
    }
}

/// Reads numbers to the end and writes their fault-tolerant midpoint (chapter 8).
///
/// The texts are project-defined. The line has the midpoint and the ranks of the two values that it lies between, or is
/// `none`. Numbers are separated by spaces and line feeds. The errors in their order:
///
/// - `TooLong` for more than 4096 bytes;
/// - `BadNumber` for a word that isn't a number;
/// - `TooMany` for more than 15 numbers;
/// - `TooLarge` for a number that is more than 1,000,000 from 0.
///
/// `Read` comes if the reader fails, `Write` if the writer fails, and `Memory` if an allocation fails. Every error but
/// `Write` leaves the writer unchanged.
pub fn midpoint_text<R: Read, W: Write>(
    alloc: Global,
    reader: &mut R,
    writer: &mut W,
) -> Result<(), BenchError>
    ensures { ForText (R.remaining reader.old)
        (λ text. Midpoints text (W.contents writer.old) (W.contents writer.new) result) }
{
    let text = read_up_to(alloc, reader, MOST_BYTES)?;
    let numbers = numbers_of(alloc, text.as_slice())?;
    let answer = midpoint(numbers.as_slice())?;
    let mut line = Vec::new(alloc);
    match write_midpoint(&mut line, answer) {
        Ok(()) => write_whole(writer, line.as_slice()),
        // A list of bytes takes no more only if an allocation fails.
        Err(_) => Err(BenchError::Memory),
    }
}
