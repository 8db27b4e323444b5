//! A whole output, written at once.
ghost use Rattle.std.specs.Prelude.{◌≡◌, IfErr, OnErr, OnOk};
ghost use Rattle.std.specs.Io.KnownBytes.{Appends};
ghost use Rattle.fr_files.specs.declared.error.BenchError.TheVariants as refusal;
ghost use Rattle.fr_files.specs.Outputs.{FallsShort};

use crate::error::BenchError;
use std::io::{self, ErrorKind, Write};

/// Hands the whole text to the writer (project-defined).
///
/// An interrupted call is repeated. Fails with the writer's error, with `WriteZero` if the writer takes no byte, and
/// with `TimedOut` after 2^64 - 1 calls.
///
/// It has the task of `Write::write_all`, whose contract doesn't state what a failing writer has taken.
pub fn write_text<W: Write>(writer: &mut W, text: &[u8]) -> io::Result<()>
    ensures written { OnOk result (Appends (W.contents writer.old) (W.contents writer.new) text.now) }
    ensures cut { OnErr result (FallsShort (W.contents writer.old) (W.contents writer.new) text.now) }
{
    let mut rest = text;
    let mut tries = u64::MAX;
    while !rest.is_empty() {
        if tries == 0 {
            return Err(ErrorKind::TimedOut.into());
        }
        tries -= 1;
        match writer.write(rest) {
            Ok(0) => return Err(ErrorKind::WriteZero.into()),
            Ok(count) => rest = &rest[count..],
            Err(error) => {
                if error.kind() != ErrorKind::Interrupted {
                    return Err(error);
                }
            }
        }
    }
    Ok(())
}

/// Hands the whole text to the writer at once (project-defined).
///
/// So a reader of the output never sees a part of a line.
///
/// Refused with `Write` if the writer fails, which may have taken a front of the text by then.
pub fn write_whole<W: Write>(writer: &mut W, text: &[u8]) -> Result<(), BenchError>
    ensures written { OnOk result (Appends (W.contents writer.old) (W.contents writer.new) text.now) }
    ensures refused { IfErr result (λ e. e ≡ refusal.Write) }
    ensures cut { OnErr result (FallsShort (W.contents writer.old) (W.contents writer.new) text.now) }
{
    match write_text(writer, text) {
        Ok(()) => Ok(()),
        Err(_) => Err(BenchError::Write),
    }
}
