//! The text of a trace, kept whole.
ghost use Rattle.std.specs.Prelude.{◌≡◌, ◌⊎◌, IfErr, IfSome};
ghost use Rattle.fr_why.specs.Explains.{IsKept};

use fr_trace::error::TraceError;
use std::alloc::Global;
use std::io::{ErrorKind, Read};

/// The number of bytes that are kept of a text. It is larger than that of any accepted text: 82,054 lines of 1200 bytes
/// with their line feeds, and a further line.
const MOST_KEPT: u64 = 98_548_055;

/// Returns all bytes that the reader has left, but at most `MOST_KEPT`.
///
/// Returns `Read` if the reader fails, and `Memory` if an allocation fails.
pub(crate) fn kept_of<R: Read>(alloc: Global, reader: &mut R) -> Result<Vec<u8>, TraceError>
    ensures known { IfSome (R.remaining reader.old) (λ text. IsKept text result) }
    ensures refused { IfErr result (λ e. (e ≡ TraceError.Read) ⊎ (e ≡ TraceError.Memory)) }
{
    let mut bytes = Vec::new(alloc);
    match reader.take(MOST_KEPT).read_to_end(&mut bytes) {
        Ok(_) => Ok(bytes),
        Err(error) if error.kind() == ErrorKind::OutOfMemory => Err(TraceError::Memory),
        Err(_) => Err(TraceError::Read),
    }
}
