//! A whole input, up to a limit.
ghost use Rattle.std.specs.Prelude.{◌<◌, ◌^◌, ℕ, List, IfSome};
ghost use Rattle.fr_files.specs.Inputs.{IsReadUpTo};

use crate::error::BenchError;
use std::alloc::Global;
use std::io::{ErrorKind, Read};

/// Returns all bytes that the reader has left, which may be at most `limit` bytes.
///
/// Refused with `Read` if the reader fails, with `Memory` if an allocation fails, and with `TooLong` if there are more
/// bytes. At most one byte above the limit is read.
#[tactic(auto, using(crate::proofs::InputLemmas::whole))]
pub fn read_up_to<R: Read>(alloc: Global, reader: &mut R, limit: u64) -> Result<Vec<u8>, BenchError>
    requires { limit < 2 ^ 32 }
    ensures known { IfSome (R.remaining reader.old) (λ text. IsReadUpTo limit text result) }
    // The same for a reader whose bytes aren't known.
    ensures some { (text : List ℕ) × IsReadUpTo limit text result }
{
    let mut bytes = Vec::new(alloc);
    match reader.take(limit + 1).read_to_end(&mut bytes) {
        Ok(_) if bytes.len() as u64 > limit => Err(BenchError::TooLong),
        Ok(_) => Ok(bytes),
        Err(error) if error.kind() == ErrorKind::OutOfMemory => Err(BenchError::Memory),
        Err(_) => Err(BenchError::Read),
    }
}
