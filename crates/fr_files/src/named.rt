//! Files by their names.
use crate::error::BenchError;
use std::rt::Files;
use std::{fs, io};

/// Opens the file of this name, to be read.
///
/// Refused with `Memory` if an allocation fails, otherwise with `Read` if the file can't be opened.
pub fn file_named<R: Files>(rt: &R, path: &str) -> Result<R::File, BenchError> {
    match fs::open(rt, path) {
        Ok(file) => Ok(file),
        Err(error) if error.kind() == io::ErrorKind::OutOfMemory => Err(BenchError::Memory),
        Err(_) => Err(BenchError::Read),
    }
}
