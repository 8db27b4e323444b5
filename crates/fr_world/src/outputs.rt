//! The files of a session. They are opened without a change, compared with one another and with the inputs, and emptied
//! once the session begins.

use crate::failure::WorldFailure;
use arrayvec::ArrayVec;
use fr_endless::taps::Tap;
use std::fs::{Metadata, OpenFile, OpenOptions};
use std::io::{BufWriter, ErrorKind, Write};
use std::marker::Model;
use std::os::unix::fs::MetadataExt;
use std::rt::Files;
use std::{fs, io};

/// The cluster file, three standard streams, the record, the capture and 16 traces.
const MOST_FILES: usize = 22;

/// The standard streams, as files. A system without these names tells nothing of them.
const STREAMS: [&str; 3] = ["/dev/stdin", "/dev/stdout", "/dev/stderr"];

/// A regular file of the system, whatever its name.
#[derive(Clone, Copy, Default, PartialEq, Eq)]
struct Identity {
    device: u64,
    number: u64,
}

/// The regular files that a session has for something (project-defined).
#[derive(Drop)]
pub(crate) struct UsedFiles {
    used: ArrayVec<Identity, MOST_FILES>,
}

/// Returns the regular file of these metadata. A terminal, a pipe or a device may serve several purposes.
fn identity_of(metadata: &Metadata) -> Option<Identity> {
    if !metadata.is_file() {
        return None;
    }
    Some(Identity {
        device: metadata.dev(),
        number: metadata.ino(),
    })
}

impl UsedFiles {
    /// Returns the regular files among the standard streams.
    pub(crate) fn standard<R: Files>(rt: &R) -> UsedFiles {
        let mut files = UsedFiles {
            used: ArrayVec::new(),
        };
        for name in STREAMS {
            if let Ok(metadata) = fs::metadata(rt, name) {
                files.note(&metadata);
            }
        }
        files
    }

    /// Notes the file of these metadata. Returns whether it was noted before.
    pub(crate) fn note(&mut self, metadata: &Metadata) -> bool {
        let Some(identity) = identity_of(metadata) else {
            return false;
        };
        if self.used.iter().any(|used| *used == identity) {
            return true;
        }
        // The room is that of all files that a session can have.
        let _left = self.used.try_push(identity);
        false
    }
}

/// A file that is emptied before the first byte is written to it, and by the first flush (project-defined). Contracts
/// see it as the file.
#[derive(Drop)]
pub(crate) struct Output<F> {
    file: F,
    /// True as long as the file has what it had before.
    is_old: bool,
}

impl<F> Model for Output<F> {
    ghost Value = { F };

    ghost view = { λ o. o.file };
}

impl<F: OpenFile> Output<F> {
    ghost use Rattle.std.specs.Prelude.{◌≡◌};

    /// Empties the file, unless that has been done.
    fn empty(&mut self) -> io::Result<()>
        ensures { self.new ≡ self.old }
    {
        if self.is_old {
            self.file.set_len(0)?;
            self.is_old = false;
        }
        Ok(())
    }
}

impl<F: Write + OpenFile> Write for Output<F> {
    ghost contents = { F.contents };

    fn write(&mut self, bytes: &[u8]) -> io::Result<usize> {
        self.empty()?;
        self.file.write(bytes)
    }

    fn flush(&mut self) -> io::Result<()> {
        self.empty()?;
        self.file.flush()
    }
}

/// Returns whether the file has to be emptied, if it is opened for nothing else. Only a regular file can be.
fn is_old<F: OpenFile>(file: &F, used: &mut UsedFiles, tap: Tap) -> Result<bool, WorldFailure> {
    let Ok(metadata) = file.metadata() else {
        return Err(WorldFailure::Tap(tap));
    };
    if used.note(&metadata) {
        return Err(WorldFailure::SameFile(tap));
    }
    Ok(metadata.is_file())
}

/// Opens the file of this name to be written.
///
/// Fails with `Memory` if an allocation fails, otherwise with `Tap` if the file can't be opened, and with `SameFile` if
/// it is in use. The file keeps what it has.
pub(crate) fn output_named<R: Files>(
    rt: &R,
    used: &mut UsedFiles,
    name: &str,
    tap: Tap,
) -> Result<Output<R::File>, WorldFailure> {
    let mut how = OpenOptions::new();
    how.write(true).create(true);
    match how.open(rt, name) {
        Ok(file) => {
            let is_old = is_old(&file, used, tap)?;
            Ok(Output { file, is_old })
        }
        Err(error) if error.kind() == ErrorKind::OutOfMemory => Err(WorldFailure::Memory),
        Err(_) => Err(WorldFailure::Tap(tap)),
    }
}
