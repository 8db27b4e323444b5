//! Streams that wait where they would block. Another program can make a shared terminal or pipe non-blocking; a call
//! that would block is then repeated.

use std::io::{ErrorKind, Read, Write};
use std::marker::Model;
use std::time::{Clock, Duration};
use std::{io, thread};

// The kit has no `poll`, so a call to a non-blocking stream is repeated after a pause.
/// The pause before a call is repeated, in milliseconds.
const PAUSE: u64 = 1;

/// A writer over another writer, which waits where that one would block. Contracts see it as the other one.
#[derive(Drop)]
pub struct WaitingWriter<'a, C: Clock, W: Write> {
    clock: &'a C,
    writer: W,
}

impl<'a, C: Clock, W: Write> Model for WaitingWriter<'a, C, W> {
    ghost Value = { W };

    ghost view = { λ w. w.writer };
}

impl<'a, C: Clock, W: Write> WaitingWriter<'a, C, W> {
    ghost use Rattle.std.specs.Prelude.{◌≡◌};

    /// Returns a writer to `writer` that sleeps by the clock where it would block.
    pub fn new(clock: &'a C, writer: W) -> WaitingWriter<'a, C, W>
        ensures { result ≡ writer }
    {
        WaitingWriter { clock, writer }
    }
}

impl<C: Clock, W: Write> Write for WaitingWriter<'_, C, W> {
    ghost contents = { W.contents };

    fn write(&mut self, bytes: &[u8]) -> io::Result<usize> {
        for _ in 0..u64::MAX {
            match self.writer.write(bytes) {
                Err(error) if error.kind() == ErrorKind::WouldBlock => {}
                answer => return answer,
            }
            thread::sleep(self.clock, Duration::from_millis(PAUSE));
        }
        Err(ErrorKind::WouldBlock.into())
    }

    fn flush(&mut self) -> io::Result<()> {
        for _ in 0..u64::MAX {
            match self.writer.flush() {
                Err(error) if error.kind() == ErrorKind::WouldBlock => {}
                answer => return answer,
            }
            thread::sleep(self.clock, Duration::from_millis(PAUSE));
        }
        Err(ErrorKind::WouldBlock.into())
    }
}

/// A reader over another reader, which waits where that one would block. Contracts see it as the other one.
#[derive(Drop)]
pub struct WaitingReader<'a, C: Clock, R: Read> {
    clock: &'a C,
    reader: R,
}

impl<'a, C: Clock, R: Read> Model for WaitingReader<'a, C, R> {
    ghost Value = { R };

    ghost view = { λ r. r.reader };
}

impl<'a, C: Clock, R: Read> WaitingReader<'a, C, R> {
    ghost use Rattle.std.specs.Prelude.{◌≡◌};

    /// Returns a reader of `reader` that sleeps by the clock where it would block.
    pub fn new(clock: &'a C, reader: R) -> WaitingReader<'a, C, R>
        ensures { result ≡ reader }
    {
        WaitingReader { clock, reader }
    }
}

impl<C: Clock, R: Read> Read for WaitingReader<'_, C, R> {
    ghost remaining = { R.remaining };

    fn read(&mut self, bytes: &mut [u8]) -> io::Result<usize> {
        for _ in 0..u64::MAX {
            match self.reader.read(bytes) {
                Err(error) if error.kind() == ErrorKind::WouldBlock => {}
                answer => return answer,
            }
            thread::sleep(self.clock, Duration::from_millis(PAUSE));
        }
        Err(ErrorKind::WouldBlock.into())
    }
}
