//! A reply that is prepared in memory. It is handed to the writer of the session once it is whole.
ghost use Rattle.std.specs.Prelude.{◌≡◌};
ghost use Rattle.fr_session.specs.Cuts.{Hands};

use std::alloc::{AllocError, Global};
use std::io;
use std::io::{ErrorKind, Write};
use std::marker::Model;

/// The number of bytes that a session reserves at its start. Each reply of one line fits.
const LINE_ROOM: usize = 1024;

/// A writer that gets the lines of a block.
pub trait BlockWriter: Write {
    ghost use Rattle.std.specs.Prelude.{OnOk};
    ghost use Rattle.std.specs.Io.KnownBytes.{Appends};

    /// Appends the lines of a block.
    fn append_block(&mut self, block: Vec<u8>) -> io::Result<()>
        ensures { OnOk result (Appends (Self.contents self.old) (Self.contents self.new) block.items) };
}

/// Hands the text to the writer. If the writer fails, it has got a front of the text.
///
/// An interrupted write is repeated. Fails with the writer's error, with `WriteZero` if the writer takes nothing, and
/// with `TimedOut` after 2^64 - 1 writes.
pub fn hand_on<W: Write>(writer: &mut W, text: &[u8]) -> io::Result<()>
    ensures { Hands W.contents writer.old writer.new result text.now }
{
    let mut count = 0;
    // `write_all` does the same, but doesn't say what it wrote before a failure.
    for _ in 0..u64::MAX {
        if count == text.len() {
            return Ok(());
        }
        match writer.write(&text[count..]) {
            Ok(0) => return Err(ErrorKind::WriteZero.into()),
            Ok(more) => count += more,
            Err(error) if error.kind() == ErrorKind::Interrupted => {}
            Err(error) => return Err(error),
        }
    }
    Err(ErrorKind::TimedOut.into())
}

/// A reply in memory: its first line, and the lines of a block after it. In contracts, this is the list of its bytes.
#[derive(Drop)]
pub struct Prepared {
    line: Vec<u8>,
    /// A block that was moved here, since a copy of a trace takes much memory.
    block: Vec<u8>,
}

impl Model for Prepared {
    ghost use Rattle.std.specs.Prelude.{◌++◌, ℕ, List};

    ghost Value = { List ℕ };

    ghost view = { λ p. p.line.items ++ p.block.items };
}

impl Write for Prepared {
    ghost use Rattle.std.specs.Prelude.{Some};

    ghost contents = { λ p. Some p };

    fn write(&mut self, bytes: &[u8]) -> io::Result<usize> {
        if self.block.is_empty() {
            self.line.write(bytes)
        } else {
            self.block.write(bytes)
        }
    }

    fn flush(&mut self) -> io::Result<()> {
        Ok(())
    }
}

impl BlockWriter for Prepared {
    fn append_block(&mut self, block: Vec<u8>) -> io::Result<()> {
        if self.block.is_empty() {
            self.block = block;
            Ok(())
        } else {
            self.block.write_all(block.as_slice())
        }
    }
}

impl Prepared {
    ghost use Rattle.std.specs.Prelude.{◌≡◌, [], IfOk};
    ghost use Rattle.fr_session.specs.Cuts.{Hands};

    /// Returns an empty reply, with room for one line. Fails if the allocation does.
    pub fn new(alloc: Global) -> Result<Prepared, AllocError>
        ensures { IfOk result (λ p. p ≡ []) }
    {
        let line = Vec::with_capacity(alloc, LINE_ROOM)?;
        let block = Vec::new(alloc);
        Ok(Prepared { line, block })
    }

    /// Forgets the reply. The room for one line stays.
    pub fn clear(&mut self, alloc: Global)
        ensures { self.new ≡ [] }
    {
        self.line.clear();
        if !self.block.is_empty() {
            self.block = Vec::new(alloc);
        }
    }

    /// Hands the reply to the writer.
    fn hand_to<W: Write>(&self, writer: &mut W) -> io::Result<()>
        ensures { Hands W.contents writer.old writer.new result self.now }
    {
        hand_on(writer, self.line.as_slice())?;
        hand_on(writer, self.block.as_slice())
    }

    /// Hands the reply to the writer, forgets it, and flushes the writer. If one of both fails, the writer has got a
    /// front of the reply.
    pub fn send<W: Write>(&mut self, alloc: Global, writer: &mut W) -> io::Result<()>
        ensures { Hands W.contents writer.old writer.new result self.old }
    {
        let handed = self.hand_to(writer);
        self.clear(alloc);
        handed?;
        writer.flush()
    }
}
