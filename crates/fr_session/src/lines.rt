//! The lines of a reader, one after another.
ghost use Rattle.std.specs.Prelude.{◌≡◌, ◌++◌, IfOk, OnErr};
ghost use Rattle.std.specs.Io.KnownBytes.{Keeps};
ghost use Rattle.fr_session.specs.Lines.{line_front, TakesPart, TakesPiece, ComesFront};

use arrayvec::ArrayVec;
use memchr::memchr;
use std::io;
use std::io::{BufRead, ErrorKind};

/// The longest line, without its line feed (project-defined).
pub const LONGEST_LINE: usize = 1200;

/// The number of bytes of a line that are kept: one more than it may have, so that a longer one shows.
const FRONT: usize = LONGEST_LINE + 1;

/// The front of a line.
pub type Line = ArrayVec<u8, FRONT>;

/// The part of a line that a reader had next.
#[derive(Clone, Copy, PartialEq, Eq)]
enum Piece {
    /// Its end, with the line feed.
    Last,
    /// Bytes of it, after which more can come.
    Part,
    /// Nothing: the reader has come to its end.
    Nothing,
}

/// Appends those of the bytes for which there is room.
fn keep(line: &mut Line, more: &[u8])
    ensures { line.new.items ≡ line_front (line.old.items ++ more.now) }
{
    let room = line.remaining_capacity();
    let fits = more.len().min(room);
    let outcome = line.try_extend_from_slice(&more[..fits]);
    let is_kept = outcome.is_ok();
    prove!(is_kept);
}

/// Takes the bytes that the reader has, with the next line feed, and keeps the line's front.
fn take_piece<R: BufRead>(reader: &mut R, line: &mut Line) -> io::Result<Piece>
    ensures taken { IfOk result (λ piece. TakesPiece piece (R.remaining reader.old) (R.remaining reader.new)
        line.old.items line.new.items) }
    ensures kept { OnErr result (Keeps (R.remaining reader.old) (R.remaining reader.new)) }
    ensures same { OnErr result (line.new.items ≡ line.old.items) }
{
    let shown = reader.fill_buf()?;
    if shown.is_empty() {
        return Ok(Piece::Nothing);
    }
    match memchr(b'\n', shown) {
        Some(at) => {
            keep(line, &shown[..at]);
            reader.consume(at + 1);
            Ok(Piece::Last)
        }
        None => {
            let count = shown.len();
            keep(line, shown);
            reader.consume(count);
            Ok(Piece::Part)
        }
    }
}

/// Takes the next line from the reader, with its line feed, and keeps its front.
///
/// The front replaces that of the line before. Returns whether there was a whole line. An interrupted read is repeated.
/// If the reader fails, bytes of the line are taken, and not its line feed.
pub fn next_line<R: BufRead>(reader: &mut R, line: &mut Line) -> io::Result<bool>
    ensures comes { IfOk result (λ more. ComesFront more (R.remaining reader.old) (R.remaining reader.new)
        line.new.items) }
    ensures part { OnErr result (TakesPart (R.remaining reader.old) (R.remaining reader.new)) }
{
    // A longer line is read to its end and not kept, so the session continues with the next.
    line.clear();
    for _ in 0..u64::MAX {
        match take_piece(reader, line) {
            Ok(Piece::Last) => return Ok(true),
            Ok(Piece::Part) => {}
            Ok(Piece::Nothing) => return Ok(false),
            Err(error) if error.kind() == ErrorKind::Interrupted => {}
            Err(error) => return Err(error),
        }
    }
    Err(ErrorKind::Other.into())
}
