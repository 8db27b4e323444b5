//! The first bytes of a text, which have its version, and the rest of it.

ghost use Rattle.std.specs.Prelude.{◌≡◌, ◌≤◌, length, ℕ, Bool, List, Option, IfOk, OnErr};
ghost use Rattle.std.specs.Io.KnownBytes.{Consumes, Keeps};
ghost use Rattle.fr_bench.specs.Reading.{FeedsNext, ReadsBy, SoFar};
ghost use Rattle.fr_bench.specs.Versions.{Heads, is_later, is_open};

use arrayvec::ArrayVec;
use fr_auditing::auditor::KeptAuditor;
use fr_interface::interface::LiveInterface;
use fr_trace::error::TraceError;
use std::alloc::Global;
use std::io;
use std::io::{BufRead, ErrorKind, Read};

/// The most bytes that are fed at a time, and the room of a head.
const ROOM: usize = 4096;

/// The number of bytes that are asked for at a time before the version is known. A front of the first line has at most
/// 9 bytes, so a head has less than `ROOM`.
const FIRST: usize = 4086;

/// Returns whether the text is of version 4.
pub(crate) fn is_later(text: &[u8]) -> bool
    ensures { result ≡ is_later text.now }
{
    text.starts_with(b"frtrace 4\n".as_slice())
}

/// Returns whether the bytes are a front of the first line of version 4, without its line feed.
fn is_open(bytes: &[u8]) -> bool
    ensures { result ≡ is_open bytes.now }
{
    bytes.len() < 10 && b"frtrace 4\n".as_slice().starts_with(bytes)
}

/// Returns the head of the reader's text. It repeats an interrupted read.
pub(crate) fn head_of<R: Read>(reader: &mut R) -> Result<ArrayVec<u8, ROOM>, TraceError>
    ensures { Heads (R.remaining reader.old) (R.remaining reader.new) result }
{
    let mut head = ArrayVec::<u8, ROOM>::new();
    let mut room = [0u8; FIRST];
    // The loop ends with `Read` after 2^64 - 1 reads, so that its termination can be proved.
    'pieces: for _ in 0..u64::MAX {
        let count = match reader.read(&mut room) {
            Ok(count) => count,
            Err(error) if error.kind() == ErrorKind::Interrupted => continue,
            Err(_) => return Err(TraceError::Read),
        };
        if count == 0 {
            return Ok(head);
        }
        let _ = head.try_extend_from_slice(&room[..count]);
        let open = is_open(head.as_slice());
        if !open {
            return Ok(head);
        }
    }
    Err(TraceError::Read)
}

/// Feeds the next bytes of the reader, at most `ROOM`, and then takes them.
///
/// Returns the answer of the auditor, or `None` at the reader's end. The bytes are fed where the reader has them, and
/// none after them is taken.
fn feed_next<R: BufRead>(
    auditor: &mut KeptAuditor,
    reader: &mut R,
) -> io::Result<Option<Result<(), TraceError>>>
    ensures fed { IfOk result (λ fed. FeedsNext fed (R.remaining reader.old) (R.remaining reader.new)
        auditor.old auditor.new) }
    ensures kept { OnErr result (Keeps (R.remaining reader.old) (R.remaining reader.new)) }
    ensures same { OnErr result (auditor.new ≡ auditor.old) }
{
    let shown = reader.fill_buf()?;
    if shown.is_empty() {
        return Ok(None);
    }
    let count = shown.len().min(ROOM);
    let fed = auditor.feed(&shown[..count]);
    reader.consume(count);
    Ok(Some(fed))
}

/// Returns the interface that the rest of a text leaves. It stops reading at an error, and repeats an
/// interrupted read.
fn rest_of<R: BufRead>(
    mut auditor: KeptAuditor,
    reader: &mut R,
) -> Result<LiveInterface, TraceError>
    ensures { (later : Bool) (text : Option (List ℕ)) → SoFar later text (R.remaining reader.old) auditor
        → ReadsBy later text (R.remaining reader.new) result }
{
    // The loop ends with `Read` after 2^64 - 1 pieces and interrupted reads, so that its termination can be proved.
    'pieces: for _ in 0..u64::MAX {
        match feed_next(&mut auditor, reader) {
            Ok(Some(Ok(()))) => {}
            Ok(Some(Err(fault))) => return Err(fault),
            Ok(None) => return auditor.finish(),
            Err(error) if error.kind() == ErrorKind::Interrupted => {}
            Err(_) => return Err(TraceError::Read),
        }
    }
    Err(TraceError::Read)
}

/// Returns the interface that the reader's bytes leave after this head of their text, which is of version 4 if `later`.
pub(crate) fn read_text<R: BufRead>(
    alloc: Global,
    later: bool,
    head: &[u8],
    reader: &mut R,
) -> Result<LiveInterface, TraceError>
    requires { length head.now ≤ 4096 }
    ensures { (text : Option (List ℕ)) → Consumes text (R.remaining reader.old) head.now
        → ReadsBy later text (R.remaining reader.new) result }
{
    let mut auditor = KeptAuditor::new(alloc, later);
    let fed = auditor.feed(head);
    if let Err(fault) = fed {
        return Err(fault);
    }
    rest_of(auditor, reader)
}
