//! The audit of a recording between a reader and a writer.

ghost use Rattle.std.specs.Prelude.{◌≡◌, ◌<◌, ◌≤◌, false, length, take, IfOk, IfSome, Err};
ghost use Rattle.std.specs.Prelude.{OnOk, option_to_list, [], if◌then◌else◌};
ghost use Rattle.fr_monitoring.specs.FrameText.{last_text};
ghost use Rattle.fr_text.specs.Writing.{Writes};
ghost use Rattle.fr_recording.specs.Stream.{take_bytes, records_from, told_of};
ghost use Rattle.fr_judging.specs.Judging.{judge as state_after};
ghost use Rattle.fr_recording.specs.Records.{Record};
ghost use Rattle.fr_monitoring.specs.LineText.{lines_text};
ghost use Rattle.fr_monitoring.specs.Monitoring.{judged, record_text, told, end_with, Monitors, Follows, Ends};
ghost use Rattle.fr_monitoring.specs.Monitoring.{clock_refusal, IsFollowed};

use crate::error::{MonitorError, StreamError};
use crate::frames::{Waiting, waiting_at, waiting_now, write_frames, write_last};
use crate::line::write_lines;
use crate::summary::write_summary;
use fr_judging::judge::Judge;
use fr_judging::rules::Rules;
use fr_logged::record::kind_of;
use fr_recording::phase::Head;
use fr_recording::reader::Reader;
use fr_slots::channel::Channel;
use std::alloc::{AllocError, Global};
use std::io;
use std::io::{ErrorKind, Read, Write};

/// The number of bytes that are asked for at a time.
const ROOM: usize = 65_536;

/// Judges a record, and writes what it shows.
fn judge_record<W: Write>(
    judge: &mut Judge,
    frames: bool,
    head: &Head,
    bytes: &[u8],
    writer: &mut W,
) -> io::Result<()>
    ensures judge { judge.new ≡ state_after judge.old (record {
      time = head.now.time;
      link = head.now.link;
      original = head.now.original;
      bytes = bytes.now;
    }) }
    ensures text { Writes W.contents writer.old writer.new result (record_text frames judge.old (record {
      time = head.now.time;
      link = head.now.link;
      original = head.now.original;
      bytes = bytes.now;
    })) }
{
    if frames {
        let kind = kind_of(head.link, bytes);
        let waiting = waiting_at(judge, kind);
        judge.judge(head.time, head.link, head.original, bytes);
        write_frames(writer, judge, &waiting, kind, head, bytes)?;
    } else {
        judge.judge(head.time, head.link, head.original, bytes);
    }
    write_lines(writer, judge.lines())
}

/// Judges the record that the last byte completed, if it completed one, and writes what it shows.
fn take_record<W: Write>(
    capture: &Reader,
    judge: &mut Judge,
    frames: bool,
    writer: &mut W,
) -> io::Result<()>
    ensures judge { OnOk result (judge.new ≡ judged judge.old (option_to_list (told_of capture.now))) }
    ensures text { Writes W.contents writer.old writer.new result
        (told frames judge.old (option_to_list (told_of capture.now))) }
{
    match capture.told() {
        Some(head) => judge_record(judge, frames, &head, capture.captured(), writer),
        None => Ok(()),
    }
}

/// Judges the records of a classic file that lie whole at the front of a piece, up to the first one that shows
/// something, and returns the number of their bytes.
///
/// They are read in place. The capture doesn't go on, and would copy each one.
#[inline(never)]
fn judge_whole(capture: &Reader, judge: &mut Judge, piece: &[u8]) -> usize
    ensures within { result ≤ length piece.now }
    ensures judge { judge.new ≡ judged judge.old (records_from capture.now (take result piece.now)) }
    ensures text { 0 < result → lines_text judge.new.lines
        ≡ told false judge.old (records_from capture.now (take result piece.now)) }
{
    let Some(classic) = capture.classic() else {
        return 0;
    };
    let mut taken = 0;
    while let Some(head) = classic.head(&piece[taken..]) {
        let begin = taken + 16;
        taken = begin + classic.captured(head) as usize;
        let time = Some(classic.time(head));
        judge.judge(
            time,
            classic.link,
            classic.original(head),
            &piece[begin..taken],
        );
        if !judge.lines().is_empty() {
            return taken;
        }
    }
    taken
}

/// Judges records at the front of a piece in place, if frames have no lines, and writes what they show. Returns the
/// number of their bytes.
fn take_whole<W: Write>(
    capture: &mut Reader,
    judge: &mut Judge,
    frames: bool,
    piece: &[u8],
    writer: &mut W,
) -> io::Result<usize>
    ensures within { IfOk result (λ taken. taken ≤ length piece.now) }
    ensures followed { IfOk result (λ taken. IsFollowed frames capture.old judge.old capture.new judge.new
        (W.contents writer.old) (W.contents writer.new) (take taken piece.now)) }
{
    if frames {
        return Ok(0);
    }
    let taken = judge_whole(capture, judge, piece);
    if taken == 0 {
        return Ok(0);
    }
    capture.pass(&piece[..taken]);
    write_lines(writer, judge.lines())?;
    Ok(taken)
}

/// Judges the records that a piece completes, one after another, and writes what they show.
fn take_piece<W: Write>(
    capture: &mut Reader,
    judge: &mut Judge,
    frames: bool,
    piece: &[u8],
    writer: &mut W,
) -> io::Result<()>
    ensures capture { OnOk result (capture.new ≡ take_bytes capture.old piece.now) }
    ensures judge { OnOk result (judge.new ≡ judged judge.old (records_from capture.old piece.now)) }
    ensures text { Writes W.contents writer.old writer.new result
        (told frames judge.old (records_from capture.old piece.now)) }
{
    let mut taken = 0;
    while taken < piece.len() {
        taken += capture.next(&piece[taken..]);
        take_record(capture, judge, frames, writer)?;
        taken += take_whole(capture, judge, frames, &piece[taken..], writer)?;
    }
    Ok(())
}

/// Reads a recording through, or up to the piece that has its refusal, and writes what its records show. The writer is
/// flushed before each read.
fn follow<R: Read, W: Write>(
    capture: &mut Reader,
    judge: &mut Judge,
    frames: bool,
    room: &mut [u8],
    reader: &mut R,
    writer: &mut W,
) -> Result<(), StreamError>
    requires { 0 < length room.old }
    ensures { Follows frames capture.old judge.old (R.remaining reader.old) (R.remaining reader.new) capture.new
        judge.new (W.contents writer.old) (W.contents writer.new) result }
{
    // The loop ends with `Read` after 2^64 - 1 reads, so that its termination can be proved.
    'pieces: for _ in 0..u64::MAX {
        if writer.flush().is_err() {
            return Err(StreamError::Write);
        }
        let count = match reader.read(room) {
            Ok(count) => count,
            Err(error) if error.kind() == ErrorKind::Interrupted => continue,
            Err(_) => return Err(StreamError::Read),
        };
        if count == 0 {
            return Ok(());
        }
        if take_piece(capture, judge, frames, &room[..count], writer).is_err() {
            return Err(StreamError::Write);
        }
        if capture.is_refused() {
            return Ok(());
        }
    }
    Err(StreamError::Read)
}

/// Writes the lines of the frames that waited up to the end, if frames have lines.
fn write_waited<W: Write>(
    writer: &mut W,
    judge: &Judge,
    frames: bool,
    a: &Option<Waiting>,
    b: &Option<Waiting>,
) -> io::Result<()>
    ensures { Writes W.contents writer.old writer.new result
        (if frames then last_text a.now b.now judge.now else []) }
{
    if frames {
        write_last(writer, judge, a, b)
    } else {
        Ok(())
    }
}

/// Writes what the end shows, and the summary, and flushes.
fn write_end<W: Write>(
    writer: &mut W,
    judge: &Judge,
    frames: bool,
    a: &Option<Waiting>,
    b: &Option<Waiting>,
    blocks: u64,
) -> io::Result<()>
    ensures { Writes W.contents writer.old writer.new result (end_with frames a.now b.now judge.now blocks) }
{
    write_waited(writer, judge, frames, a, b)?;
    write_lines(writer, judge.lines())?;
    write_summary(writer, judge, blocks)?;
    writer.flush()
}

/// Returns the refusal of a cluster in which a channel has no clock.
fn clock_refusal(rules: &Rules) -> Option<MonitorError>
    ensures { result ≡ clock_refusal rules.now }
{
    if let Some(cycle) = rules.no_clock(Channel::A) {
        return Some(MonitorError::NoClock(Channel::A, cycle));
    }
    match rules.no_clock(Channel::B) {
        Some(cycle) => Some(MonitorError::NoClock(Channel::B, cycle)),
        None => None,
    }
}

/// Returns room for a piece.
fn room_for(alloc: Global) -> Result<Vec<u8>, AllocError>
    ensures { IfOk result (λ room. length room.items ≡ 65536) }
{
    Ok(vec![in alloc; 0; ROOM]?)
}

/// Ends a recording that was read through, or up to a failure, and writes what that shows.
fn end<W: Write>(
    capture: &Reader,
    judge: &mut Judge,
    frames: bool,
    followed: Result<(), StreamError>,
    writer: &mut W,
) -> Result<bool, MonitorError>
    ensures { Ends frames capture.now judge.old followed (W.contents writer.old) (W.contents writer.new) result }
{
    let whole = match followed {
        Ok(()) => true,
        Err(StreamError::Read) => false,
        Err(StreamError::Write) => return Err(MonitorError::Write),
    };
    let refusal = capture.refusal();
    let (a, b) = waiting_now(judge);
    judge.finish(whole && refusal.is_none());
    if write_end(writer, judge, frames, &a, &b, capture.skipped()).is_err() {
        return Err(MonitorError::Write);
    }
    if !whole {
        return Err(MonitorError::Read);
    }
    match refusal {
        Some(refusal) => Err(MonitorError::Capture(refusal)),
        None => Ok(judge.has_finding()),
    }
}

/// Audits a recording: writes a line for each finding as it comes, and a summary (project-defined). Returns whether
/// there is a finding.
///
/// With `frames` each record of a frame has a line, too, before the findings that it shows.
///
/// Refused with `NoClock` if a channel that has a sender has no owner of a static slot in a cycle, and with `Memory` if
/// an allocation fails, both before anything is read. Then with the refusal of the capture, and with `Read` or `Write`
/// if a stream fails. The summary of what was read is written after all of these but `Write`.
pub fn monitor<R: Read, W: Write>(
    alloc: Global,
    rules: Rules,
    frames: bool,
    reader: &mut R,
    writer: &mut W,
) -> Result<bool, MonitorError>
    ensures text { Monitors frames rules (R.remaining reader.old) (R.remaining reader.new)
        (W.contents writer.old) (W.contents writer.new) result }
    // A cluster without a clock is refused.
    ensures clock { IfSome (clock_refusal rules) (λ e. result ≡ Err e) }
{
    if let Some(error) = clock_refusal(&rules) {
        return Err(error);
    }
    let Ok(mut capture) = Reader::new(alloc) else {
        return Err(MonitorError::Memory);
    };
    let Ok(mut judge) = Judge::new(alloc, rules) else {
        return Err(MonitorError::Memory);
    };
    let Ok(mut room) = room_for(alloc) else {
        return Err(MonitorError::Memory);
    };
    let followed = follow(
        &mut capture,
        &mut judge,
        frames,
        room.as_mut_slice(),
        reader,
        writer,
    );
    end(&capture, &mut judge, frames, followed, writer)
}
