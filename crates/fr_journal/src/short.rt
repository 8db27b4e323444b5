//! Entries in short form: the numbers of an entry, and the place of its bytes in a pool.

ghost use Rattle.std.specs.Prelude.{◌≡◌, ◌+◌, ◌<◌, ◌≤◌, ◌^◌, ◌++◌, length, vec_capacity, IsTrue, false, Some, IfSome};
ghost use Rattle.fr_frame.specs.Payload.{most_payload_bytes, most_frame_bytes};
ghost use Rattle.fr_journal.specs.Entries.{is_host};
ghost use Rattle.fr_journal.specs.Lent.{whole, HasPayload};
ghost use Rattle.fr_journal.specs.Marks.{last_mark, fetched_at, mark_at};
ghost use Rattle.fr_journal.specs.Shortened.{bytes_at, restored_seen, restored, bytes_in_seen, most_seen_bytes};
ghost use Rattle.fr_journal.specs.Shortened.{IsShortSeen, IsShort, IsShortened};
ghost use Rattle.fr_journal.specs.declared.entry.Entry.TheVariants as entries;
ghost use Rattle.fr_status.specs.Forms.{whole_seen};

use crate::entry::{Entry, Offered, Origin};
use crate::lent::{LentEntry, payload_of};
use fr_frame::frame::Bytes;
use fr_frame::payload::Payload;
use fr_slots::numbers::TaskId;
use fr_slots::window::Window;
use fr_status::seen::{LentSeen, Seen};

/// The place of some bytes in a pool.
#[derive(Clone, Copy)]
pub(crate) struct Stretch {
    /// The place of the first byte.
    pub start: u32,
    /// The place after the last byte.
    pub end: u32,
}

/// An observation, with its bytes in a pool.
pub(crate) type ShortSeen = Seen<Stretch>;

/// An entry, with its bytes in a pool.
pub(crate) type ShortEntry = Entry<Stretch, ShortSeen, Marked>;

// The mark saves a search back to the fetch of the window: 16,384 reads took 64 ms by that search, and take 4.5 ms by
// the mark. A fetch needs as many bytes, so the mark makes no entry longer.
/// The number of an observed window, and the place of the mark before the observe.
#[derive(Clone, Copy)]
pub(crate) struct Marked {
    /// The number of the window.
    pub number: u32,
    /// The place of the last fetch or observe before the entry, or 0 if there is none.
    pub last_mark: u32,
}

impl ShortEntry {
    ghost use Rattle.std.specs.Prelude.{◌≡◌};
    ghost use Rattle.fr_journal.specs.Marks.{fetched_window, last_mark};

    /// Returns the window that the entry fetched, if it is a fetch.
    fn fetched_window(&self) -> Option<Window>
        ensures { result ≡ fetched_window self.now }
    {
        match self {
            ShortEntry::Fetch { window, .. } => Some(*window),
            ShortEntry::Commit { .. }
            | ShortEntry::Withdraw { .. }
            | ShortEntry::Read { .. }
            | ShortEntry::Pop { .. }
            | ShortEntry::Observe { .. } => None,
        }
    }

    /// Returns the place of the last fetch or observe before the entry, if the entry is an observe.
    ///
    /// The place is 0 if there is no fetch or observe before it.
    fn last_mark(&self) -> Option<u32>
        ensures { result ≡ last_mark self.now }
    {
        match self {
            ShortEntry::Observe { window, .. } => Some(window.last_mark),
            ShortEntry::Commit { .. }
            | ShortEntry::Withdraw { .. }
            | ShortEntry::Read { .. }
            | ShortEntry::Pop { .. }
            | ShortEntry::Fetch { .. } => None,
        }
    }
}

/// Returns the window that the entry at this place fetched, if a fetch is there.
pub(crate) fn fetched_at(shorts: &[ShortEntry], place: u32) -> Option<Window>
    ensures { result ≡ fetched_at shorts.now place }
{
    shorts.get(place as usize)?.fetched_window()
}

/// Returns the place of the last fetch or observe before this place, if an observe is there.
///
/// The result is 0 if there is no fetch or observe before it.
pub(crate) fn mark_at(shorts: &[ShortEntry], place: u32) -> Option<u32>
    ensures { result ≡ mark_at shorts.now place }
{
    shorts.get(place as usize)?.last_mark()
}

/// Appends the bytes to the pool, in the reserved room, and returns their place.
#[inline(never)]
fn kept_bytes(pool: &mut Vec<u8>, bytes: &[u8]) -> Stretch
    requires room { length pool.old.items + length bytes.now ≤ vec_capacity pool.old }
    requires few { length pool.old.items + length bytes.now < 2 ^ 32 }
    ensures place { result ≡ record {
      start = length pool.old.items;
      end = length pool.old.items + length bytes.now;
    } }
    ensures pool { pool.new.items ≡ pool.old.items ++ bytes.now }
    ensures room { vec_capacity pool.old ≤ vec_capacity pool.new }
{
    let start = pool.len();
    let outcome = pool.extend_from_slice(bytes);
    let fits = outcome.is_ok();
    prove!(fits);
    Stretch {
        start: start as u32,
        end: (start + bytes.len()) as u32,
    }
}

/// Returns the observation in short form, and appends its bytes to the pool.
#[inline(always)]
fn shortened_seen(pool: &mut Vec<u8>, seen: &Seen) -> ShortSeen
    requires room { length pool.old.items + most_frame_bytes ≤ vec_capacity pool.old }
    requires few { length pool.old.items + most_frame_bytes < 2 ^ 32 }
    ensures seen { restored_seen pool.new.items result ≡ seen.now }
    ensures within { IsShortSeen (length pool.new.items) result }
    ensures pool { pool.new.items ≡ pool.old.items ++ bytes_in_seen seen.now }
    ensures few { length (bytes_in_seen seen.now) ≤ most_frame_bytes }
    ensures room { vec_capacity pool.old ≤ vec_capacity pool.new }
{
    match seen {
        Seen::Silence => ShortSeen::Silence,
        Seen::Own => ShortSeen::Own,
        Seen::Conflict => ShortSeen::Conflict,
        Seen::Noise => ShortSeen::Noise,
        Seen::Overrun => ShortSeen::Overrun,
        Seen::Bytes(bytes) => ShortSeen::Bytes(kept_bytes(pool, bytes.as_slice())),
    }
}

/// Returns a commit in short form, and appends its payload to the pool.
pub(crate) fn shortened_commit(
    pool: &mut Vec<u8>,
    task: TaskId,
    buffer: u8,
    payload: &Payload,
) -> ShortEntry
    requires room { length pool.old.items + most_payload_bytes ≤ vec_capacity pool.old }
    requires few { length pool.old.items + most_payload_bytes < 2 ^ 32 }
    ensures entry { IsShortened pool.old.items pool.new.items most_payload_bytes result
        (entries.Commit task buffer payload.now) }
    ensures room { vec_capacity pool.old ≤ vec_capacity pool.new }
{
    ShortEntry::Commit {
        task,
        buffer,
        payload: kept_bytes(pool, payload.as_slice()),
    }
}

/// Returns an observe in short form, and appends its bytes to the pool.
///
/// `mark` is the place of the last fetch or observe before it, or 0 if there is none.
#[inline(always)]
pub(crate) fn shortened_observe(
    pool: &mut Vec<u8>,
    mark: u32,
    window: u32,
    a: &Seen,
    b: &Seen,
) -> ShortEntry
    requires room { length pool.old.items + most_seen_bytes ≤ vec_capacity pool.old }
    requires few { length pool.old.items + most_seen_bytes < 2 ^ 32 }
    ensures entry { IsShortened pool.old.items pool.new.items most_seen_bytes result
        (entries.Observe window a.now b.now) }
    ensures mark { last_mark result ≡ Some mark }
    ensures room { vec_capacity pool.old ≤ vec_capacity pool.new }
{
    let a = shortened_seen(pool, a);
    let b = shortened_seen(pool, b);
    let window = Marked {
        number: window,
        last_mark: mark,
    };
    ShortEntry::Observe { window, a, b }
}

/// Returns an entry of the host in short form, and appends its bytes to the pool.
pub(crate) fn shortened_host(pool: &mut Vec<u8>, entry: &Entry) -> ShortEntry
    requires kind { IsTrue (is_host entry.now) }
    requires room { length pool.old.items + most_payload_bytes ≤ vec_capacity pool.old }
    requires few { length pool.old.items + most_payload_bytes < 2 ^ 32 }
    ensures entry { IsShortened pool.old.items pool.new.items most_payload_bytes result entry.now }
    ensures room { vec_capacity pool.old ≤ vec_capacity pool.new }
{
    match entry {
        Entry::Commit {
            task,
            buffer,
            payload,
        } => shortened_commit(pool, *task, *buffer, payload),
        Entry::Withdraw { task, buffer, of } => ShortEntry::Withdraw {
            task: *task,
            buffer: *buffer,
            of: *of,
        },
        Entry::Read { task, buffer, from } => ShortEntry::Read {
            task: *task,
            buffer: *buffer,
            from: *from,
        },
        Entry::Pop { task, from } => ShortEntry::Pop {
            task: *task,
            from: *from,
        },
        Entry::Fetch { .. } | Entry::Observe { .. } => unreachable!(),
    }
}

/// Returns an entry of the controller in short form, and appends its bytes to the pool.
///
/// `mark` is the place of the last fetch or observe before it, or 0 if there is none.
#[inline(always)]
pub(crate) fn shortened_slot(pool: &mut Vec<u8>, mark: u32, entry: &Entry) -> ShortEntry
    requires kind { is_host entry.now ≡ false }
    requires room { length pool.old.items + most_seen_bytes ≤ vec_capacity pool.old }
    requires few { length pool.old.items + most_seen_bytes < 2 ^ 32 }
    ensures entry { IsShortened pool.old.items pool.new.items most_seen_bytes result entry.now }
    ensures mark { IfSome (last_mark result) (λ place. place ≡ mark) }
    ensures room { vec_capacity pool.old ≤ vec_capacity pool.new }
{
    match entry {
        Entry::Fetch { window, a, b } => ShortEntry::Fetch {
            window: *window,
            a: *a,
            b: *b,
        },
        Entry::Observe { window, a, b } => shortened_observe(pool, mark, *window, a, b),
        Entry::Commit { .. } | Entry::Withdraw { .. } | Entry::Read { .. } | Entry::Pop { .. } =>
            unreachable!(),
    }
}

/// Returns the bytes of a stretch of the pool.
fn bytes_at(pool: &[u8], stretch: Stretch) -> &[u8]
    requires order { stretch.start ≤ stretch.end }
    requires within { stretch.end ≤ length pool.now }
    ensures { result.now ≡ bytes_at pool.now stretch }
{
    &pool[stretch.start as usize..stretch.end as usize]
}

/// Returns the observation, with its bytes copied from the pool.
fn restored_seen(pool: &[u8], seen: ShortSeen) -> Seen
    requires { IsShortSeen (length pool.now) seen }
    ensures { result ≡ restored_seen pool.now seen }
{
    match seen {
        ShortSeen::Silence => Seen::Silence,
        ShortSeen::Own => Seen::Own,
        ShortSeen::Conflict => Seen::Conflict,
        ShortSeen::Noise => Seen::Noise,
        ShortSeen::Overrun => Seen::Overrun,
        ShortSeen::Bytes(stretch) => Seen::Bytes(frame_bytes(bytes_at(pool, stretch))),
    }
}

/// Returns a copy of the bytes, at most as many as the longest frame has.
fn frame_bytes(bytes: &[u8]) -> Bytes
    requires { length bytes.now ≤ most_frame_bytes }
    ensures { result.items ≡ bytes.now }
{
    let mut copy = Bytes::new();
    let outcome = copy.try_extend_from_slice(bytes);
    let fits = outcome.is_ok();
    prove!(fits);
    copy
}

/// Returns the observation, with its bytes left in the pool.
fn lent_seen(pool: &[u8], seen: ShortSeen) -> LentSeen<'_>
    requires { IsShortSeen (length pool.now) seen }
    ensures { whole_seen result ≡ restored_seen pool.now seen }
{
    match seen {
        ShortSeen::Silence => LentSeen::Silence,
        ShortSeen::Own => LentSeen::Own,
        ShortSeen::Conflict => LentSeen::Conflict,
        ShortSeen::Noise => LentSeen::Noise,
        ShortSeen::Overrun => LentSeen::Overrun,
        ShortSeen::Bytes(stretch) => LentSeen::Bytes(bytes_at(pool, stretch)),
    }
}

/// Returns the entry, with its bytes left in the pool.
pub(crate) fn lent_entry(pool: &[u8], entry: ShortEntry) -> LentEntry<'_>
    requires { IsShort (length pool.now) entry }
    ensures entry { whole result ≡ restored pool.now entry }
    ensures payload { HasPayload result }
{
    match entry {
        ShortEntry::Commit {
            task,
            buffer,
            payload,
        } => LentEntry::Commit {
            task,
            buffer,
            payload: bytes_at(pool, payload),
        },
        ShortEntry::Withdraw { task, buffer, of } => LentEntry::Withdraw { task, buffer, of },
        ShortEntry::Read { task, buffer, from } => LentEntry::Read { task, buffer, from },
        ShortEntry::Pop { task, from } => LentEntry::Pop { task, from },
        ShortEntry::Fetch { window, a, b } => LentEntry::Fetch { window, a, b },
        ShortEntry::Observe { window, a, b } => LentEntry::Observe {
            window: window.number,
            a: lent_seen(pool, a),
            b: lent_seen(pool, b),
        },
    }
}

/// Returns the entry, with its bytes copied from the pool.
pub(crate) fn whole_entry(pool: &[u8], entry: ShortEntry) -> Entry
    requires { IsShort (length pool.now) entry }
    ensures { result ≡ restored pool.now entry }
{
    match entry {
        ShortEntry::Commit {
            task,
            buffer,
            payload: stretch,
        } => Entry::Commit {
            task,
            buffer,
            payload: payload_of(bytes_at(pool, stretch)),
        },
        ShortEntry::Withdraw { task, buffer, of } => Entry::Withdraw { task, buffer, of },
        ShortEntry::Read { task, buffer, from } => Entry::Read { task, buffer, from },
        ShortEntry::Pop { task, from } => Entry::Pop { task, from },
        ShortEntry::Fetch { window, a, b } => Entry::Fetch { window, a, b },
        ShortEntry::Observe { window, a, b } => Entry::Observe {
            window: window.number,
            a: restored_seen(pool, a),
            b: restored_seen(pool, b),
        },
    }
}
