//! Entries with their bytes left in the journal.

ghost use Rattle.std.specs.Prelude.{◌≡◌, ◌+◌, ◌<◌, ◌^◌, if◌then◌else◌};
ghost use Rattle.fr_frame.specs.Payload.{IsPayload};
ghost use Rattle.fr_journal.specs.Cycles.{begins_cycle_at};
ghost use Rattle.fr_journal.specs.Lent.{whole};
ghost use Rattle.fr_slots.specs.Windows.{most_cycles};

use crate::entry::Entry;
use fr_frame::payload::Payload;
use fr_slots::window::{cycles_with, opens_cycle};
use fr_status::seen::LentSeen;

/// An entry that borrows its payload or observed bytes, so reading it copies none of them.
///
/// The payload of a commit has an even number of bytes, at most 254.
pub type LentEntry<'a> = Entry<&'a [u8], LentSeen<'a>>;

/// Returns a copy of the payload of a lent commit.
pub fn payload_of(bytes: &[u8]) -> Payload
    requires { IsPayload bytes.now }
    ensures { result ≡ bytes.now }
{
    match Payload::from_slice(bytes) {
        Ok(payload) => payload,
        Err(_) => unreachable!(),
    }
}

/// Returns whether a cycle of the run begins with the entry (project-defined): it fetches static slot 1.
pub fn begins_cycle(entry: &LentEntry<'_>) -> bool
    ensures { result ≡ begins_cycle_at (whole entry.now) }
{
    match entry {
        LentEntry::Fetch { window, .. } => opens_cycle(window),
        _ => false,
    }
}

/// Returns the number of cycles of the run that a journal has begun with this entry, from the number before it
/// (project-defined).
///
/// At `u32::MAX`, which no run reaches, it stays.
pub fn cycles_at(begun: u32, entry: &LentEntry<'_>) -> u32
    ensures most { result ≡ most_cycles (begun + (if begins_cycle_at (whole entry.now) then 1 else 0)) }
    ensures counted { begun + 1 < 2 ^ 32 →
        result ≡ begun + (if begins_cycle_at (whole entry.now) then 1 else 0) }
{
    match entry {
        LentEntry::Fetch { window, .. } => cycles_with(begun, window),
        _ => begun,
    }
}
