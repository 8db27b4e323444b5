//! Entries without their bytes. The bytes stand in one place, which is reused for each line.

use fr_frame::payload::Payload;
use fr_journal::entry::Entry;
use fr_status::seen::Seen;

/// An entry of a journal without its payload or observations (project-defined).
pub type BareEntry = Entry<(), ()>;

/// The payload or the observations of the entry that was read last.
///
/// A field that this entry doesn't need keeps its value of an earlier entry.
#[derive(Drop)]
pub struct EntryBytes {
    /// The payload that was committed.
    pub payload: Payload,
    /// The observation on channel A.
    pub a: Seen,
    /// The observation on channel B.
    pub b: Seen,
}

impl EntryBytes {
    ghost use Rattle.std.specs.Prelude.{◌≡◌, []};
    ghost use Rattle.fr_status.specs.declared.seen.Seen.TheVariants as seen;

    /// Returns the value before any entry was read: a payload without bytes, and silence on both channels.
    pub fn new() -> EntryBytes
        ensures { result ≡ record { payload = []; a = seen.Silence; b = seen.Silence } }
    {
        EntryBytes {
            payload: Payload::default(),
            a: Seen::Silence,
            b: Seen::Silence,
        }
    }
}
