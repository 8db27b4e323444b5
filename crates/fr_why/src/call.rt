//! The call of a line of a journal, and its result on the interface.
ghost use Rattle.std.specs.Prelude.{◌≡◌, Some, IfNone, option_map};
ghost use Rattle.fr_interface.specs.State.{with_entry};
ghost use Rattle.fr_lines.specs.Bare.{with_bytes};
ghost use Rattle.fr_trace.specs.Answers.{made_by};
ghost use Rattle.fr_why.specs.Asking.{reason_by_state};
ghost use Rattle.fr_why.specs.Reasons.{call_refusal, reason_of_call};

use crate::reason::Reason;
use fr_interface::errors::{HostError, SlotError};
use fr_interface::interface::Interface;
use fr_lines::bare::{BareEntry, EntryBytes};
use fr_lines::entries::entry_into;
use fr_lines::versions::Version;

/// Makes the call of the entry, and returns the reason why the interface refuses it, if it does.
fn refusal_of(interface: &mut Interface, told: &BareEntry, bytes: &EntryBytes) -> Option<Reason>
    ensures refused { result ≡ call_refusal interface.old (with_bytes bytes.now told.now) }
    ensures made { IfNone result (interface.new
        ≡ with_entry interface.old (made_by interface.old (with_bytes bytes.now told.now))) }
{
    match told {
        BareEntry::Commit { task, buffer, .. } => {
            host_reason(interface.commit(*task, *buffer, &bytes.payload).err())
        }
        BareEntry::Withdraw { task, buffer, .. } => {
            host_reason(interface.withdraw(*task, *buffer).err())
        }
        BareEntry::Read { task, buffer, .. } => host_reason(interface.read(*task, *buffer).err()),
        BareEntry::Pop { task, .. } => host_reason(interface.pop(*task).err()),
        BareEntry::Fetch { window, .. } => slot_reason(interface.fetch_offered(window).err()),
        BareEntry::Observe { window, .. } => {
            slot_reason(interface.observe(*window, &bytes.a, &bytes.b).err())
        }
    }
}

/// Returns the reason for the refusal of a task's call.
fn host_reason(error: Option<HostError>) -> Option<Reason>
    ensures { result ≡ option_map Reason.Host error }
{
    match error {
        Some(error) => Some(Reason::Host(error)),
        None => None,
    }
}

/// Returns the reason for the refusal of a controller's call.
fn slot_reason(error: Option<SlotError>) -> Option<Reason>
    ensures { result ≡ option_map Reason.Slot error }
{
    match error {
        Some(error) => Some(Reason::Slot(error)),
        None => None,
    }
}

/// Returns the reason why the call of the entry is refused, or otherwise the entry that it makes.
fn reason_of_entry(interface: &mut Interface, told: &BareEntry, bytes: &EntryBytes) -> Reason
    ensures { result ≡ reason_of_call
        (made_by interface.old (with_bytes bytes.now told.now))
        (call_refusal interface.old (with_bytes bytes.now told.now)) }
{
    let number = interface.journal().len();
    match refusal_of(interface, told, bytes) {
        Some(reason) => reason,
        None => match interface.journal().get(number) {
            Some(entry) => Reason::Due(entry),
            // The call has made an entry of this number.
            None => Reason::Plain,
        },
    }
}

/// Returns the reason of a line's refusal, after the lines that have led to this interface.
pub(crate) fn reason_of_line(interface: &mut Interface, version: Version, line: &[u8]) -> Reason
    ensures { result ≡ reason_by_state version (Some interface.old) line.now }
{
    let mut bytes = EntryBytes::new();
    match entry_into(version, line, &mut bytes) {
        Some(told) => reason_of_entry(interface, &told, &bytes),
        None => Reason::Plain,
    }
}
