//! Replay: the call of an entry of a trace, made again.

ghost use Rattle.std.specs.Prelude.{◌≡◌, option_map, IfSome, OnOk};
ghost use Rattle.std.specs.Result.{result_err};
ghost use Rattle.fr_trace.specs.Answers.{answer_of, made_by, fault_of};
ghost use Rattle.fr_interface.specs.State.{with_entry};
ghost use Rattle.fr_journal.specs.Held.{origin_of};
ghost use Rattle.fr_lines.specs.Bare.{with_bytes};

use crate::error::TraceError;
use fr_interface::interface::Chi;
use fr_journal::entry::{Arrival, Origin};
use fr_journal::history::History;
use fr_lines::bare::{BareEntry, EntryBytes};

/// Returns the origin of a frame that arrived.
fn origin_in(arrival: &Option<Arrival>) -> Option<Origin>
    ensures { result ≡ option_map origin_of arrival.now }
{
    arrival.as_ref().map(|arrival| arrival.origin)
}

/// Makes the call of the entry, and returns whether its answers are those of the entry. `None` if the interface refuses
/// the call.
fn answers_as_told<H: History>(
    interface: &mut Chi<H>,
    told: &BareEntry,
    bytes: &EntryBytes,
) -> Option<bool>
    ensures answer { result ≡ answer_of interface.old (with_bytes bytes.now told.now) }
    ensures made { IfSome result (λ answered.
        interface.new ≡ with_entry interface.old (made_by interface.old (with_bytes bytes.now told.now))) }
{
    match told {
        BareEntry::Commit { task, buffer, .. } => {
            let _receipt = interface.commit(*task, *buffer, &bytes.payload).ok()?;
            Some(true)
        }
        BareEntry::Withdraw { task, buffer, of } => {
            let made = interface.withdraw(*task, *buffer).ok()?;
            Some(made == *of)
        }
        BareEntry::Read { task, buffer, from } => {
            let arrival = interface.read_arrival(*task, *buffer).ok()?;
            Some(origin_in(&arrival) == *from)
        }
        BareEntry::Pop { task, from } => {
            let arrival = interface.pop_arrival(*task).ok()?;
            Some(origin_in(&arrival) == *from)
        }
        BareEntry::Fetch { window, a, b } => {
            let (made_a, made_b) = interface.fetch_offered(window).ok()?;
            Some(made_a == *a && made_b == *b)
        }
        BareEntry::Observe { window, .. } => {
            interface.observe(*window, &bytes.a, &bytes.b).ok()?;
            Some(true)
        }
    }
}

/// Makes the call of the entry on the line of this number, and compares its answers (project-defined).
///
/// Fails with `Refused` if the interface refuses the call, and with `WrongAnswer` if its answers aren't those of the
/// entry. Both name the line.
pub fn replay<H: History>(
    interface: &mut Chi<H>,
    told: &BareEntry,
    bytes: &EntryBytes,
    line: u64,
) -> Result<(), TraceError>
    ensures fault { result_err result ≡ fault_of line interface.old (with_bytes bytes.now told.now) }
    ensures made { OnOk result
        (interface.new ≡ with_entry interface.old (made_by interface.old (with_bytes bytes.now told.now))) }
{
    match answers_as_told(interface, told, bytes) {
        Some(true) => Ok(()),
        Some(false) => Err(TraceError::WrongAnswer(line)),
        None => Err(TraceError::Refused(line)),
    }
}
