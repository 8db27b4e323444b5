//! A walk along a node's journal, from the end of one cycle to that of another.

ghost use Rattle.std.specs.Prelude.{◌≡◌, ◌+◌, ◌≤◌, ◌<◌, ◌^◌, if◌then◌else◌, slice_get, take, Some};
ghost use Rattle.std.specs.Option.{option_or};
ghost use Rattle.fr_journal.specs.Cycles.{begins_cycle_at};
ghost use Rattle.fr_expecting.specs.Contents.{IsPlace, payload_at, payload_on};
ghost use Rattle.fr_expecting.specs.Expected.{through};
ghost use Rattle.fr_journal.specs.Lent.{whole};

use fr_frame::payload::Payload;
use fr_interface::interface::Interface;
use fr_journal::entry::Origin;
use fr_journal::lent::{LentEntry, begins_cycle, cycles_at};
use fr_slots::channel::Channel;
use fr_slots::filter::Filter;
use fr_slots::window::Window;

/// A place in a node's journal.
#[derive(Drop)]
pub(crate) struct Place {
    /// The number of the next entry.
    pub(crate) next: u32,
    /// The number of cycles that the entries before it began.
    pub(crate) begun: u32,
    /// The payload that they left in the receive buffer.
    pub(crate) held: Option<Payload>,
}

/// Returns the payload that an entry brings to a receive buffer on a channel of the window that the entry closes.
fn payload_on(
    interface: &Interface,
    filter: &Filter,
    number: u32,
    channel: Channel,
    window: &Window,
) -> Option<Payload>
    ensures { result ≡ payload_on interface.now filter.now number channel window.now }
{
    if !filter.admits_window(window, channel) {
        return None;
    }
    let frame = interface.frame_at(Origin {
        entry: number,
        channel,
    })?;
    Some(frame.payload)
}

/// Returns the payload that the entry of this number brings to a receive buffer.
fn payload_at(interface: &Interface, filter: &Filter, number: u32) -> Option<Payload>
    ensures { result ≡ payload_at interface.now filter.now number }
{
    let window = interface.journal().closed_window(number)?;
    match payload_on(interface, filter, number, Channel::A, &window) {
        Some(payload) => Some(payload),
        None => payload_on(interface, filter, number, Channel::B, &window),
    }
}

/// Keeps the payload that an entry brought, if it brought one.
fn keep(held: &mut Option<Payload>, brought: Option<Payload>)
    ensures { held.new ≡ option_or brought held.old }
{
    if let Some(payload) = brought {
        *held = Some(payload);
    }
}

/// Returns the number of cycles that began up to this entry and with it, from the number before.
fn begun_with(begun: u32, entry: &LentEntry<'_>) -> u32
    requires { begun + 1 < 2 ^ 32 }
    ensures { result ≡ begun + (if begins_cycle_at (whole entry.now) then 1 else 0) }
{
    cycles_at(begun, entry)
}

/// Goes past the next entry.
fn pass(interface: &Interface, filter: &Filter, place: &mut Place, entry: &LentEntry<'_>)
    requires here { slice_get interface.now.entries place.old.next ≡ Some (whole entry.now) }
    requires place { IsPlace interface.now filter.now place.old }
    requires room { place.old.next + 1 < 2 ^ 32 }
    ensures place { IsPlace interface.now filter.now place.new }
    ensures next { place.new.next ≡ place.old.next + 1 }
    ensures begun { place.new.begun ≡ place.old.begun + (if begins_cycle_at (whole entry.now) then 1 else 0) }
{
    let brought = payload_at(interface, filter, place.next);
    keep(&mut place.held, brought);
    place.begun = begun_with(place.begun, entry);
    place.next += 1;
}

/// Goes to the end of a cycle of the run, that is to the entry that begins the next one, or to the journal's end.
pub(crate) fn go_to_end(interface: &Interface, filter: &Filter, place: &mut Place, cycle: u16)
    requires place { IsPlace interface.now filter.now place.old }
    requires before { place.old.begun ≤ cycle + 1 }
    ensures place { IsPlace interface.now filter.now place.new }
    ensures before { place.new.begun ≤ cycle + 1 }
    ensures end { take place.new.next interface.now.entries ≡ through (cycle + 1) interface.now.entries }
{
    let journal = interface.journal();
    for number in place.next..journal.len() {
        let Some(entry) = journal.lent(number) else {
            return;
        };
        if begins_cycle(&entry) && place.begun > u32::from(cycle) {
            return;
        }
        pass(interface, filter, place, &entry);
    }
}
