//! The walk along the journal of one node, beside the record and the scripts.

ghost use Rattle.std.specs.Prelude.{◌≡◌, ◌<◌, ◌≤◌, ◌+◌, ◌↔◌, IsTrue, Some, None, nat_lt, if◌then◌else◌, length, IfSome};
ghost use Rattle.std.specs.Prelude.{slice_get, option_map, is_none, ◌&&◌};
ghost use Rattle.std.specs.Option.{option_copied, option_or};
ghost use Rattle.fr_bus.specs.Record.{seen_by};
ghost use Rattle.fr_core.specs.Agreeing.{offers_of, sight_of, sights_of};
ghost use Rattle.fr_core.specs.Walks.{FindsNext, handed_by, window_at, FetchesNext, ObservesNext};
ghost use Rattle.fr_core.specs.Walks.{AreFindings, AreFirstFindings, is_silent};
ghost use Rattle.fr_interface.specs.Handing.{bytes_handed};
ghost use Rattle.fr_journal.specs.Lent.{whole, HasPayload};
ghost use Rattle.fr_status.specs.Forms.{whole_seen};
ghost use Rattle.fr_slots.specs.declared.channel.Channel.TheVariants as channel;
ghost use Rattle.fr_slots.specs.Numbers.{last_node, most_entries};

use crate::script::Script;
use crate::tasks::{courses_past, new_courses, other_task};
use fr_bus::outcome::Sealed;
use fr_frame::frame::Bytes;
use fr_interface::interface::Interface;
use fr_journal::entry::Offered;
use fr_journal::lent::LentEntry;
use fr_slots::channel::Channel;
use fr_slots::numbers::{NODES, NodeId, TaskId};
use fr_slots::params::Params;
use fr_slots::window::Window;
use fr_status::seen::LentSeen;
use std::alloc::Global;
use std::thread;
use std::thread::Threads;

/// The findings of a node.
#[derive(Clone, Copy)]
pub(crate) struct Findings {
    /// True if the windows that it fetched, and those that it observed, are the record's.
    pub has_windows: bool,
    /// The first place at which its offer isn't the record's.
    pub offer: Option<usize>,
    /// The first place at which its observation isn't the record's.
    pub sight: Option<usize>,
    /// The first task that didn't execute its scripts.
    pub task: Option<TaskId>,
}

/// The findings of the fetches of a node.
#[derive(Clone, Copy)]
pub(crate) struct Fetches {
    /// The number of fetches.
    pub count: usize,
    /// The first place at which the window isn't the record's.
    pub window: Option<usize>,
    /// The first place at which the offer isn't the record's.
    pub offer: Option<usize>,
}

/// The findings of the observes of a node.
#[derive(Clone, Copy)]
pub(crate) struct Observes {
    /// The number of observes.
    pub count: usize,
    /// The open window, if there is one.
    pub opened: Option<Window>,
    /// The first place at which the window isn't the record's.
    pub window: Option<usize>,
    /// The first place at which the observation isn't the record's.
    pub sight: Option<usize>,
}

/// Returns the number of entries of an interface's journal (project-defined).
pub fn entries_of(interface: &Interface) -> u32
    ensures value { result ≡ length interface.now.entries }
    ensures few { result ≤ most_entries }
{
    interface.journal().len()
}

/// Returns the entry of this number. A walk along a journal asks for each entry once.
fn entry_at(interface: &Interface, number: u32) -> Option<LentEntry<'_>>
    ensures entry { option_map whole result ≡ slice_get interface.now.entries number }
    ensures payload { IfSome result HasPayload }
{
    interface.journal().lent(number)
}

/// Returns the interface at this place (project-defined).
pub fn interface_at(interfaces: &[Interface], place: usize) -> Option<&Interface>
    ensures { option_map (λ interface. interface.now) result ≡ slice_get interfaces.now place }
{
    interfaces.get(place)
}

/// Returns the window at this place of the record (project-defined).
pub fn sealed_at(recorded: &[Sealed], place: usize) -> Option<&Sealed>
    ensures { option_map (λ sealed. sealed.now) result ≡ slice_get recorded.now place }
{
    recorded.get(place)
}

/// Returns whether this is the window at this place of the record.
fn is_window_at(recorded: &[Sealed], place: usize, window: &Window) -> bool
    ensures { IsTrue result ↔ (window_at recorded.now place ≡ Some window.now) }
{
    match sealed_at(recorded, place) {
        Some(sealed) => sealed.window == *window,
        None => false,
    }
}

/// Returns the first place at which two lists differ, from the finding before this place.
fn next_found(found: Option<usize>, place: usize, is_same: bool) -> Option<usize>
    ensures { FindsNext (IsTrue is_same) place found result }
{
    match found {
        Some(found) => Some(found),
        None => { if is_same { None } else { Some(place) } }
    }
}

/// Returns whether both are the same bytes, or both are none.
fn are_same(one: &Option<Bytes>, other: Option<&Bytes>) -> bool
    ensures { IsTrue result ↔ (one.now ≡ option_copied other.entry) }
{
    match (one, other) {
        (Some(one), Some(other)) => one == other,
        (None, None) => true,
        _ => false,
    }
}

/// Returns whether the entry handed nothing to the bus on the channel.
fn is_silent(entry: &LentEntry<'_>, channel: Channel) -> bool
    ensures { result ≡ is_silent channel (whole entry.now) }
{
    let LentEntry::Fetch { a, b, .. } = entry else {
        return true;
    };
    match channel {
        Channel::A => matches!(a, Offered::Nothing),
        Channel::B => matches!(b, Offered::Nothing),
    }
}

/// Returns whether the entry of this number handed this offer to the bus, which is encoded again.
///
/// It isn't inlined, so an entry that handed nothing to the bus doesn't pay for the room of a frame.
#[inline(never)]
fn is_spelled(interface: &Interface, number: u32, channel: Channel, offered: Option<&Bytes>) -> bool
    ensures { IsTrue result ↔ (bytes_handed interface.now number channel ≡ option_copied offered.entry) }
{
    are_same(&interface.handed_at(number, channel), offered)
}

/// Returns whether the entry of this number handed this offer to the bus on the channel.
fn is_handed_on(
    interface: &Interface,
    number: u32,
    entry: &LentEntry<'_>,
    channel: Channel,
    offered: Option<&Bytes>,
) -> bool
    requires { slice_get interface.now.entries number ≡ Some (whole entry.now) }
    ensures { IsTrue result ↔ (bytes_handed interface.now number channel ≡ option_copied offered.entry) }
{
    if is_silent(entry, channel) {
        offered.is_none()
    } else {
        is_spelled(interface, number, channel, offered)
    }
}

/// Returns whether the record has the offers that the fetch of this number handed to the bus.
fn is_handed(
    interface: &Interface,
    number: u32,
    entry: &LentEntry<'_>,
    window: &Window,
    node: NodeId,
    sealed: &Sealed,
) -> bool
    requires { slice_get interface.now.entries number ≡ Some (whole entry.now) }
    ensures { IsTrue result ↔ (offers_of node sealed.now ≡ handed_by interface.now number window.now) }
{
    let (on_a, on_b) = (
        sealed.offered(Channel::A, node),
        sealed.offered(Channel::B, node),
    );
    sealed.window == *window
        && is_handed_on(interface, number, entry, Channel::A, on_a)
        && is_handed_on(interface, number, entry, Channel::B, on_b)
}

/// The same if the record has a window there, and otherwise false.
fn is_handed_at(
    interface: &Interface,
    number: u32,
    entry: &LentEntry<'_>,
    window: &Window,
    node: NodeId,
    sealed: Option<&Sealed>,
) -> bool
    requires { slice_get interface.now.entries number ≡ Some (whole entry.now) }
    ensures { IsTrue result
        ↔ (option_map (offers_of node) (option_map (λ sealed. sealed.now) sealed.entry)
        ≡ Some (handed_by interface.now number window.now)) }
{
    match sealed {
        Some(sealed) => is_handed(interface, number, entry, window, node, sealed),
        None => false,
    }
}

/// Returns the findings of the fetches with the entry of this number, from those before it.
fn fetches_past(
    interface: &Interface,
    node: NodeId,
    recorded: &[Sealed],
    number: u32,
    entry: &LentEntry<'_>,
    so_far: &Fetches,
) -> Fetches
    requires here { slice_get interface.now.entries number ≡ Some (whole entry.now) }
    requires few { so_far.now.count < most_entries }
    ensures { FetchesNext interface.now node recorded.now number so_far.now (whole entry.now) result }
{
    let LentEntry::Fetch { window, .. } = entry else {
        return *so_far;
    };
    let place = so_far.count;
    let is_window = is_window_at(recorded, place, window);
    let sealed = sealed_at(recorded, place);
    let is_offer = is_handed_at(interface, number, entry, window, node, sealed);
    Fetches {
        count: place + 1,
        window: next_found(so_far.window, place, is_window),
        offer: next_found(so_far.offer, place, is_offer),
    }
}

/// Returns whether the record's window is this one.
fn is_of_window(sealed: &Sealed, window: &Window) -> bool
    ensures { IsTrue result ↔ (sealed.now.window ≡ window.now) }
{
    sealed.window == *window
}

/// Returns whether the record gives the node this observation, on A and on B.
fn is_shown(
    params: &Params,
    node: NodeId,
    sealed: &Sealed,
    a: LentSeen<'_>,
    b: LentSeen<'_>,
) -> bool
    ensures { IsTrue result
        ↔ ((seen_by params.now sealed.now channel.A node ≡ whole_seen a.entry)
        × (seen_by params.now sealed.now channel.B node ≡ whole_seen b.entry)) }
{
    sealed.shows(params, Channel::A, node, a) && sealed.shows(params, Channel::B, node, b)
}

/// Returns whether the record shows the node this observation. False if the record has no window there.
fn is_shown_at(
    params: &Params,
    node: NodeId,
    sealed: Option<&Sealed>,
    window: &Window,
    a: LentSeen<'_>,
    b: LentSeen<'_>,
) -> bool
    ensures { IsTrue result
        ↔ (option_map (sights_of params.now node) (option_map (λ sealed. sealed.now) sealed.entry)
        ≡ Some (sight_of (whole_seen a.entry) (whole_seen b.entry) window.now)) }
{
    match sealed {
        Some(sealed) => is_of_window(sealed, window) && is_shown(params, node, sealed, a, b),
        None => false,
    }
}

/// Returns the findings of the observes with this entry, from those before it.
fn observes_past(
    params: &Params,
    node: NodeId,
    recorded: &[Sealed],
    entry: &LentEntry<'_>,
    so_far: &Observes,
) -> Observes
    requires few { so_far.now.count < most_entries }
    ensures { ObservesNext params.now node recorded.now so_far.now (whole entry.now) result }
{
    match (entry, so_far.opened) {
        (LentEntry::Observe { a, b, .. }, Some(window)) => {
            let place = so_far.count;
            let is_window = is_window_at(recorded, place, &window);
            let sealed = sealed_at(recorded, place);
            let is_sight = is_shown_at(params, node, sealed, &window, *a, *b);
            Observes {
                count: place + 1,
                opened: None,
                window: next_found(so_far.window, place, is_window),
                sight: next_found(so_far.sight, place, is_sight),
            }
        }
        (LentEntry::Fetch { window, .. }, _) => Observes {
            opened: Some(*window),
            ..*so_far
        },
        _ => *so_far,
    }
}

/// Returns the place that was found, or this one if the record goes on there.
fn or_rest(found: Option<usize>, place: usize, recorded: &[Sealed]) -> Option<usize>
    ensures { result ≡ option_or found (if nat_lt place (length recorded.now) then Some place else None) }
{
    match found {
        Some(found) => Some(found),
        None => {
            if place < recorded.len() {
                Some(place)
            } else {
                None
            }
        }
    }
}

/// Returns whether neither place was found.
fn are_none(one: Option<usize>, other: Option<usize>) -> bool
    ensures { result ≡ (is_none one && is_none other) }
{
    one.is_none() && other.is_none()
}

/// Returns the findings of a node by its journal, which is walked once.
fn walk(
    interface: &Interface,
    params: &Params,
    node: NodeId,
    recorded: &[Sealed],
    scripts: &[Script],
) -> Findings
    ensures { AreFindings params.now (Some interface.now) recorded.now scripts.now node result }
{
    let mut fetches = Fetches {
        count: 0,
        window: None,
        offer: None,
    };
    let mut observes = Observes {
        count: 0,
        opened: None,
        window: None,
        sight: None,
    };
    let mut courses = new_courses();
    for number in 0..entries_of(interface) {
        let Some(entry) = entry_at(interface, number) else {
            unreachable!();
        };
        fetches = fetches_past(interface, node, recorded, number, &entry, &fetches);
        observes = observes_past(params, node, recorded, &entry, &observes);
        courses_past(interface, node, scripts, number, &entry, &mut courses);
    }
    let fetch = or_rest(fetches.window, fetches.count, recorded);
    let observe = or_rest(observes.window, observes.count, recorded);
    Findings {
        has_windows: are_none(fetch, observe),
        offer: or_rest(fetches.offer, fetches.count, recorded),
        sight: or_rest(observes.sight, observes.count, recorded),
        task: other_task(scripts, node, &courses),
    }
}

/// Returns the findings of the node, if its interface exists.
pub(crate) fn find_at(
    interfaces: &[Interface],
    params: &Params,
    node: NodeId,
    recorded: &[Sealed],
    scripts: &[Script],
) -> Findings
    ensures { AreFindings params.now (slice_get interfaces.now node) recorded.now scripts.now node result }
{
    match interface_at(interfaces, usize::from(node.number())) {
        Some(interface) => walk(interface, params, node, recorded, scripts),
        None => Findings {
            has_windows: true,
            offer: None,
            sight: None,
            task: other_task(scripts, node, &new_courses()),
        },
    }
}

/// Returns the findings of the node, given those of the first nodes.
pub(crate) fn found_at(
    first: &[Findings],
    interfaces: &[Interface],
    params: &Params,
    node: NodeId,
    recorded: &[Sealed],
    scripts: &[Script],
) -> Findings
    requires { AreFirstFindings params.now interfaces.now recorded.now scripts.now first.now }
    ensures { AreFindings params.now (slice_get interfaces.now node) recorded.now scripts.now node result }
{
    match first.get(usize::from(node.number())) {
        Some(found) => *found,
        None => find_at(interfaces, params, node, recorded, scripts),
    }
}

/// Returns the findings of the node at this place.
fn find_in_place(
    place: usize,
    interfaces: &[Interface],
    params: &Params,
    recorded: &[Sealed],
    scripts: &[Script],
) -> Findings
    requires { place ≤ last_node }
    ensures { AreFindings params.now (slice_get interfaces.now place) recorded.now scripts.now place result }
{
    find_at(
        interfaces,
        params,
        NodeId::from_number(place as u8),
        recorded,
        scripts,
    )
}

/// Returns the number of cores, or the greatest number of nodes if that isn't known.
fn threads_beside<R: Threads>(rt: &R) -> usize
    ensures { 0 < result }
{
    match thread::available_parallelism(rt) {
        Ok(cores) => cores.get(),
        Err(_) => usize::from(NODES),
    }
}

/// Returns the findings of each node that has an interface, in as many threads as there are cores. If the allocation of
/// the findings fails, it returns none.
pub(crate) fn find_in_threads<R: Threads + Sync>(
    rt: &R,
    alloc: Global,
    interfaces: &[Interface],
    params: &Params,
    recorded: &[Sealed],
    scripts: &[Script],
) -> Vec<Findings>
    ensures { AreFirstFindings params.now interfaces.now recorded.now scripts.now result.items }
{
    let nodes = interfaces.len().min(usize::from(NODES));
    let nothing = Findings {
        has_windows: true,
        offer: None,
        sight: None,
        task: None,
    };
    let Ok(mut found) = Vec::from_elem(alloc, nothing, nodes) else {
        return Vec::new(alloc);
    };
    thread::for_each_mut(
        rt,
        found.as_mut_slice(),
        threads_beside(rt),
        &|place: usize, of_node: &mut Findings| {
            *of_node = find_in_place(place, interfaces, params, recorded, scripts);
        },
    );
    found
}
