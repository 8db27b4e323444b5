//! The check of fault lines against a cluster.

ghost use Rattle.std.specs.Prelude.{◌≡◌, ◌↔◌, ◌+◌, ◌-◌, IsTrue};
ghost use Rattle.std.specs.List.{list_any, range_with_len};
ghost use Rattle.fr_core.specs.Walks.{Finds};
ghost use Rattle.fr_runs.specs.Suiting.{agree, are_alike, cycles_meet, dynamic_of, first_static, has_cycle};
ghost use Rattle.fr_runs.specs.Suiting.{has_dynamic, has_node, has_place, has_static, in_order, last_static};
ghost use Rattle.fr_runs.specs.Suiting.{line_fits, lines_meet};
ghost use Rattle.fr_runs.specs.Suiting.{minislot_of, minislots_meet, names_both, places_meet, slots_meet};
ghost use Rattle.fr_runs.specs.Suiting.{IsFaultAfter, FaultSuits};

use crate::cycles::RunCycles;
use crate::fault_line::{FaultLine, FaultPlace};
use fr_bus::fault::Fault;
use fr_schedule::cluster::Cluster;
use fr_slots::params::Params;

/// Returns whether a cluster of so many nodes has the fault's node, if the fault has one.
fn has_node(nodes: u8, fault: &Fault) -> bool
    ensures { result ≡ has_node nodes fault.now }
{
    match fault {
        Fault::Babble { node, .. } | Fault::Mute { node, .. } => node.number() < nodes,
        Fault::Corrupt { .. } => true,
    }
}

/// Returns whether a run of so many cycles has the cycle, or the first cycle of the span (project-defined). It is false
/// for a span of no cycle, whose last cycle is below its first or whose step is 0.
pub fn has_cycle(cycles: u16, named: RunCycles) -> bool
    ensures { result ≡ has_cycle cycles named }
{
    match named {
        RunCycles::Every => true,
        RunCycles::Only(cycle) => cycle < cycles,
        RunCycles::Span { first, last, step } => first < cycles && first <= last && step != 0,
    }
}

/// Returns whether a cycle has the named slots or minislots.
fn has_place(params: &Params, place: FaultPlace) -> bool
    ensures { result ≡ has_place params.now place }
{
    match place {
        FaultPlace::EveryWindow | FaultPlace::EverySlot | FaultPlace::EveryMinislot => true,
        FaultPlace::Slot(number) => 1 <= number && number <= params.static_slots,
        FaultPlace::Slots { first, last } => {
            1 <= first && first <= last && last <= params.static_slots
        }
        FaultPlace::Minislot(number) => 1 <= number && number <= params.minislots,
        FaultPlace::Dynamic(number) => {
            let most = u32::from(params.static_slots) + u32::from(params.minislots);
            params.static_slots < number && u32::from(number) <= most
        }
    }
}

/// Returns whether the run has the node, cycle and place of the line.
fn line_fits(cluster: &Cluster, cycles: u16, line: &FaultLine) -> bool
    ensures { result ≡ line_fits cluster.now cycles line.now }
{
    has_node(cluster.nodes(), &line.fault)
        && has_cycle(cycles, line.cycles)
        && has_place(cluster.params(), line.place)
}

/// Returns whether both are of the same kind, node and channel.
fn are_alike(fault: &Fault, other: &Fault) -> bool
    ensures { result ≡ are_alike fault.now other.now }
{
    match (fault, other) {
        (
            Fault::Babble { node, channel, .. },
            Fault::Babble {
                node: other,
                channel: same,
                ..
            },
        ) => node == other && channel == same,
        (
            Fault::Mute { node, channel },
            Fault::Mute {
                node: other,
                channel: same,
            },
        ) => node == other && channel == same,
        (Fault::Corrupt { channel, .. }, Fault::Corrupt { channel: same, .. }) => channel == same,
        _ => false,
    }
}

/// Returns whether both name this cycle.
fn names_both(cycles: RunCycles, others: RunCycles, cycle: u16) -> bool
    ensures { result ≡ names_both cycles others cycle }
{
    let cycle = usize::from(cycle);
    cycles.names(cycle) && others.names(cycle)
}

/// Returns whether both name a common cycle from the first to the last.
fn share_cycle(cycles: RunCycles, others: RunCycles, first: u16, last: u16) -> bool
    ensures { result ≡ list_any (names_both cycles others) (range_with_len first (last + 1 - first)) }
{
    for cycle in first..last {
        if names_both(cycles, others, cycle) {
            return true;
        }
    }
    first <= last && names_both(cycles, others, last)
}

/// Returns whether both name a common cycle.
fn cycles_meet(cycles: RunCycles, others: RunCycles) -> bool
    ensures { result ≡ cycles_meet cycles others }
{
    match (cycles, others) {
        (RunCycles::Every, _) | (RunCycles::Span { .. }, RunCycles::Every) => true,
        (RunCycles::Only(cycle), _) => others.names(usize::from(cycle)),
        (RunCycles::Span { .. }, RunCycles::Only(other)) => cycles.names(usize::from(other)),
        (
            RunCycles::Span { first, last, .. },
            RunCycles::Span {
                first: from,
                last: to,
                ..
            },
        ) => share_cycle(cycles, others, first.max(from), last.min(to)),
    }
}

/// Returns whether the place has static slots.
fn has_static(place: FaultPlace) -> bool
    ensures { result ≡ has_static place }
{
    match place {
        FaultPlace::EveryWindow
        | FaultPlace::EverySlot
        | FaultPlace::Slot(_)
        | FaultPlace::Slots { .. } => true,
        FaultPlace::EveryMinislot | FaultPlace::Minislot(_) | FaultPlace::Dynamic(_) => false,
    }
}

/// Returns whether the place has windows of the dynamic segment.
fn has_dynamic(place: FaultPlace) -> bool
    ensures { result ≡ has_dynamic place }
{
    match place {
        FaultPlace::EveryWindow
        | FaultPlace::EveryMinislot
        | FaultPlace::Minislot(_)
        | FaultPlace::Dynamic(_) => true,
        FaultPlace::EverySlot | FaultPlace::Slot(_) | FaultPlace::Slots { .. } => false,
    }
}

/// Returns the first static slot of the place, if it has only some.
fn first_static(place: FaultPlace) -> Option<u16>
    ensures { result ≡ first_static place }
{
    match place {
        FaultPlace::Slot(number) => Some(number),
        FaultPlace::Slots { first, .. } => Some(first),
        _ => None,
    }
}

/// Returns the last static slot of the place, if it has only some.
fn last_static(place: FaultPlace) -> Option<u16>
    ensures { result ≡ last_static place }
{
    match place {
        FaultPlace::Slot(number) => Some(number),
        FaultPlace::Slots { last, .. } => Some(last),
        _ => None,
    }
}

/// Returns the minislot of the place, if it has only one.
fn minislot_of(place: FaultPlace) -> Option<u16>
    ensures { result ≡ minislot_of place }
{
    match place {
        FaultPlace::Minislot(number) => Some(number),
        _ => None,
    }
}

/// Returns the dynamic slot of the place, if it has only one.
fn dynamic_of(place: FaultPlace) -> Option<u16>
    ensures { result ≡ dynamic_of place }
{
    match place {
        FaultPlace::Dynamic(number) => Some(number),
        _ => None,
    }
}

/// Returns whether the first number isn't after the last, or one of them is missing.
fn in_order(first: Option<u16>, last: Option<u16>) -> bool
    ensures { result ≡ in_order first last }
{
    match (first, last) {
        (Some(first), Some(last)) => first <= last,
        _ => true,
    }
}

/// Returns whether the numbers are the same, or one of them is missing.
fn agree(number: Option<u16>, other: Option<u16>) -> bool
    ensures { result ≡ agree number other }
{
    match (number, other) {
        (Some(number), Some(other)) => number == other,
        _ => true,
    }
}

/// Returns whether the static slots of both have one in common.
fn slots_meet(place: FaultPlace, other: FaultPlace) -> bool
    ensures { result ≡ slots_meet place other }
{
    in_order(first_static(place), last_static(other))
        && in_order(first_static(other), last_static(place))
}

/// Returns whether the windows of the dynamic segment of both have one in common. A dynamic slot may open at any
/// minislot.
fn minislots_meet(place: FaultPlace, other: FaultPlace) -> bool
    ensures { result ≡ minislots_meet place other }
{
    agree(minislot_of(place), minislot_of(other)) && agree(dynamic_of(place), dynamic_of(other))
}

/// Returns whether both name a common window, if one opens at each minislot, and a dynamic slot at any of them.
fn places_meet(place: FaultPlace, other: FaultPlace) -> bool
    ensures { result ≡ places_meet place other }
{
    has_static(place) && has_static(other) && slots_meet(place, other)
        || has_dynamic(place) && has_dynamic(other) && minislots_meet(place, other)
}

/// Returns whether both name a common window for the same kind, node and channel.
fn lines_meet(line: &FaultLine, other: &FaultLine) -> bool
    ensures { result ≡ lines_meet line.now other.now }
{
    // Cycles come last, since two spans are compared cycle by cycle.
    are_alike(&line.fault, &other.fault)
        && places_meet(line.place, other.place)
        && cycles_meet(line.cycles, other.cycles)
}

/// Returns whether the line names a window that an earlier line names.
fn meets_any(line: &FaultLine, before: &[FaultLine]) -> bool
    ensures { result ≡ list_any (lines_meet line.now) before.now }
{
    before.iter().any(|other| lines_meet(line, other))
}

/// Returns whether a run with the fault lines before it can have this one too (project-defined). This is the check of
/// `check_run` for each fault line. The cluster has the fault's node, if the fault has one. The run has the named
/// cycle, or the first cycle of the span, and each cycle has the named slots or minislot. No earlier line names a
/// window that this one names for the same kind, node and channel; for a corruption, for the same channel.
pub fn suits_after(cluster: &Cluster, cycles: u16, before: &[FaultLine], line: &FaultLine) -> bool
    ensures { IsTrue result ↔ IsFaultAfter cluster.now cycles before.now line.now }
{
    line_fits(cluster, cycles, line) && !meets_any(line, before)
}

/// Returns the first fault line that doesn't fit.
pub(crate) fn other_fault(cluster: &Cluster, faults: &[FaultLine], cycles: u16) -> Option<usize>
    ensures { Finds (FaultSuits cluster.now cycles faults.now) result }
{
    for (place, line) in faults.iter().enumerate() {
        if !suits_after(cluster, cycles, &faults[..place], line) {
            return Some(place);
        }
    }
    None
}
