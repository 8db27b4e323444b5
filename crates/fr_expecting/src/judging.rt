//! The expectations that a run missed.

ghost use Rattle.std.specs.Prelude.{◌≡◌, ◌+◌, ◌<◌, ◌^◌, IfOk, IfSome, Some, option_map, slice_get};
ghost use Rattle.std.specs.Str.{bytes_eq};
ghost use Rattle.fr_expecting.specs.Contents.{found_left, judged, with_miss};
ghost use Rattle.fr_expecting.specs.declared.missed.Found.TheVariants as found;
ghost use Rattle.fr_expecting.specs.Expected.{found_in, found_with, meets, missed_by, missed_with, receive_filter};

use crate::expectation::{Expectation, copy_of};
use crate::missed::{Found, Missed};
use crate::walk::{Place, go_to_end};
use fr_frame::payload::Payload;
use fr_interface::interface::Interface;
use fr_slots::filter::Filter;
use fr_slots::numbers::NodeId;
use fr_slots::plan::Buffer;
use std::alloc::{AllocError, Global};

/// Returns whether the bytes are the same.
fn is_same(wanted: &Payload, found: &Payload) -> bool
    ensures { result ≡ bytes_eq wanted.now found.now }
{
    wanted.as_slice() == found.as_slice()
}

/// Returns whether this is the expected payload, or the empty buffer that is expected.
fn meets(wanted: &Option<Payload>, found: &Found) -> bool
    ensures { result ≡ meets wanted.now found.now }
{
    match (wanted, found) {
        (None, Found::Nothing) => true,
        (Some(wanted), Found::Data(payload)) => is_same(wanted, payload),
        _ => false,
    }
}

/// Returns the content of a receive buffer that holds this payload, or none.
fn found_left(held: &Option<Payload>) -> Found
    ensures { result ≡ found_left held.now }
{
    match held {
        Some(payload) => Found::Data(payload.duplicate()),
        None => Found::Nothing,
    }
}

/// Adds a cycle that missed the expectation.
fn add_miss(missed: &mut Option<Missed>, expectation: &Expectation, cycle: u16, found: Found)
    requires { IfSome missed.old (λ m. m.count + 1 < 2 ^ 16) }
    ensures { missed.new ≡ with_miss expectation.now cycle found missed.old }
{
    match missed {
        Some(missed) => missed.count += 1,
        None => {
            *missed = Some(Missed {
                line: expectation.line,
                node: expectation.node,
                buffer: expectation.buffer,
                wanted: copy_of(&expectation.payload),
                cycle,
                found,
                count: 1,
            });
        }
    }
}

/// Adds a cycle that ended with this content, if it isn't the expected one.
fn judge(missed: &mut Option<Missed>, expectation: &Expectation, cycle: u16, found: Found)
    requires { IfSome missed.old (λ m. m.count + 1 < 2 ^ 16) }
    ensures { missed.new ≡ judged expectation.now cycle found missed.old }
{
    if !meets(&expectation.payload, &found) {
        add_miss(missed, expectation, cycle, found);
    }
}

/// Returns the expectation as missed in each cycle that it names, since there is no such buffer.
fn missed_without(cycles: u16, expectation: &Expectation) -> Option<Missed>
    ensures { result ≡ missed_with cycles expectation.now (λ cycle. found.NoBuffer) }
{
    let mut missed = None;
    for cycle in 0..cycles {
        if !expectation.cycles.names(usize::from(cycle)) {
            continue;
        }
        judge(&mut missed, expectation, cycle, Found::NoBuffer);
    }
    missed
}

/// Returns the expectation if a cycle misses it, by the receive buffer with this filter.
fn missed_along(
    cycles: u16,
    interface: &Interface,
    filter: &Filter,
    expectation: &Expectation,
) -> Option<Missed>
    ensures { result ≡ missed_with cycles expectation.now (found_with interface.now (Some filter.now)) }
{
    let mut place = Place {
        next: 0,
        begun: 0,
        held: None,
    };
    let mut missed = None;
    for cycle in 0..cycles {
        if !expectation.cycles.names(usize::from(cycle)) {
            continue;
        }
        go_to_end(interface, filter, &mut place, cycle);
        let found = found_left(&place.held);
        judge(&mut missed, expectation, cycle, found);
    }
    missed
}

/// Returns the interface of the node, if the cluster has it.
fn interface_of(interfaces: &[Interface], node: NodeId) -> Option<&Interface>
    ensures { option_map (λ interface. interface.now) result ≡ slice_get interfaces.now node }
{
    interfaces.get(usize::from(node.number()))
}

/// Returns the filter of a receive buffer.
fn receive_filter(buffer: &Option<Buffer>) -> Option<Filter>
    ensures { result ≡ receive_filter buffer.now }
{
    match buffer {
        Some(buffer) if buffer.mode.is_receive() => Some(buffer.filter),
        _ => None,
    }
}

/// Returns the expectation if a cycle of the run misses it.
fn missed_of(cycles: u16, interfaces: &[Interface], expectation: &Expectation) -> Option<Missed>
    ensures { result ≡ missed_with cycles expectation.now (found_in interfaces.now expectation.now) }
{
    let Some(interface) = interface_of(interfaces, expectation.node) else {
        return missed_without(cycles, expectation);
    };
    let buffer = interface.plan().buffer(expectation.buffer);
    match receive_filter(&buffer) {
        Some(filter) => missed_along(cycles, interface, &filter, expectation),
        None => missed_without(cycles, expectation),
    }
}

/// Returns the expectations that a run missed, in their order (project-defined).
///
/// The run has so many cycles, and the interfaces of its nodes are those at its end. An expectation is missed if a
/// cycle of the run that it names ends with another content of the buffer. The end of a cycle is after the last entry
/// of the node's journal before the next cycle begins, or at the end of the journal. If the cluster has no such node,
/// or no receive buffer of this number there, an expectation is missed in each cycle of the run that it names.
///
/// Fails if an allocation fails.
pub fn missed_in(
    alloc: Global,
    cycles: u16,
    interfaces: &[Interface],
    expectations: &[Expectation],
) -> Result<Vec<Missed>, AllocError>
    ensures { IfOk result (λ missed. missed.items ≡ missed_by cycles interfaces.now expectations.now) }
{
    let mut missed = Vec::new(alloc);
    for expectation in expectations {
        if let Some(one) = missed_of(cycles, interfaces, expectation) {
            missed.push(one)?;
        }
    }
    Ok(missed)
}
