//! The sender table: the sending node of a slot, on a channel and in a cycle.

ghost use Rattle.std.specs.Prelude.{◌≡◌, ◌+◌, ◌*◌, ◌<◌, ◌≤◌, ◌==◌, not, length, None, Some, IfOk, IfErr, IsTrue};
ghost use Rattle.fr_slots.specs.Faults.{cycles};
ghost use Rattle.fr_slots.specs.Numbers.{IsSlot, cycle_count};
ghost use Rattle.fr_slots.specs.Plans.{Each};
ghost use Rattle.fr_slots.specs.Sharing.{place_of, IsFirst, is_shared, admits_at};
ghost use Rattle.fr_schedule.specs.Claims.{IsClaim, filters_of};
ghost use Rattle.fr_schedule.specs.DenseTable.{occasions, nobody, at_place, first_taken_in, IsRowEntered, is_retaken};
ghost use Rattle.fr_schedule.specs.DenseTable.{is_retaken_on, IsEntered, AreEntered, IsFree, is_admitted_on, free};
ghost use Rattle.fr_schedule.specs.DenseTable.{HasClaims, IsRowFree, IsRowFilled};
ghost use Rattle.fr_schedule.specs.declared.error.ConfigError.TheVariants as error;
ghost use Rattle.fr_schedule.specs.FileFaults.{file_fault};

use crate::claims::{Claim, Lines, claims_of};
use crate::error::ConfigError;
use crate::faults::file_fault;
use fr_slots::channel::Channel;
use fr_slots::filter::CycleFilter;
use fr_slots::numbers::{CYCLES, Cycle, LAST_SLOT, SlotId};
use fr_slots::params::Params;
use fr_slots::plan::NodePlan;
use fr_slots::sharing::{Occasion, earlier};
use std::alloc::{AllocError, Global};

/// The number of cycles in a row of the table, which is for a slot on a channel.
const ROW: usize = CYCLES as usize;

// The lines of all nodes are entered into a table of 262,016 bytes, one for each occasion: the number of the node, or
// 255. The first place that is occupied already is the fault.
/// The number of occasions: 2,047 slots on two channels in 64 cycles.
pub(crate) const OCCASIONS: usize = LAST_SLOT as usize * 2 * ROW;

/// The entry for no node.
pub(crate) const NOBODY: u8 = u8::MAX;

/// A row in which no node sends.
const FREE_ROW: [u8; ROW] = [NOBODY; ROW];

/// Returns the place at which the row of the slot on the channel starts.
fn start_of(slot: SlotId, channel: Channel) -> usize
    ensures place { result + 2 * cycle_count ≡ place_of slot channel 0 }
    ensures within { result + cycle_count ≤ occasions }
    ensures lawful { IsSlot slot }
{
    let earlier = (usize::from(slot.number()) - 1) * 2;
    match channel {
        Channel::A => earlier * ROW,
        Channel::B => (earlier + 1) * ROW,
    }
}

/// Returns the place of the occasion in the table.
pub(crate) fn place_of(slot: SlotId, channel: Channel, cycle: Cycle) -> usize
    ensures place { result + 2 * cycle_count ≡ place_of slot channel cycle }
    ensures within { result < occasions }
    ensures slot { IsSlot slot }
    ensures cycle { cycle < cycle_count }
{
    start_of(slot, channel) + usize::from(cycle.number())
}

/// Returns whether a node is entered at the place.
fn is_taken_at(nodes: &[u8], place: usize) -> bool
    requires { place < length nodes.now }
    ensures { result ≡ not (at_place nodes.now place == nobody) }
{
    nodes[place] != NOBODY
}

/// Returns whether no node is entered in the row that starts there.
fn is_row_free(nodes: &[u8], start: usize) -> bool
    requires { start + cycle_count ≤ length nodes.now }
    ensures { IsTrue result → IsRowFree start nodes.now }
{
    &nodes[start..start + ROW] == FREE_ROW.as_slice()
}

/// Returns the first of the cycles with a node in the row that starts there, cycle by cycle.
fn search_row(nodes: &[u8], start: usize, cycles: CycleFilter) -> Option<Cycle>
    requires { start + cycle_count ≤ length nodes.now }
    ensures { result ≡ first_taken_in nodes.now start cycles }
{
    let step = usize::from(cycles.repetition());
    let first = usize::from(cycles.base());
    for turn in 0..ROW / step {
        let cycle = turn * step + first;
        if is_taken_at(nodes, start + cycle) {
            return Some(Cycle::from_bits(cycle as u8));
        }
    }
    None
}

/// Returns the first of the cycles with a node in the row that starts there. Most rows are free, which is tested first.
fn first_taken_in(nodes: &[u8], start: usize, cycles: CycleFilter) -> Option<Cycle>
    requires { start + cycle_count ≤ length nodes.now }
    ensures { result ≡ first_taken_in nodes.now start cycles }
{
    if is_row_free(nodes, start) {
        None
    } else {
        search_row(nodes, start, cycles)
    }
}

/// Enters the node at every cycle of the row that starts there.
fn fill_row(nodes: &mut [u8], start: usize, node: u8)
    requires { start + cycle_count ≤ length nodes.old }
    ensures { IsRowFilled start node nodes.old nodes.new }
{
    nodes[start..start + ROW].fill(node);
}

/// Enters the node at these cycles of the row that starts there, cycle by cycle.
fn enter_cycles(nodes: &mut [u8], start: usize, cycles: CycleFilter, node: u8)
    requires { start + cycle_count ≤ length nodes.old }
    ensures { IsRowEntered cycle_count start cycles node nodes.old nodes.new }
{
    let step = usize::from(cycles.repetition());
    let first = start + usize::from(cycles.base());
    for turn in 0..ROW / step {
        nodes[first + turn * step] = node;
    }
}

/// Enters the node at these cycles of the row that starts there. Most lines are for every cycle.
fn enter_row(nodes: &mut [u8], start: usize, cycles: CycleFilter, node: u8)
    requires { start + cycle_count ≤ length nodes.old }
    ensures { IsRowEntered cycle_count start cycles node nodes.old nodes.new }
{
    if cycles.repetition() == 1 {
        fill_row(nodes, start, node);
    } else {
        enter_cycles(nodes, start, cycles, node);
    }
}

/// Enters the claim on the channel, and returns its first occasion there that was occupied.
fn enter_on(nodes: &mut [u8], claim: &Claim, channel: Channel) -> Option<Occasion>
    requires { length nodes.old ≡ occasions }
    ensures first { IsFirst (is_retaken_on nodes.old claim.now.filter channel) result }
    ensures entered { IsEntered (is_admitted_on claim.now.filter channel) claim.now.node nodes.old nodes.new }
    ensures lawful { IsClaim claim.now }
{
    let filter = claim.filter;
    let start = start_of(filter.slot, channel);
    let node = claim.node.number();
    if !filter.channels.includes(channel) {
        return None;
    }
    let taken = first_taken_in(nodes, start, filter.cycles);
    enter_row(nodes, start, filter.cycles, node);
    let cycle = taken?;
    Some(Occasion {
        slot: filter.slot,
        channel,
        cycle,
    })
}

/// Enters the claim, and returns its first occasion that was occupied.
fn enter(nodes: &mut [u8], claim: &Claim) -> Option<Occasion>
    requires { length nodes.old ≡ occasions }
    ensures first { IsFirst (is_retaken nodes.old claim.now.filter) result }
    ensures entered { IsEntered
        (λ slot channel cycle. admits_at slot channel cycle claim.now.filter)
        claim.now.node
        nodes.old
        nodes.new }
    ensures lawful { IsClaim claim.now }
{
    let on_a = enter_on(nodes, claim, Channel::A);
    let on_b = enter_on(nodes, claim, Channel::B);
    earlier(on_a, on_b)
}

/// Enters the claims, and returns the first occasion that was occupied or that two claims share.
pub(crate) fn enter_all(nodes: &mut [u8], claims: &[Claim]) -> Option<Occasion>
    requires { length nodes.old ≡ occasions }
    ensures entered { AreEntered claims.now nodes.old nodes.new }
    ensures first { IsFree nodes.old → IsFirst (is_shared (filters_of claims.now)) result }
    ensures lawful { Each IsClaim claims.now }
{
    let mut first = None;
    for claim in claims {
        first = earlier(first, enter(nodes, claim));
    }
    first
}

/// Returns the table without a sender.
fn free_table(alloc: Global) -> Result<Vec<u8>, AllocError>
    ensures { IfOk result (λ nodes. nodes.items ≡ free) }
{
    Ok(vec![in alloc; NOBODY; OCCASIONS]?)
}

/// Clears the table, enters the claims, and returns the first occasion that two claims share.
fn enter_anew(nodes: &mut [u8], claims: &[Claim]) -> Option<Occasion>
    requires { length nodes.old ≡ occasions }
    ensures table { AreEntered claims.now free nodes.new }
    ensures first { IsFirst (is_shared (filters_of claims.now)) result }
    ensures lawful { Each IsClaim claims.now }
{
    nodes.fill(NOBODY);
    enter_all(nodes, claims)
}

// `Cluster::sender` reads the table of buffers, over which the ownership lines are entered.
/// Returns the sender table of the plans, or their first fault.
pub(crate) fn senders_of(
    alloc: Global,
    params: &Params,
    plans: &[NodePlan],
) -> Result<Vec<u8>, ConfigError>
    requires { length plans.now ≤ 16 }
    ensures table { IfOk result (λ nodes. HasClaims plans.now nodes.items) }
    ensures faultless { IfOk result (λ nodes. file_fault params.now plans.now ≡ None) }
    ensures refused { IfErr result (λ e. ¬ (e ≡ error.Memory) → file_fault params.now plans.now ≡ Some e) }
{
    let owned = claims_of(alloc, Lines::Owned, plans)?;
    let transmitting = claims_of(alloc, Lines::Transmitting, plans)?;
    let mut senders = free_table(alloc)?;
    let nodes = senders.as_mut_slice();
    let of_owners = enter_all(nodes, owned.as_slice());
    let of_buffers = enter_anew(nodes, transmitting.as_slice());
    if let Some(fault) = file_fault(params, plans, earlier(of_owners, of_buffers)) {
        return Err(fault);
    }
    let _ = enter_all(nodes, owned.as_slice());
    Ok(senders)
}
