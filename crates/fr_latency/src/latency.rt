//! The latency of a transmit buffer: from a commit to the end of its frame, in the worst case.

ghost use Rattle.std.specs.Prelude.{◌≡◌, ◌≤◌, ◌<◌, ◌+◌, ◌-◌, ◌*◌, ◌%◌, ◌&&◌, ◌||◌, if◌then◌else◌, not, length};
ghost use Rattle.std.specs.Prelude.{slice_index, ℕ};
ghost use Rattle.std.specs.Prelude.{Bool, true, false};
ghost use Rattle.fr_schedule.specs.Clusters.{IsCluster};
ghost use Rattle.fr_slots.specs.Admission.{cycle_admitted};
ghost use Rattle.fr_slots.specs.Faults.{transmits, latest_on, minislots_filled, words_of};
ghost use Rattle.fr_slots.specs.Numbers.{cycle_count};
ghost use Rattle.fr_slots.specs.Parameters.{is_static_slot};
ghost use Rattle.fr_latency.specs.Below.{all_below, any_below, count_below, most_below};
ghost use Rattle.fr_latency.specs.Latencies.{channel_of, before_slot, distance, earliest_start, first_opening_of};
ghost use Rattle.fr_latency.specs.Latencies.{guaranteed_cycles, if_dynamic, is_ever_in_time, is_guaranteed};
ghost use Rattle.fr_latency.specs.Latencies.{is_possible, last_in_cycles};
ghost use Rattle.fr_latency.specs.Latencies.{latency_of, latest_end, latest_for, state_of, unless_zero, wait_if};
ghost use Rattle.fr_latency.specs.Latencies.{worst_latency};
ghost use Rattle.fr_latency.specs.Tables.{AreAnswers, AreNumbers, AreOpenings, HasRow, IsUsedFor};

use crate::openings::{Openings, Row, UNUSED};
use fr_schedule::cluster::Cluster;
use fr_slots::channel::{Channel, Channels};
use fr_slots::filter::CycleFilter;
use fr_slots::numbers::{CYCLES, Cycle};
use fr_slots::params::Params;
use fr_slots::plan::{Buffer, NodePlan};
use fr_timing::segments::segments_of;

/// A kind of transmit buffer (project-defined).
#[derive(Clone, Copy, Debug, PartialEq, Eq)]
pub enum State {
    /// In each cycle of its filter its frame is sent, whatever the others send.
    Guaranteed,
    /// In some cycle it can be sent.
    Possible,
    /// Its slot never opens in time.
    Blocked,
    /// Its node has no task that could commit.
    Idle,
}

/// The latency of a transmit buffer, in runs without faults (project-defined).
#[derive(Clone, Copy)]
pub struct Latency {
    /// The first minislot at which the slot of a dynamic buffer opens, if it ever does.
    pub first: Option<u16>,
    /// The last one, in the cycles of its filter.
    pub last: Option<u16>,
    /// The latest minislot at which the node begins a frame of a dynamic buffer (pLatestTx).
    pub latest: Option<u16>,
    /// The kind of buffer.
    pub state: State,
    /// The number of cycles of the 64 in which a pending commit is always sent.
    pub cycles: u8,
    /// The greatest number of macroticks from a commit to the end of its frame, if there is such a cycle.
    pub worst: Option<u64>,
}

/// Returns the channel of a dynamic transmit buffer, which is never for both.
pub(crate) fn channel_of(buffer: &Buffer) -> Channel
    ensures { result ≡ channel_of buffer.now.filter.channels }
{
    match buffer.filter.channels {
        Channels::A | Channels::Both => Channel::A,
        Channels::B => Channel::B,
    }
}

/// Returns the number of dynamic slots before the slot of a buffer.
fn before_slot(cluster: &Cluster, buffer: &Buffer) -> u16
    ensures value { result ≡ before_slot cluster.now buffer.now }
    ensures few { result ≤ 2047 }
{
    let first = cluster.params().static_slots + 1;
    buffer.filter.slot.number().saturating_sub(first)
}

/// Returns for each cycle whether a pending commit is always sent then.
fn guaranteed(cluster: &Cluster, plan: &NodePlan, buffer: &Buffer, row: &Row) -> [bool; 64]
    requires { HasRow cluster.now buffer.now row.now }
    ensures { AreAnswers (is_guaranteed cluster.now plan.now buffer.now) result }
{
    let is_static = cluster.params().is_static(buffer.filter.slot);
    let latest = plan.latest(channel_of(buffer));
    let mut answers = [false; 64];
    for number in 0..CYCLES {
        let place = usize::from(number);
        let admitted = buffer.filter.cycles.admits(Cycle::from_bits(number));
        answers[place] = admitted && (is_static || row.begin[place] <= latest);
    }
    answers
}

/// Returns for each cycle the latest end of the buffer's frame, in macroticks from the start of the cycle.
fn ends(cluster: &Cluster, buffer: &Buffer, row: &Row) -> [u32; 64]
    requires { HasRow cluster.now buffer.now row.now }
    ensures { AreNumbers (latest_end cluster.now buffer.now) result }
{
    let mut ends = [0; 64];
    for number in 0..CYCLES {
        let place = usize::from(number);
        ends[place] = latest_end(cluster.params(), buffer, row.begin[place]);
    }
    ends
}

/// Returns the end of a frame of the buffer, in macroticks from the start of the cycle. A dynamic frame begins at this
/// minislot, and the minislots that stay idle after it don't count.
fn latest_end(params: &Params, buffer: &Buffer, begin: u16) -> u32
    ensures { result ≡ (if is_static_slot params.now buffer.now.filter.slot
        then buffer.now.filter.slot * params.now.static_mt
        else params.now.static_slots * params.now.static_mt
        + (begin - 1 + minislots_filled params.now (words_of params.now buffer.now)) * params.now.minislot_mt) }
{
    if params.is_static(buffer.filter.slot) {
        return u32::from(buffer.filter.slot.number()) * u32::from(params.static_mt);
    }
    let filled = (buffer.words(params) + 4).div_ceil(params.words_per_minislot);
    let minislots = u32::from(begin.saturating_sub(1)) + u32::from(filled);
    segments_of(params).dynamic + minislots * u32::from(params.minislot_mt)
}

/// Returns the earliest start of the buffer's slot, in macroticks from the start of the cycle.
fn earliest_start(cluster: &Cluster, buffer: &Buffer) -> u32
    ensures { result ≡ earliest_start cluster.now buffer.now }
{
    let params = cluster.params();
    if params.is_static(buffer.filter.slot) {
        return u32::from(buffer.filter.slot.number() - 1) * u32::from(params.static_mt);
    }
    let earlier = before_slot(cluster, buffer);
    segments_of(params).dynamic + u32::from(earlier) * u32::from(params.minislot_mt)
}

/// Returns the number of cycles until the next one with the answer `true`, 1 to 64.
fn distance(answers: &[bool; 64], cycle: usize) -> usize
    requires { cycle < cycle_count }
    ensures value { (test : ℕ → Bool) → AreAnswers test answers.now → result ≡ distance test cycle }
    ensures few { result ≤ 64 }
{
    for later in 1..64 {
        if answers[(cycle + later) % 64] {
            return later;
        }
    }
    64
}

/// Returns the number of macroticks from just after the start in this cycle to the end in the next one.
///
/// It is 0 for a cycle with the answer `false`.
fn wait_if(params: &Params, answers: &[bool; 64], start: u32, ends: &[u32; 64], cycle: usize) -> u64
    requires { cycle < cycle_count }
    ensures { (test : ℕ → Bool) (end : ℕ → ℕ) → AreAnswers test answers.now → AreNumbers end ends.now
        → result ≡ wait_if params.now.cycle_mt test start end cycle }
{
    if !answers[cycle] {
        return 0;
    }
    let later = distance(answers, cycle);
    let end = u64::from(ends[(cycle + later) % 64]);
    (later as u64 * u64::from(params.cycle_mt) + end).saturating_sub(u64::from(start))
}

/// Returns the greatest number of macroticks from just after the start in a cycle to the end in the next one.
fn worst(params: &Params, answers: &[bool; 64], start: u32, ends: &[u32; 64]) -> u64
    ensures { (test : ℕ → Bool) (end : ℕ → ℕ) → AreAnswers test answers.now → AreNumbers end ends.now
        → result ≡ most_below (wait_if params.now.cycle_mt test start end) cycle_count }
{
    let mut most = 0;
    for cycle in 0..64 {
        most = wait_if(params, answers, start, ends, cycle).max(most);
    }
    most
}

/// Returns whether all of the admitted cycles have the answer `true`.
fn are_all(cycles: CycleFilter, answers: &[bool; 64]) -> bool
    ensures { (test : ℕ → Bool) → AreAnswers test answers.now
        → result ≡ all_below (λ cycle. not (cycle_admitted cycles cycle) || test cycle) cycle_count }
{
    let mut all = true;
    for number in 0..CYCLES {
        let admitted = cycles.admits(Cycle::from_bits(number));
        all = all && (!admitted || answers[usize::from(number)]);
    }
    all
}

/// Returns the number of answers `true`.
fn count(answers: &[bool; 64]) -> u8
    ensures { (test : ℕ → Bool) → AreAnswers test answers.now → result ≡ count_below test cycle_count }
{
    let mut count = 0;
    for number in 0..CYCLES {
        if answers[usize::from(number)] {
            count += 1;
        }
    }
    count
}

/// Returns whether the frame of the buffer can be sent in a cycle of its filter. The earliest start of its slot is the
/// same in every cycle.
fn is_ever_in_time(cluster: &Cluster, plan: &NodePlan, buffer: &Buffer) -> bool
    ensures { (cycle : ℕ)
        → result
        ≡ (is_static_slot cluster.now.params buffer.now.filter.slot
        || is_ever_in_time cluster.now plan.now buffer.now cycle) }
{
    cluster.params().is_static(buffer.filter.slot)
        || before_slot(cluster, buffer) < plan.latest(channel_of(buffer))
}

/// Returns whether the frame of the buffer can be sent in some cycle of its filter.
fn is_ever(cluster: &Cluster, plan: &NodePlan, buffer: &Buffer) -> bool
    ensures { result ≡ any_below (is_possible cluster.now plan.now buffer.now) cycle_count }
{
    let in_time = is_ever_in_time(cluster, plan, buffer);
    let mut ever = false;
    for number in 0..CYCLES {
        let admitted = buffer.filter.cycles.admits(Cycle::from_bits(number));
        ever = ever || (admitted && in_time);
    }
    ever
}

/// Returns the kind of a transmit buffer, from the cycles in which a pending commit is always sent.
fn state_of(cluster: &Cluster, plan: &NodePlan, buffer: &Buffer, answers: &[bool; 64]) -> State
    requires { AreAnswers (is_guaranteed cluster.now plan.now buffer.now) answers.now }
    ensures { result ≡ state_of cluster.now plan.now buffer.now }
{
    if plan.tasks() == 0 {
        State::Idle
    } else if are_all(buffer.filter.cycles, answers) {
        State::Guaranteed
    } else if is_ever(cluster, plan, buffer) {
        State::Possible
    } else {
        State::Blocked
    }
}

/// Returns the last minislot at which the slot of a dynamic buffer opens in the cycles of its filter, or 0.
fn last_in_cycles(cluster: &Cluster, buffer: &Buffer, row: &Row) -> u16
    requires dynamic { is_static_slot cluster.now.params buffer.now.filter.slot ≡ false }
    requires row { HasRow cluster.now buffer.now row.now }
    ensures { result ≡ last_in_cycles cluster.now buffer.now }
{
    let mut most = 0;
    for number in 0..CYCLES {
        if buffer.filter.cycles.admits(Cycle::from_bits(number)) {
            most = row.opening[usize::from(number)].max(most);
        }
    }
    most
}

/// Returns the first minislot at which the slot of a dynamic buffer opens, or 0.
fn first_opening_of(cluster: &Cluster, buffer: &Buffer) -> u16
    ensures { result ≡ first_opening_of cluster.now buffer.now }
{
    let first = before_slot(cluster, buffer) + 1;
    if first <= cluster.params().minislots {
        first
    } else {
        0
    }
}

/// Returns the number, unless it is 0.
fn unless_zero(number: u16) -> Option<u16>
    ensures { result ≡ unless_zero number }
{
    if number == 0 { None } else { Some(number) }
}

/// Returns the worst latency of a transmit buffer, from the cycles in which a pending commit is always sent.
fn worst_latency(
    cluster: &Cluster,
    plan: &NodePlan,
    buffer: &Buffer,
    row: &Row,
    answers: &[bool; 64],
) -> Option<u64>
    requires row { HasRow cluster.now buffer.now row.now }
    requires answers { AreAnswers (is_guaranteed cluster.now plan.now buffer.now) answers.now }
    ensures { result ≡ worst_latency cluster.now plan.now buffer.now }
{
    if plan.tasks() == 0 {
        return None;
    }
    let start = earliest_start(cluster, buffer);
    let worst = worst(
        cluster.params(),
        answers,
        start,
        &ends(cluster, buffer, row),
    );
    if worst == 0 { None } else { Some(worst) }
}

/// Returns the row of the buffer's slot, or an unused one for a static buffer.
pub(crate) fn row_of(openings: &Openings, cluster: &Cluster, buffer: &Buffer) -> Row
    requires openings { AreOpenings cluster.now openings.now }
    requires used { IsUsedFor cluster.now buffer.now }
    requires transmits { transmits buffer.now ≡ true }
    ensures { HasRow cluster.now buffer.now result }
{
    if cluster.params().is_static(buffer.filter.slot) {
        return UNUSED;
    }
    let place = usize::from(before_slot(cluster, buffer));
    match channel_of(buffer) {
        Channel::A => openings.a[place],
        Channel::B => openings.b[place],
    }
}

/// Returns the latency of a transmit buffer of the node.
pub fn latency_of(
    openings: &Openings,
    cluster: &Cluster,
    plan: &NodePlan,
    buffer: &Buffer,
) -> Latency
    requires openings { AreOpenings cluster.now openings.now }
    requires used { IsUsedFor cluster.now buffer.now }
    requires transmits { transmits buffer.now ≡ true }
    ensures { result ≡ latency_of cluster.now plan.now buffer.now }
{
    let row = row_of(openings, cluster, buffer);
    let answers = guaranteed(cluster, plan, buffer, &row);
    let state = state_of(cluster, plan, buffer, &answers);
    let cycles = if plan.tasks() == 0 {
        0
    } else {
        count(&answers)
    };
    let worst = worst_latency(cluster, plan, buffer, &row, &answers);
    if cluster.params().is_static(buffer.filter.slot) {
        return Latency {
            first: None,
            last: None,
            latest: None,
            state,
            cycles,
            worst,
        };
    }
    Latency {
        first: unless_zero(first_opening_of(cluster, buffer)),
        last: unless_zero(last_in_cycles(cluster, buffer, &row)),
        latest: Some(plan.latest(channel_of(buffer))),
        state,
        cycles,
        worst,
    }
}
