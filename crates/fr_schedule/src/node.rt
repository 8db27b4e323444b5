//! Reading the table of a node, without its buffers.

ghost use Rattle.std.specs.Prelude.{◌≡◌, ◌≤◌, [], true, None, length, map, option_map, IfSome};
ghost use Rattle.fr_schedule.specs.TableReading.{all_of};
ghost use Rattle.fr_schedule.specs.NodeTables.{own_in, own_of, queue_in, queue_of, filter_in, words_in};
ghost use Rattle.fr_schedule.specs.NodeTables.{transmit_buffer_in, buffer_by, buffer_in, buffer_of};
ghost use Rattle.fr_schedule.specs.NodeTables.{limits_in, owning, with_owned_in, with_queue_in, head_in};
ghost use Rattle.fr_slots.specs.Numbers.{most_lines};
ghost use Rattle.fr_slots.specs.Plans.{own_fits, queue_fits, buffer_fits, with_queue};
ghost use Rattle.toml.specs.View.{view, table_view};

use crate::table::{
    channels_in, cycles_in, flag_at, mode_in, number_at, number_or, slot_at, tables_at,
};
use fr_params::table::value_under;
use fr_slots::filter::Filter;
use fr_slots::numbers::{LAST_SLOT, SlotId, TASKS};
use fr_slots::params::{MOST_WORDS, Params};
use fr_slots::plan::{
    Buffer, FRAMES, HOST_ENTRIES, Mode, NodePlan, Own, Queue, SLOT_ENTRIES, buffer_fits, own_fits,
    queue_fits,
};
use toml::{Table, Value};

// The greatest numbers that a table may hold, in the type of the numbers that are read.
const MOST_TASKS: u32 = TASKS as u32;

const MOST_FRAMES: u32 = FRAMES as u32;

const MOST_HOST_ENTRIES: u32 = HOST_ENTRIES as u32;

const LARGEST_PAYLOAD: u32 = MOST_WORDS as u32;

/// Returns the ownership line in the table.
#[tactic(auto, unfolding(crate::specs::NodeTables::own_in))]
fn own_in(params: &Params, table: &Table) -> Option<Own>
    ensures value { result ≡ own_in params.now (table_view table.now) }
    ensures fits { IfSome result (λ own. own_fits own ≡ true) }
{
    let slot = slot_at(table, "slot", params.static_slots)?;
    let channels = channels_in(table)?;
    let cycles = cycles_in(table)?;
    let sync = flag_at(table, "sync")?;
    let startup = flag_at(table, "startup")?;
    let own = Own {
        slot,
        channels,
        cycles,
        sync,
        startup,
    };
    if own_fits(&own) { Some(own) } else { None }
}

/// Returns the ownership line in the value.
#[tactic(auto, unfolding(crate::specs::NodeTables::own_of))]
fn own_of(params: &Params, value: &Value) -> Option<Own>
    ensures value { result ≡ own_of params.now (view value.now) }
    ensures fits { IfSome result (λ own. own_fits own ≡ true) }
{
    let table = value.as_table()?;
    own_in(params, table)
}

/// Returns the receive FIFO in the table.
#[tactic(auto, unfolding(crate::specs::NodeTables::queue_in))]
fn queue_in(table: &Table) -> Option<Queue>
    ensures value { result ≡ queue_in (table_view table.now) }
    ensures fits { IfSome result (λ queue. queue_fits queue ≡ true) }
{
    let capacity = number_at(table, "capacity", 1, MOST_FRAMES)?;
    let first = slot_at(table, "first", LAST_SLOT)?;
    let last = slot_at(table, "last", LAST_SLOT)?;
    let channels = channels_in(table)?;
    let cycles = cycles_in(table)?;
    let capacity = capacity as u16;
    let queue = Queue {
        capacity,
        first,
        last,
        channels,
        cycles,
    };
    if queue_fits(&queue) {
        Some(queue)
    } else {
        None
    }
}

/// Returns the receive FIFO in the value.
#[tactic(auto, unfolding(crate::specs::NodeTables::queue_of))]
fn queue_of(value: &Value) -> Option<Queue>
    ensures value { result ≡ queue_of (view value.now) }
    ensures fits { IfSome result (λ queue. queue_fits queue ≡ true) }
{
    let table = value.as_table()?;
    queue_in(table)
}

/// Returns the slot, channels and cycles of a buffer.
#[tactic(auto, unfolding(crate::specs::NodeTables::filter_in))]
fn filter_in(table: &Table) -> Option<Filter>
    ensures { result ≡ filter_in (table_view table.now) }
{
    let slot = slot_at(table, "slot", LAST_SLOT)?;
    let channels = channels_in(table)?;
    let cycles = cycles_in(table)?;
    Some(Filter {
        slot,
        channels,
        cycles,
    })
}

/// Returns the words of a transmit buffer for the slot; for a static slot the key isn't read.
#[tactic(auto, unfolding(crate::specs::NodeTables::words_in))]
fn words_in(params: &Params, slot: SlotId, table: &Table) -> Option<Option<u8>>
    ensures { result ≡ words_in params.now slot (table_view table.now) }
{
    if params.is_static(slot) {
        return Some(None);
    }
    let words = number_at(table, "words", 0, LARGEST_PAYLOAD)?;
    Some(Some(words as u8))
}

/// Returns the transmit buffer in the table.
#[tactic(auto, unfolding(crate::specs::NodeTables::transmit_buffer_in))]
fn transmit_buffer_in(params: &Params, mode: Mode, filter: Filter, table: &Table) -> Option<Buffer>
    ensures value { result ≡ transmit_buffer_in params.now mode filter (table_view table.now) }
    ensures fits { IfSome result (λ buffer. buffer_fits buffer ≡ true) }
{
    let preamble = flag_at(table, "preamble")?;
    let words = words_in(params, filter.slot, table)?;
    let buffer = Buffer {
        mode,
        filter,
        words,
        preamble,
    };
    if buffer_fits(&buffer) {
        Some(buffer)
    } else {
        None
    }
}

/// Returns the buffer of this mode and filter in the table.
#[tactic(auto, unfolding(crate::specs::NodeTables::buffer_by))]
fn buffer_by(params: &Params, mode: Mode, filter: Filter, table: &Table) -> Option<Buffer>
    ensures value { result ≡ buffer_by params.now mode filter (table_view table.now) }
    ensures fits { IfSome result (λ buffer. buffer_fits buffer ≡ true) }
{
    match mode {
        Mode::Event | Mode::State => transmit_buffer_in(params, mode, filter, table),
        Mode::Receive => Some(Buffer {
            mode,
            filter,
            words: None,
            preamble: false,
        }),
    }
}

/// Returns the buffer in the table.
#[tactic(auto, unfolding(crate::specs::NodeTables::buffer_in))]
fn buffer_in(params: &Params, table: &Table) -> Option<Buffer>
    ensures value { result ≡ buffer_in params.now (table_view table.now) }
    ensures fits { IfSome result (λ buffer. buffer_fits buffer ≡ true) }
{
    let mode = mode_in(table)?;
    let filter = filter_in(table)?;
    buffer_by(params, mode, filter, table)
}

/// Returns the buffer in the value.
#[tactic(auto, unfolding(crate::specs::NodeTables::buffer_of))]
pub(crate) fn buffer_of(params: &Params, value: &Value) -> Option<Buffer>
    ensures value { result ≡ buffer_of params.now (view value.now) }
    ensures fits { IfSome result (λ buffer. buffer_fits buffer ≡ true) }
{
    let table = value.as_table()?;
    buffer_in(params, table)
}

/// Returns a plan with the limits in a node's table.
#[tactic(auto, unfolding(crate::specs::NodeTables::limits_in))]
fn limits_in(params: &Params, table: &Table) -> Option<NodePlan>
    ensures value { result ≡ limits_in params.now (table_view table.now) }
    ensures no_lines { IfSome result (λ plan. plan.owned ≡ []) }
    ensures no_buffers { IfSome result (λ plan. plan.buffers ≡ []) }
    ensures no_queue { IfSome result (λ plan. plan.queue ≡ None) }
{
    let minislots = u32::from(params.minislots);
    let tasks = number_or(table, "tasks", 0, MOST_TASKS, 1)?;
    let latest_a = number_or(table, "latest_a", 0, minislots, 0)?;
    let latest_b = number_or(table, "latest_b", 0, minislots, 0)?;
    let host_entries = number_or(table, "host_entries", 1, MOST_HOST_ENTRIES, 256)?;
    let slot_entries = number_or(table, "slot_entries", 2, SLOT_ENTRIES, 4096)?;
    let latest = [latest_a as u16, latest_b as u16];
    match NodePlan::new(tasks as u8, latest, host_entries as u16, slot_entries) {
        Ok(plan) => Some(plan),
        Err(_) => None,
    }
}

/// Returns the plan with the ownership lines in the values.
fn owning(params: &Params, lines: &[Value], plan: NodePlan) -> Option<NodePlan>
    requires few { length lines.now ≤ most_lines }
    requires none_yet { plan.owned ≡ [] }
    ensures { result ≡ option_map (owning plan) (all_of (own_of params.now) (map view lines.now)) }
{
    let mut plan = plan;
    for line in lines {
        let own = own_of(params, line)?;
        if plan.add_own(own).is_err() {
            return None;
        }
    }
    Some(plan)
}

/// Returns the plan with the ownership lines in the node's table.
#[tactic(auto, unfolding(crate::specs::NodeTables::with_owned_in))]
fn with_owned_in(params: &Params, table: &Table, plan: NodePlan) -> Option<NodePlan>
    requires { plan.owned ≡ [] }
    ensures { result ≡ with_owned_in params.now (table_view table.now) plan }
{
    let lines = tables_at(table, "own")?;
    owning(params, lines, plan)
}

/// Returns the plan with the receive FIFO in the value.
fn queueing(value: &Value, plan: NodePlan) -> Option<NodePlan>
    requires { plan.queue ≡ None }
    ensures { result ≡ option_map (with_queue plan) (queue_of (view value.now)) }
{
    let queue = queue_of(value)?;
    let mut plan = plan;
    match plan.set_queue(queue) {
        Ok(()) => Some(plan),
        Err(_) => None,
    }
}

/// Returns the plan with the receive FIFO in the node's table, if there is one.
#[tactic(auto, unfolding(crate::specs::NodeTables::with_queue_in))]
fn with_queue_in(table: &Table, plan: NodePlan) -> Option<NodePlan>
    requires { plan.queue ≡ None }
    ensures { result ≡ with_queue_in (table_view table.now) plan }
{
    match value_under(table, "queue") {
        Some(value) => queueing(value, plan),
        None => Some(plan),
    }
}

/// Returns the plan in a node's table, without its buffers.
#[tactic(auto, unfolding(crate::specs::NodeTables::head_in))]
pub(crate) fn head_in(params: &Params, table: &Table) -> Option<NodePlan>
    ensures value { result ≡ head_in params.now (table_view table.now) }
    ensures no_buffers { IfSome result (λ plan. plan.buffers ≡ []) }
{
    let limits = limits_in(params, table)?;
    let plan = with_owned_in(params, table, limits)?;
    with_queue_in(table, plan)
}
