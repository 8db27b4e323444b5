//! The effects of an observed window on the receive buffers, the receive FIFO and the counters.

ghost use Rattle.std.specs.Prelude.{◌≡◌, ◌+◌, ◌<◌, ◌^◌, length, is_some, None, true, if◌then◌else◌, option_map, IfSome};
ghost use Rattle.std.specs.List.{list_any};
ghost use Rattle.std.specs.Option.{option_and_then, option_copied, option_or, ForSome};
ghost use Rattle.fr_interface.specs.Known.{frame_on, taken_by, stored_all, with_arrival, with_arrivals};
ghost use Rattle.fr_interface.specs.Known.{with_seen};
ghost use Rattle.fr_interface.specs.Ranges.{IsTakingRange};
ghost use Rattle.fr_interface.specs.Seeing.{IsQuiet, status_seen};
ghost use Rattle.fr_journal.specs.Arrivals.{takes_window, is_for_queue};
ghost use Rattle.fr_journal.specs.Held.{arrival_of, data_frame_seen, with_data};
ghost use Rattle.fr_slots.specs.Parameters.{Parameters};
ghost use Rattle.fr_slots.specs.Windows.{slot_of};
ghost use Rattle.fr_status.specs.Checks.{IsCheckSeen};
ghost use Rattle.fr_status.specs.Counting.{HasRoom};
ghost use Rattle.fr_status.specs.Status.{no_bit};
ghost use Rattle.fr_status.specs.declared.seen.Seen.TheVariants as Sees;

use crate::index::{IndexedPlan, LineRange};
use fr_buffers::queue::ReceiveQueue;
use fr_buffers::receive::RxBuffer;
use fr_frame::frame::Frame;
use fr_frame::lent::LentFrame;
use fr_journal::entry::Moment;
use fr_slots::channel::Channel;
use fr_slots::params::Params;
use fr_slots::plan::{Buffer, Queue};
use fr_slots::window::Window;
use fr_status::counters::Counters;
use fr_status::seen::Seen;
use fr_status::status::{SlotStatus, lent_status_by};

/// The status of a slot in which no transmission of another node was observed.
const NO_BIT: SlotStatus = SlotStatus {
    valid: false,
    syntax: false,
    content: false,
    boundary: false,
    conflict: false,
};

/// The status of a slot in which the node's own transmission collided with another one.
const TRANSMISSION_CONFLICT: SlotStatus = SlotStatus {
    conflict: true,
    ..NO_BIT
};

/// The status of the slot on a channel of a window, and the valid data frame in it. The payload of the frame stays
/// among the observed bytes. A channel without a slot has neither.
#[derive(Drop)]
pub(crate) struct Told<'a> {
    pub status: Option<SlotStatus>,
    pub frame: Option<LentFrame<'a>>,
}

/// Returns whether no transmission of another node was observed.
#[tactic(auto, unfolding(fr_status::specs::Status::status_in, fr_status::specs::Status::frame_in))]
pub(crate) fn is_quiet(seen: &Seen) -> bool
    ensures { result ≡ true → IsQuiet seen.now }
{
    match seen {
        Seen::Silence => true,
        Seen::Own => true,
        _ => false,
    }
}

impl<'a> Told<'a> {
    /// Returns the status and the frame of an observation on the channel.
    pub(crate) fn of(params: &Params, window: &Window, channel: Channel, seen: &'a Seen) -> Told<'a>
        ensures status { result.status ≡ status_seen params.now window.now channel seen.now }
        ensures frame { result.frame ≡ data_frame_seen params.now window.now channel seen.now }
    {
        Told::by(params, window, channel, seen, None)
    }

    /// Returns the same as `of`. `check` is the calculated frame CRC of the observed bytes, if it is known.
    pub(crate) fn by(
        params: &Params,
        window: &Window,
        channel: Channel,
        seen: &'a Seen,
        check: Option<u32>,
    ) -> Told<'a>
        requires { IfSome check (λ n. IsCheckSeen channel seen.now n) }
        ensures status { result.status ≡ status_seen params.now window.now channel seen.now }
        ensures frame { result.frame ≡ data_frame_seen params.now window.now channel seen.now }
    {
        let Some(slot) = window.slot(channel) else {
            return Told {
                status: None,
                frame: None,
            };
        };
        // Most windows show nothing to most nodes.
        if is_quiet(seen) {
            return Told {
                status: Some(NO_BIT),
                frame: None,
            };
        }
        let (status, frame) = lent_status_by(params, window.cycle, slot, channel, seen, check);
        Told {
            status: Some(status),
            frame: data_frame(frame),
        }
    }

    /// Returns what follows if only the node's own transmission passed.
    #[tactic(auto, unfolding(fr_status::specs::Status::status_in, fr_status::specs::Status::frame_in))]
    pub(crate) fn of_own(window: &Window, channel: Channel) -> Told<'a>
        ensures status { (p : Parameters) → result.status ≡ status_seen p window.now channel Sees.Own }
        ensures frame { (p : Parameters) → result.frame ≡ data_frame_seen p window.now channel Sees.Own }
    {
        let status = match window.slot(channel) {
            Some(_) => Some(NO_BIT),
            None => None,
        };
        Told {
            status,
            frame: None,
        }
    }

    /// Returns what follows if several transmissions passed, with the node's own among them.
    #[tactic(auto, unfolding(fr_status::specs::Status::status_in, fr_status::specs::Status::frame_in))]
    pub(crate) fn of_conflict(window: &Window, channel: Channel) -> Told<'a>
        ensures status { (p : Parameters) → result.status ≡ status_seen p window.now channel Sees.Conflict }
        ensures frame { (p : Parameters) → result.frame ≡ data_frame_seen p window.now channel Sees.Conflict }
    {
        let status = match window.slot(channel) {
            Some(_) => Some(TRANSMISSION_CONFLICT),
            None => None,
        };
        Told {
            status,
            frame: None,
        }
    }
}

/// Returns the frame, unless it is a null frame.
fn data_frame(frame: Option<LentFrame<'_>>) -> Option<LentFrame<'_>>
    ensures { result ≡ option_and_then with_data frame.entry }
{
    frame.filter(|frame| frame.has_data)
}

/// Returns the status of a channel on which nothing was seen that sets a bit, if it has a slot.
pub(crate) fn quiet_status(window: &Window, channel: Channel) -> Option<SlotStatus>
    ensures { result ≡ option_map (λ slot. no_bit) (slot_of window.now channel) }
{
    match window.slot(channel) {
        Some(_) => Some(NO_BIT),
        None => None,
    }
}

/// Counts the slot of this status on the channel, if the channel has one.
pub(crate) fn count_seen(counters: &mut Counters, channel: Channel, status: Option<SlotStatus>)
    requires { (s : SlotStatus) → HasRoom counters.old channel s }
    ensures { counters.new ≡ with_seen counters.old channel status }
{
    if let Some(status) = status {
        counters.count(channel, &status);
    }
}

/// Stores a data frame of the channel if the buffer admits the window, and returns whether it did.
fn store_on(
    buffer: &mut RxBuffer,
    line: &Buffer,
    moment: Moment,
    window: &Window,
    channel: Channel,
    frame: &Option<LentFrame<'_>>,
) -> bool
    ensures stored { buffer.new ≡ option_or (frame_on moment window.now channel frame.now line.now) buffer.old }
    ensures told { result ≡ is_some (frame_on moment window.now channel frame.now line.now) }
{
    match frame {
        Some(frame) if line.filter.admits_window(window, channel) => {
            buffer.store_lent(moment, channel, frame);
            true
        }
        _ => false,
    }
}

/// Stores the data frame that the buffer admits of those in a window.
fn store_in(
    buffer: &mut RxBuffer,
    line: &Buffer,
    moment: Moment,
    window: &Window,
    a: &Option<LentFrame<'_>>,
    b: &Option<LentFrame<'_>>,
)
    ensures { buffer.new ≡ option_or (taken_by moment window.now a.now b.now line.now) buffer.old }
{
    if line.mode.is_receive() && !store_on(buffer, line, moment, window, Channel::A, a) {
        let _ = store_on(buffer, line, moment, window, Channel::B, b);
    }
}

/// Returns a range that holds all buffers that may store this data frame of the channel.
fn taking_range(
    plan: &IndexedPlan,
    window: &Window,
    channel: Channel,
    frame: &Option<LentFrame<'_>>,
) -> LineRange
    ensures { IsTakingRange plan.now.buffers window.now channel frame.now result }
{
    match window.slot(channel) {
        Some(slot) if frame.is_some() => plan.buffer_range(slot),
        _ => LineRange::EMPTY,
    }
}

/// Stores in each receive buffer the data frame that it admits of those in a window.
pub(crate) fn store_all(
    buffers: &mut [RxBuffer],
    plan: &IndexedPlan,
    moment: Moment,
    window: &Window,
    a: &Option<LentFrame<'_>>,
    b: &Option<LentFrame<'_>>,
)
    requires { length buffers.old ≡ length plan.now.buffers }
    ensures { buffers.new ≡ stored_all moment window.now a.now b.now plan.now.buffers buffers.old }
{
    let range_a = taking_range(plan, window, Channel::A, a);
    let range_b = taking_range(plan, window, Channel::B, b);
    let range = range_a.joined(range_b);
    let lines = plan.as_plan().buffers();
    for place in usize::from(range.first)..usize::from(range.end) {
        let buffer = &mut buffers[place];
        store_in(buffer, &lines[place], moment, window, a, b);
    }
}

/// Returns whether this is a receive buffer that admits the window on the channel.
fn takes(window: &Window, channel: Channel, buffer: &Buffer) -> bool
    ensures { result ≡ takes_window window.now channel buffer.now }
{
    buffer.mode.is_receive() && buffer.filter.admits_window(window, channel)
}

/// Returns whether one of the buffers is a receive buffer that admits the window on the channel.
fn is_taken(buffers: &[Buffer], window: &Window, channel: Channel) -> bool
    ensures { result ≡ list_any (takes_window window.now channel) buffers.now }
{
    buffers.iter().any(|buffer| takes(window, channel, buffer))
}

/// Returns whether the receive FIFO, and no receive buffer, admits the window on the channel.
fn is_for_queue(plan: &IndexedPlan, queue: &Queue, window: &Window, channel: Channel) -> bool
    ensures { result ≡ is_for_queue plan.now queue.now window.now channel }
{
    let Some(slot) = window.slot(channel) else {
        return false;
    };
    let buffers = plan.buffer_range(slot).of(plan.as_plan().buffers());
    queue.admits(window.cycle, slot, channel) && !is_taken(buffers, window, channel)
}

/// Returns the data frame of the channel, if one came and the receive FIFO stores it.
fn frame_for_queue<'a, 'b>(
    plan: &IndexedPlan,
    queue: &Queue,
    window: &Window,
    channel: Channel,
    frame: &'a Option<LentFrame<'b>>,
) -> Option<&'a LentFrame<'b>>
    ensures { option_copied result
        ≡ (if is_for_queue plan.now queue.now window.now channel then frame.now else None) }
{
    match frame {
        Some(frame) if is_for_queue(plan, queue, window, channel) => Some(frame),
        _ => None,
    }
}

/// Appends the data frame of the channel to the receive FIFO, if the FIFO stores it.
fn arrive(
    waiting: &mut ReceiveQueue,
    moment: Moment,
    channel: Channel,
    frame: Option<&LentFrame<'_>>,
)
    requires { waiting.old.lost + 1 < 2 ^ 32 }
    ensures { waiting.new ≡ with_arrival waiting.old
        (option_map (arrival_of moment channel) (option_copied frame.entry)) }
{
    if let Some(frame) = frame {
        waiting.arrive(moment, channel, Frame::from_lent(frame));
    }
}

/// Appends the admitted data frames of a window to the receive FIFO, channel A's before B's. A plan without a receive
/// FIFO stores none.
pub(crate) fn arrive_all(
    queue: &mut Option<ReceiveQueue>,
    plan: &IndexedPlan,
    moment: Moment,
    window: &Window,
    a: &Option<LentFrame<'_>>,
    b: &Option<LentFrame<'_>>,
)
    requires { ForSome queue.old (λ w. w.lost + 2 < 2 ^ 32) }
    ensures { queue.new ≡ with_arrivals plan.now moment window.now a.now b.now plan.now.queue queue.old }
{
    if let Some(line) = plan.queue() {
        if let Some(waiting) = queue {
            let a = frame_for_queue(plan, &line, window, Channel::A, a);
            let b = frame_for_queue(plan, &line, window, Channel::B, b);
            arrive(waiting, moment, Channel::A, a);
            arrive(waiting, moment, Channel::B, b);
        }
    }
}
