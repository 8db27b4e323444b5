//! The dynamic segment of a channel, with the slots that have a sender in the cycle.

ghost use Rattle.std.specs.Prelude.{◌≡◌, ◌+◌, ◌-◌, ◌<◌, ◌≤◌, ◌^◌, max, OnOk, option_map};
ghost use Rattle.std.specs.List.{find};
ghost use Rattle.fr_picture.specs.Dynamics.{AreSlotTexts, buffer_text, class_text, cycles_text, dynamic_box};
ghost use Rattle.fr_picture.specs.Dynamics.{dynamic_front, first_text, IsDynamicText, IsRoomText, IsSlotText};
ghost use Rattle.fr_picture.specs.Dynamics.{never_class, never_sends, never_words, sender_front};
ghost use Rattle.fr_picture.specs.Dynamics.{sender_numbers, sender_text, sender_title, size_text};
ghost use Rattle.fr_picture.specs.Owners.{Adds};
ghost use Rattle.fr_picture.specs.Shares.{box_left, box_length, end_of_shares, HasSender, IsPlace, room_left};
ghost use Rattle.fr_picture.specs.Shares.{room_length};
ghost use Rattle.fr_slots.specs.Faults.{sends_at};
ghost use Rattle.fr_slots.specs.Numbers.{last_slot};
ghost use Rattle.fr_text.specs.Writing.{Writes};

use crate::scale::{CHANNEL_HEIGHT, NUMBER_LENGTH, across, extent, row_of};
use crate::shares::{Sender, count_senders, length_of_shares, sender_in};
use fr_schedule::cluster::Cluster;
use fr_slots::channel::Channel;
use fr_slots::filter::CycleFilter;
use fr_slots::numbers::{Cycle, LAST_SLOT, NodeId, SlotId};
use fr_slots::params::Params;
use fr_slots::plan::{Buffer, NodePlan};
use fr_svg::elements::{close_group, write_number, write_rect};
use fr_timing::segments::segments_of;
use std::io;
use std::io::Write;

/// The length of a box that has room for the number of a slot.
const SLOT_LENGTH: u64 = 300;

/// Returns whether the buffer sends in the slot.
fn sends_at(buffer: &Buffer, slot: SlotId, channel: Channel, cycle: Cycle) -> bool
    ensures { result ≡ sends_at slot channel cycle buffer.now }
{
    buffer.transmits() && buffer.filter.admits(cycle, slot, channel)
}

/// Returns whether the node never begins a transmission in the dynamic segment of the channel.
fn never_sends(plan: &NodePlan, channel: Channel) -> bool
    ensures { result ≡ never_sends plan.now channel }
{
    plan.latest(channel) == 0
}

/// Returns the class of a slot in which the node never sends.
fn never_class(never: bool) -> &'static str
    ensures { result.now ≡ never_class never }
{
    if never { " never" } else { "" }
}

/// Returns the words for a slot in which the node never sends.
fn never_words(never: bool) -> &'static str
    ensures { result.now ≡ never_words never }
{
    if never {
        ", never sent: the node's latest minislot is 0"
    } else {
        ""
    }
}

/// Writes the front of the element of a dynamic slot.
#[tactic(auto, unfolding(crate::specs::Dynamics::sender_front))]
fn write_sender_front<W: Write>(
    writer: &mut W,
    slot: u16,
    channel: Channel,
    node: u8,
    class: &str,
) -> io::Result<()>
    ensures { Writes W.contents writer.old writer.new result (sender_front slot channel node class.now) }
{
    write!(
        writer,
        "<g class='sender n{node}{class}'><title>dynamic slot {slot} on {channel}: node {node}"
    )
}

/// Writes the payload length of a buffer in two-byte words, if it has one.
#[tactic(auto, unfolding(crate::specs::Dynamics::size_text))]
fn write_size<W: Write>(writer: &mut W, words: Option<u8>) -> io::Result<()>
    ensures { Writes W.contents writer.old writer.new result (size_text words) }
{
    match words {
        Some(words) => write!(writer, ", {words} words"),
        None => Ok(()),
    }
}

/// Writes base and repetition.
#[tactic(auto, unfolding(crate::specs::Dynamics::class_text))]
fn write_class<W: Write>(writer: &mut W, base: u8, repetition: u8) -> io::Result<()>
    ensures { Writes W.contents writer.old writer.new result (class_text base repetition) }
{
    write!(writer, ", base {base}, repetition {repetition}")
}

/// Writes base and repetition of a cycle counter filter.
fn write_cycles<W: Write>(writer: &mut W, cycles: CycleFilter) -> io::Result<()>
    ensures { Writes W.contents writer.old writer.new result (cycles_text cycles) }
{
    write_class(writer, cycles.base(), cycles.repetition())
}

/// Writes the payload length of the buffer, and its base and repetition.
#[tactic(auto, unfolding(crate::specs::Dynamics::buffer_text))]
fn write_buffer<W: Write>(writer: &mut W, buffer: &Buffer) -> io::Result<()>
    ensures { Writes W.contents writer.old writer.new result (buffer_text buffer.now) }
{
    write_size(writer, buffer.words)?;
    write_cycles(writer, buffer.filter.cycles)
}

/// Returns the buffer from which the node sends in the slot.
fn first_buffer(plan: &NodePlan, slot: SlotId, channel: Channel, cycle: Cycle) -> Option<&Buffer>
    ensures { option_map (λ b. b.now) result ≡ find (sends_at slot channel cycle) plan.now.buffers }
{
    plan.buffers()
        .iter()
        .find(|b| sends_at(b, slot, channel, cycle))
}

/// Writes the data of the buffer from which the node sends in the slot.
fn write_buffer_at<W: Write>(
    writer: &mut W,
    plan: &NodePlan,
    slot: SlotId,
    channel: Channel,
    cycle: Cycle,
) -> io::Result<()>
    ensures { Writes W.contents writer.old writer.new result
        (first_text (find (sends_at slot channel cycle) plan.now.buffers)) }
{
    match first_buffer(plan, slot, channel, cycle) {
        Some(buffer) => write_buffer(writer, buffer),
        None => Ok(()),
    }
}

/// Writes the title of the element of a dynamic slot, behind its front.
#[tactic(auto, unfolding(crate::specs::Dynamics::sender_title))]
fn write_title<W: Write>(
    writer: &mut W,
    plan: &NodePlan,
    cycle: Cycle,
    channel: Channel,
    slot: SlotId,
    node: NodeId,
) -> io::Result<()>
    ensures { Writes W.contents writer.old writer.new result (sender_title plan.now cycle channel slot node) }
{
    let never = never_sends(plan, channel);
    write_sender_front(
        writer,
        slot.number(),
        channel,
        node.number(),
        never_class(never),
    )?;
    write_buffer_at(writer, plan, slot, channel, cycle)?;
    writer.write_all(never_words(never).as_bytes())?;
    writer.write_all(b"</title>")
}

/// Writes the numbers of the slot and of its node into a box, if they fit.
#[tactic(auto, unfolding(crate::specs::Dynamics::sender_numbers))]
fn write_numbers<W: Write>(
    writer: &mut W,
    slot: u16,
    node: u8,
    left: u64,
    length: u64,
    top: u64,
) -> io::Result<()>
    requires left { left < 2 ^ 61 }
    requires length { length < 2 ^ 62 }
    requires top { top < 2000 }
    ensures { Writes W.contents writer.old writer.new result (sender_numbers slot node left length top) }
{
    let middle = left + length / 2;
    if length < NUMBER_LENGTH {
        Ok(())
    } else if length < SLOT_LENGTH {
        write_number(writer, middle, top + 260, u64::from(node))
    } else {
        write_number(writer, middle, top + 195, u64::from(slot))?;
        write_number(writer, middle, top + 315, u64::from(node))
    }
}

/// Writes the element of a dynamic slot. The place of its box isn't the time of the slot.
#[tactic(auto, unfolding(crate::specs::Dynamics::sender_text))]
fn write_sender<W: Write>(
    writer: &mut W,
    plan: &NodePlan,
    cycle: Cycle,
    channel: Channel,
    slot: SlotId,
    node: NodeId,
    left: u64,
    length: u64,
) -> io::Result<()>
    requires left { left < 2 ^ 61 }
    requires length { length < 2 ^ 62 }
    ensures { Writes W.contents writer.old writer.new result
        (sender_text plan.now cycle channel slot node left length) }
{
    write_title(writer, plan, cycle, channel, slot, node)?;
    write_rect(writer, left, row_of(channel) + 70, length, 280)?;
    write_numbers(
        writer,
        slot.number(),
        node.number(),
        left,
        length,
        row_of(channel),
    )?;
    close_group(writer)
}

/// Writes the element of a dynamic slot in which a node sends.
fn write_sent<W: Write>(
    writer: &mut W,
    cluster: &Cluster,
    cycle: Cycle,
    channel: Channel,
    sender: Sender,
    left: u64,
    length: u64,
) -> io::Result<()>
    requires sender { HasSender cluster.now cycle channel sender.slot sender.node }
    requires left { left ≡ box_left cluster.now cycle channel sender.slot }
    requires length { length ≡ box_length cluster.now cycle channel sender.slot }
    requires near { left < 2 ^ 61 }
    requires short { length < 2 ^ 62 }
    ensures { OnOk result
        (Adds (IsSlotText cluster.now cycle channel sender.slot) (W.contents writer.old) (W.contents writer.new)) }
{
    match cluster.node(sender.node) {
        Some(plan) => write_sender(
            writer,
            plan,
            cycle,
            channel,
            sender.slot,
            sender.node,
            left,
            length,
        ),
        None => Ok(()),
    }
}

/// Returns the distance of the room of the dynamic segment from the left.
fn room_left(params: &Params) -> u64
    ensures value { result ≡ room_left params.now }
    ensures small { result < 2 ^ 47 }
{
    across(params, segments_of(params).dynamic)
}

/// Returns the length of the room of the dynamic segment.
fn room_length(params: &Params) -> u64
    ensures value { result ≡ room_length params.now }
    ensures small { result < 2 ^ 47 }
{
    let segments = segments_of(params);
    extent(params, segments.dynamic, segments.symbol)
}

/// Returns the distance from the left at which so many of the equal shares of the room end.
#[tactic(auto, unfolding(crate::specs::Shares::end_of_shares))]
fn end_of_shares(params: &Params, count: u64, shares: u64) -> u64
    requires count { 1 ≤ count }
    requires shares { shares ≤ last_slot }
    ensures value { result ≡ end_of_shares params.now count shares }
    ensures small { result < 2 ^ 59 }
{
    room_left(params) + length_of_shares(room_length(params), count, shares)
}

/// Returns the length of a box, at least 1, so that it can be seen.
fn length_of(start: u64, end: u64) -> u64
    requires { end < 2 ^ 59 }
    ensures value { result ≡ max (end - start) 1 }
    ensures small { result < 2 ^ 59 }
{
    end.saturating_sub(start).max(1)
}

/// Writes the element of a dynamic slot in which a node sends, after this number of such slots among so many.
fn write_share<W: Write>(
    writer: &mut W,
    cluster: &Cluster,
    cycle: Cycle,
    channel: Channel,
    sender: Sender,
    before: u64,
    count: u64,
) -> io::Result<()>
    requires sender { HasSender cluster.now cycle channel sender.slot sender.node }
    requires place { IsPlace cluster.now cycle channel sender.slot before count }
    ensures { OnOk result
        (Adds (IsSlotText cluster.now cycle channel sender.slot) (W.contents writer.old) (W.contents writer.new)) }
{
    let left = end_of_shares(cluster.params(), count, before);
    let end = end_of_shares(cluster.params(), count, before + 1);
    let length = length_of(left, end);
    write_sent(writer, cluster, cycle, channel, sender, left, length)
}

/// Writes the elements of all dynamic slots.
fn write_slots<W: Write>(
    writer: &mut W,
    cluster: &Cluster,
    cycle: Cycle,
    channel: Channel,
) -> io::Result<()>
    ensures { OnOk result
        (Adds (AreSlotTexts cluster.now cycle channel 2047) (W.contents writer.old) (W.contents writer.new)) }
{
    let count = count_senders(cluster, cycle, channel);
    let mut before: u64 = 0;
    for earlier in 0..LAST_SLOT {
        if let Some(sender) = sender_in(cluster, cycle, channel, earlier + 1) {
            write_share(writer, cluster, cycle, channel, sender, before, count)?;
            before += 1;
        }
    }
    Ok(())
}

/// Writes the front of the element of the segment.
#[tactic(auto, unfolding(crate::specs::Dynamics::dynamic_front))]
fn write_dynamic_front<W: Write>(writer: &mut W, channel: Channel) -> io::Result<()>
    ensures { Writes W.contents writer.old writer.new result (dynamic_front channel) }
{
    write!(
        writer,
        "<g class='dynamic'><title>dynamic segment on {channel}</title>"
    )
}

/// Writes the box of the segment.
#[tactic(auto, unfolding(crate::specs::Dynamics::dynamic_box))]
fn write_box<W: Write>(writer: &mut W, left: u64, length: u64, channel: Channel) -> io::Result<()>
    ensures { Writes W.contents writer.old writer.new result (dynamic_box left length channel) }
{
    write_dynamic_front(writer, channel)?;
    write_rect(writer, left, row_of(channel), length, CHANNEL_HEIGHT)?;
    close_group(writer)
}

/// Writes the box of the segment, and the elements of its slots.
fn write_room<W: Write>(
    writer: &mut W,
    cluster: &Cluster,
    cycle: Cycle,
    channel: Channel,
) -> io::Result<()>
    ensures { OnOk result
        (Adds (IsRoomText cluster.now cycle channel) (W.contents writer.old) (W.contents writer.new)) }
{
    let params = cluster.params();
    write_box(writer, room_left(params), room_length(params), channel)?;
    write_slots(writer, cluster, cycle, channel)
}

/// Writes the dynamic segment of a channel, in which the slots with a sender share the room.
pub(crate) fn write_dynamic<W: Write>(
    writer: &mut W,
    cluster: &Cluster,
    cycle: Cycle,
    channel: Channel,
) -> io::Result<()>
    ensures { OnOk result
        (Adds (IsDynamicText cluster.now cycle channel) (W.contents writer.old) (W.contents writer.new)) }
{
    let segments = segments_of(cluster.params());
    let has_room = segments.dynamic < segments.symbol;
    if has_room {
        write_room(writer, cluster, cycle, channel)
    } else {
        Ok(())
    }
}
