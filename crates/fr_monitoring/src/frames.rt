//! The lines of the frames in a recording.

ghost use Rattle.std.specs.Prelude.{◌≡◌, ◌<◌, ◌/◌, length};
ghost use Rattle.fr_text.specs.Writing.{Writes};
ghost use Rattle.fr_judging.specs.Judging.{is_lawless, lane_on};
ghost use Rattle.fr_logged.specs.Logged.{spelled};
ghost use Rattle.fr_logged.specs.Rules.{letters_of};
ghost use Rattle.fr_slots.specs.Faults.{minislots_filled};
ghost use Rattle.fr_slots.specs.declared.channel.Channel.TheVariants.{A, B};
ghost use Rattle.fr_monitoring.specs.FrameText.{waiting_on, waiting_at, is_waiting, minislot_of, minislot_start};
ghost use Rattle.fr_monitoring.specs.FrameText.{begin_of, length_of, cycle_text, slot_text, content_text, good_text};
ghost use Rattle.fr_monitoring.specs.FrameText.{spelled_text, front_text, frame_line, has_opened, opened_text};
ghost use Rattle.fr_monitoring.specs.FrameText.{opens_line, opens_text, frame_text, last_text, known_on, open_on};
ghost use Rattle.fr_monitoring.specs.FrameText.{before_text, steps_to, stepped_text, nearest_text, other_than};
ghost use Rattle.fr_monitoring.specs.FrameText.{beside_text, broken_text, placed_text, named_text, node_text};
ghost use Rattle.fr_monitoring.specs.FrameText.{node_of, sender_at, sender_of, static_text};

use crate::line::{letters_text, write_at, write_optional, write_place};
use fr_frame::lent::LentFrame;
use fr_judging::judge::Judge;
use fr_judging::lane::Lane;
use fr_judging::line::At;
use fr_judging::rules::Rules;
use fr_logged::finding::{Letters, Place};
use fr_logged::record::{Kind, place_in, spelled};
use fr_recording::phase::Head;
use fr_slots::channel::Channel;
use fr_slots::numbers::Cycle;
use fr_slots::params::Params;
use fr_text::hexes::write_hex;
use std::io;
use std::io::Write;

/// A frame that waits for the next good one of its channel.
#[derive(Clone, Copy)]
pub struct Waiting {
    /// The number of its record.
    pub number: u64,
    pub cycle: Cycle,
    /// The cycles that its channel had opened.
    pub cycles: u64,
}

/// Returns the frame that waits on a channel.
fn waiting_on(lane: &Lane) -> Option<Waiting>
    ensures { result ≡ waiting_on lane.now }
{
    match &lane.held {
        Some(held) => Some(Waiting {
            number: held.at.number,
            cycle: held.frame.cycle,
            cycles: lane.cycles,
        }),
        None => None,
    }
}

/// Returns the frame that waits on the channel of a record.
pub(crate) fn waiting_at(judge: &Judge, kind: Kind) -> Option<Waiting>
    ensures { result ≡ waiting_at judge.now kind }
{
    match kind {
        Kind::Frame(channel) => waiting_on(judge.lane(channel)),
        Kind::Foreign | Kind::Symbol(_) => None,
    }
}

/// Returns the frames that wait on both channels.
pub(crate) fn waiting_now(judge: &Judge) -> (Option<Waiting>, Option<Waiting>)
    ensures a { result.0 ≡ waiting_on (lane_on judge.now A) }
    ensures b { result.1 ≡ waiting_on (lane_on judge.now B) }
{
    (
        waiting_on(judge.lane(Channel::A)),
        waiting_on(judge.lane(Channel::B)),
    )
}

/// Returns whether the frame of a record waits.
fn is_waiting(lane: &Lane, number: u64) -> bool
    ensures { result ≡ is_waiting lane.now number }
{
    match &lane.held {
        Some(held) => held.at.number == number,
        None => false,
    }
}

// ---- the place of a slot in its cycle

/// Returns the minislots that a frame fills.
fn minislots_filled(params: &Params, frame: &LentFrame<'_>) -> u16
    ensures value { result ≡ minislots_filled params.now (length frame.now.payload / 2) }
    ensures few { result < 200 }
{
    let words = (frame.payload.len() / 2) as u16;
    (words + 4).div_ceil(params.words_per_minislot)
}

/// Returns the minislot at which the slot of a frame opens, or 0 if it isn't known.
fn minislot_of(params: &Params, lane: &Lane, waits: bool, frame: &LentFrame<'_>) -> u64
    ensures { result ≡ minislot_of params.now lane.now waits frame.now }
{
    if waits {
        return u64::from(frame.id.saturating_sub(params.static_slots));
    }
    if lane.slot != u32::from(frame.id) + 1 {
        return 0;
    }
    let passed = minislots_filled(params, frame) + params.idle;
    lane.minislot.saturating_sub(u64::from(passed))
}

/// Returns the first macrotick of a minislot, if the cycle has it.
fn minislot_start(params: &Params, minislot: u64) -> Option<u32>
    ensures { result ≡ minislot_start params.now minislot }
{
    if minislot < 1 || minislot > u64::from(params.minislots) {
        return None;
    }
    let before = u32::from(minislot as u16 - 1) * u32::from(params.minislot_mt);
    Some(u32::from(params.static_slots) * u32::from(params.static_mt) + before)
}

/// Returns the first macrotick of the slot of a frame, if it is known.
fn begin_of(params: &Params, lane: &Lane, waits: bool, frame: &LentFrame<'_>) -> Option<u32>
    ensures { result ≡ begin_of params.now lane.now waits frame.now }
{
    if frame.id <= params.static_slots {
        let before = u32::from(frame.id.saturating_sub(1));
        return Some(before * u32::from(params.static_mt));
    }
    minislot_start(params, minislot_of(params, lane, waits, frame))
}

/// Returns the macroticks of the slot of a frame.
fn length_of(params: &Params, frame: &LentFrame<'_>) -> u32
    ensures { result ≡ length_of params.now frame.now }
{
    if frame.id <= params.static_slots {
        return u32::from(params.static_mt);
    }
    u32::from(minislots_filled(params, frame)) * u32::from(params.minislot_mt)
}

// ---- the line of a frame

/// Writes the number of the open cycle, or a dash for a frame that waits.
#[tactic(auto, unfolding(crate::specs::FrameText::cycle_text))]
fn write_cycle<W: Write>(writer: &mut W, lane: &Lane, waits: bool) -> io::Result<()>
    ensures { Writes W.contents writer.old writer.new result (cycle_text lane.now waits) }
{
    if waits {
        write!(writer, "-")
    } else {
        write!(writer, "{}", lane.number)
    }
}

/// A cycle of this number and count, from which others are counted.
#[derive(Clone, Copy)]
struct CountedCycle {
    number: u128,
    count: Cycle,
}

/// Returns the open cycle of a channel.
fn open_on(lane: &Lane) -> Option<CountedCycle>
    ensures { result ≡ open_on lane.now }
{
    match lane.current {
        Some(count) => Some(CountedCycle {
            number: lane.number,
            count,
        }),
        None => None,
    }
}

/// Returns the open cycle of a channel, or before the first one that which the waiting frame opens.
fn known_on(lane: &Lane) -> Option<CountedCycle>
    ensures { result ≡ known_on lane.now }
{
    match (open_on(lane), &lane.held) {
        (Some(open), _) => Some(open),
        (None, Some(held)) => Some(CountedCycle {
            number: 0,
            count: held.frame.cycle,
        }),
        (None, None) => None,
    }
}

/// Returns how many counts another is ahead, modulo 64, and 32 more.
fn steps_to(from: Cycle, to: Cycle) -> u8
    ensures value { result ≡ steps_to from to }
    ensures fits { result < 64 }
{
    (to.number() + 96 - from.number()) % 64
}

/// Writes the number of a cycle so many cycles before another.
fn write_before<W: Write>(writer: &mut W, number: u128, cycles: u8) -> io::Result<()>
    ensures { Writes W.contents writer.old writer.new result (before_text number cycles) }
{
    let cycles = u128::from(cycles);
    if cycles <= number {
        write!(writer, "{}", number - cycles)
    } else {
        write!(writer, "-{}", cycles - number)
    }
}

/// Writes the number of a cycle so many counts, without the 32, after another.
fn write_stepped<W: Write>(writer: &mut W, number: u128, steps: u8) -> io::Result<()>
    requires { steps < 64 }
    ensures { Writes W.contents writer.old writer.new result (stepped_text number steps) }
{
    if steps < 32 {
        write_before(writer, number, 32 - steps)
    } else {
        write!(writer, "{}", number.saturating_add(u128::from(steps - 32)))
    }
}

/// Writes the number of the nearest cycle with a count, or a dash if it isn't known.
fn write_nearest<W: Write>(
    writer: &mut W,
    known: Option<CountedCycle>,
    count: Option<Cycle>,
) -> io::Result<()>
    ensures { Writes W.contents writer.old writer.new result (nearest_text known count) }
{
    match (known, count) {
        (Some(known), Some(count)) => {
            write_stepped(writer, known.number, steps_to(known.count, count))
        }
        _ => write!(writer, "-"),
    }
}

/// Returns the other channel.
fn other_than(channel: Channel) -> Channel
    ensures { result ≡ other_than channel }
{
    match channel {
        Channel::A => Channel::B,
        Channel::B => Channel::A,
    }
}

/// Writes a space, and the number that the nearest cycle with a count has on the other channel.
#[tactic(auto, unfolding(crate::specs::FrameText::beside_text))]
fn write_beside<W: Write>(
    writer: &mut W,
    judge: &Judge,
    channel: Channel,
    count: Cycle,
) -> io::Result<()>
    ensures { Writes W.contents writer.old writer.new result (beside_text judge.now channel count) }
{
    write!(writer, " ")?;
    let other = open_on(judge.lane(other_than(channel)));
    write_nearest(writer, other, Some(count))
}

/// Writes the cycle of a frame, and where its slot is.
#[tactic(auto, unfolding(crate::specs::FrameText::slot_text))]
fn write_slot<W: Write>(
    writer: &mut W,
    params: &Params,
    lane: &Lane,
    waits: bool,
    frame: &LentFrame<'_>,
) -> io::Result<()>
    ensures { Writes W.contents writer.old writer.new result (slot_text params.now lane.now waits frame.now) }
{
    write_cycle(writer, lane, waits)?;
    write!(writer, " ")?;
    write_optional(writer, begin_of(params, lane, waits, frame))?;
    write!(writer, " {}", length_of(params, frame))
}

/// Returns the indicators of a frame.
fn letters_of(frame: &LentFrame<'_>) -> Letters
    ensures { result ≡ letters_of frame.now }
{
    Letters {
        preamble: frame.preamble,
        has_data: frame.has_data,
        sync: frame.sync,
        startup: frame.startup,
    }
}

/// Writes the indicators and the payload of a frame.
#[tactic(auto, unfolding(crate::specs::FrameText::content_text))]
fn write_content<W: Write>(writer: &mut W, frame: &LentFrame<'_>) -> io::Result<()>
    ensures { Writes W.contents writer.old writer.new result (content_text frame.now) }
{
    write!(writer, " ")?;
    writer.write_all(&letters_text(&letters_of(frame)))?;
    write!(writer, " ")?;
    write_hex(writer, frame.payload)
}

/// Returns the node that may send at a place, if there is one.
fn sender_at(rules: &Rules, place: &Place) -> Option<u32>
    ensures { result ≡ sender_at rules.now.cluster place.now }
{
    let (Some(cycle), Some(slot)) = (place.cycle, place.slot) else {
        return None;
    };
    match rules.due(slot, place.channel, cycle) {
        Some(due) => Some(u32::from(due.node)),
        None => None,
    }
}

/// Writes a space, and the node that may send at a place, or a dash for none.
#[tactic(auto, unfolding(crate::specs::FrameText::node_text))]
fn write_node<W: Write>(writer: &mut W, rules: &Rules, place: &Place) -> io::Result<()>
    ensures { Writes W.contents writer.old writer.new result (node_text rules.now.cluster place.now) }
{
    write!(writer, " ")?;
    write_optional(writer, sender_at(rules, place))
}

/// Writes the cycle of a frame, where its slot is, its sender, and what it has.
#[tactic(auto, unfolding(crate::specs::FrameText::good_text))]
fn write_good<W: Write>(
    writer: &mut W,
    rules: &Rules,
    lane: &Lane,
    waits: bool,
    place: &Place,
    frame: &LentFrame<'_>,
) -> io::Result<()>
    ensures { Writes W.contents writer.old writer.new result
        (good_text rules.now.cluster lane.now waits place.now frame.now) }
{
    write_slot(writer, rules.cluster.params(), lane, waits, frame)?;
    write_node(writer, rules, place)?;
    write_content(writer, frame)
}

/// Writes where a static slot is.
#[tactic(auto, unfolding(crate::specs::FrameText::static_text))]
fn write_static<W: Write>(writer: &mut W, params: &Params, slot: u16) -> io::Result<()>
    ensures { Writes W.contents writer.old writer.new result (static_text params.now slot) }
{
    let before = u32::from(slot.saturating_sub(1)) * u32::from(params.static_mt);
    write!(writer, " {before} {}", params.static_mt)
}

/// Writes where the slot is that a header names, if it is a static one.
#[tactic(auto, unfolding(crate::specs::FrameText::named_text))]
fn write_named<W: Write>(writer: &mut W, params: &Params, slot: Option<u32>) -> io::Result<()>
    ensures { Writes W.contents writer.old writer.new result (named_text params.now slot) }
{
    match slot {
        Some(slot) if 1 <= slot && slot <= u32::from(params.static_slots) => {
            write_static(writer, params, slot as u16)
        }
        _ => write!(writer, " - -"),
    }
}

/// Returns whether no slot of the cluster has this frame ID.
fn is_lawless(judge: &Judge, id: u16) -> bool
    ensures { result ≡ is_lawless judge.now id }
{
    let params = judge.rules().cluster.params();
    id == 0 || (id > params.static_slots && params.minislots == 0)
}

/// Writes what the header of a broken record names: the nearest cycle with its count, a static slot, and the sender.
#[tactic(auto, unfolding(crate::specs::FrameText::broken_text))]
fn write_broken<W: Write>(
    writer: &mut W,
    rules: &Rules,
    lane: &Lane,
    place: &Place,
) -> io::Result<()>
    ensures { Writes W.contents writer.old writer.new result (broken_text rules.now.cluster lane.now place.now) }
{
    write_nearest(writer, known_on(lane), place.cycle)?;
    write_named(writer, rules.cluster.params(), place.slot)?;
    write_node(writer, rules, place)?;
    write!(writer, " - - -")
}

/// Writes the place and the content of a good frame, and the cycle beside its own.
fn write_placed<W: Write>(
    writer: &mut W,
    judge: &Judge,
    channel: Channel,
    waits: bool,
    place: &Place,
    frame: &LentFrame<'_>,
) -> io::Result<()>
    ensures { Writes W.contents writer.old writer.new result
        (placed_text judge.now channel waits place.now frame.now) }
{
    write_good(
        writer,
        judge.rules(),
        judge.lane(channel),
        waits,
        place,
        frame,
    )?;
    write_beside(writer, judge, channel, frame.cycle)
}

/// Writes what a record spells on a channel.
#[tactic(auto, unfolding(crate::specs::FrameText::spelled_text))]
fn write_spelled<W: Write>(
    writer: &mut W,
    judge: &Judge,
    channel: Channel,
    place: &Place,
    original: u32,
    bytes: &[u8],
) -> io::Result<()>
    ensures { Writes W.contents writer.old writer.new result
        (spelled_text judge.now channel judge.now.records place.now (spelled channel original bytes.now)) }
{
    match spelled(channel, original, bytes) {
        Ok(frame) if !is_lawless(judge, frame.id) => {
            let waits = is_waiting(judge.lane(channel), judge.records());
            write_placed(writer, judge, channel, waits, place, &frame)
        }
        _ => write_broken(writer, judge.rules(), judge.lane(channel), place),
    }
}

/// Writes the record of a frame, and the place that its header names.
#[tactic(auto, unfolding(crate::specs::FrameText::front_text))]
fn write_front<W: Write>(writer: &mut W, at: &At, place: &Place) -> io::Result<()>
    ensures { Writes W.contents writer.old writer.new result (front_text at.now place.now) }
{
    write!(writer, "frame ")?;
    write_at(writer, &Some(*at))?;
    write!(writer, " ")?;
    write_place(writer, place)?;
    write!(writer, " ")
}

/// Writes the line of a frame, after the judgement of its record.
#[tactic(auto, unfolding(crate::specs::FrameText::frame_line))]
fn write_frame<W: Write>(
    writer: &mut W,
    judge: &Judge,
    channel: Channel,
    head: &Head,
    bytes: &[u8],
) -> io::Result<()>
    ensures { Writes W.contents writer.old writer.new result (frame_line judge.now channel (record {
      time = head.now.time;
      link = head.now.link;
      original = head.now.original;
      bytes = bytes.now;
    })) }
{
    let at = At {
        number: judge.records(),
        time: head.time,
    };
    let place = place_in(channel, bytes);
    write_front(writer, &at, &place)?;
    write_spelled(writer, judge, channel, &place, head.original, bytes)?;
    writeln!(writer)
}

// ---- the cycle of a frame that waited

/// Writes the number of the cycle that a frame opened.
fn write_opened<W: Write>(writer: &mut W, waiting: &Waiting, lane: &Lane) -> io::Result<()>
    ensures { Writes W.contents writer.old writer.new result (opened_text waiting.now lane.now) }
{
    if lane.cycles == waiting.cycles.saturating_add(1) {
        write!(writer, "{}", lane.number)
    } else {
        write!(writer, "-")
    }
}

/// Writes the line of a cycle that a frame opened.
#[tactic(auto, unfolding(crate::specs::FrameText::opens_line))]
fn write_opens<W: Write>(
    writer: &mut W,
    judge: &Judge,
    channel: Channel,
    waiting: &Waiting,
) -> io::Result<()>
    ensures { Writes W.contents writer.old writer.new result (opens_line judge.now channel waiting.now) }
{
    write!(writer, "opens {} ", waiting.number)?;
    write_opened(writer, waiting, judge.lane(channel))?;
    write_beside(writer, judge, channel, waiting.cycle)?;
    writeln!(writer)
}

/// Returns whether a frame waits no longer, and opened its cycle.
fn has_opened(waiting: &Waiting, lane: &Lane) -> bool
    ensures { result ≡ has_opened waiting.now lane.now }
{
    if is_waiting(lane, waiting.number) {
        return false;
    }
    match lane.current {
        Some(cycle) => cycle == waiting.cycle,
        None => false,
    }
}

/// Writes the line of a cycle, if the frame that waited has opened one.
#[tactic(auto, unfolding(crate::specs::FrameText::opens_text))]
fn write_opening<W: Write>(
    writer: &mut W,
    judge: &Judge,
    channel: Channel,
    waiting: &Option<Waiting>,
) -> io::Result<()>
    ensures { Writes W.contents writer.old writer.new result (opens_text judge.now channel waiting.now) }
{
    match waiting {
        Some(waiting) if has_opened(waiting, judge.lane(channel)) => {
            write_opens(writer, judge, channel, waiting)
        }
        _ => Ok(()),
    }
}

// ---- a record, and the end

/// Writes the lines of a record of this kind, after its judgement.
#[tactic(auto, unfolding(crate::specs::FrameText::frame_text))]
pub(crate) fn write_frames<W: Write>(
    writer: &mut W,
    judge: &Judge,
    waiting: &Option<Waiting>,
    kind: Kind,
    head: &Head,
    bytes: &[u8],
) -> io::Result<()>
    ensures { Writes W.contents writer.old writer.new result (frame_text waiting.now judge.now (record {
      time = head.now.time;
      link = head.now.link;
      original = head.now.original;
      bytes = bytes.now;
    }) kind) }
{
    match kind {
        Kind::Frame(channel) if judge.rules().judges(channel) => {
            write_opening(writer, judge, channel, waiting)?;
            write_frame(writer, judge, channel, head, bytes)
        }
        _ => Ok(()),
    }
}

/// Writes the lines of the frames that waited up to the end.
#[tactic(auto, unfolding(crate::specs::FrameText::last_text))]
pub(crate) fn write_last<W: Write>(
    writer: &mut W,
    judge: &Judge,
    a: &Option<Waiting>,
    b: &Option<Waiting>,
) -> io::Result<()>
    ensures { Writes W.contents writer.old writer.new result (last_text a.now b.now judge.now) }
{
    write_opening(writer, judge, Channel::A, a)?;
    write_opening(writer, judge, Channel::B, b)
}
