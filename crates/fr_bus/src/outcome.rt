//! The outcome of the transmissions of a window, and each node's observation.

ghost use Rattle.std.specs.Prelude.{◌≡◌, ◌<◌, ◌≤◌, [], ◌∷◌, ◌++◌, List, length, IfOk, OnOk, OnErr, None, ◌&&◌, ◌+◌};
ghost use Rattle.std.specs.Prelude.{◌↔◌, IsTrue, IfSome, IfNone, if◌then◌else◌, slice_index_or, ◌-◌, ◌^◌, min};
ghost use Rattle.std.specs.List.{list_any};
ghost use Rattle.std.specs.Option.{option_copied};
ghost use Rattle.fr_bus.specs.Outcome.{fate_of, transmission, sent_on, sent_in, sent_of, sent_from, passed_on, is_of};
ghost use Rattle.fr_bus.specs.Outcome.{heard_of, overruns, seen_of, all_passed, received, longest};
ghost use Rattle.fr_bus.specs.Record.{is_offer_of, offer_in};
ghost use Rattle.fr_bus.specs.States.{idle_station};
ghost use Rattle.fr_bus.specs.Corruption.{turned, with_bit_turned, corrupted};
ghost use Rattle.fr_slots.specs.declared.channel.Channel.TheVariants as Channel;
ghost use Rattle.fr_guardian.specs.Guarding.{passes};
ghost use Rattle.fr_slots.specs.Windows.{slot_of, cycles_with};
ghost use Rattle.fr_status.specs.Forms.{whole_seen};
ghost use Rattle.fr_status.specs.declared.seen.Seen.TheVariants as Sees;

use crate::station::{Side, Stations, write_over};
use fr_frame::frame::{Bytes, duplicate_bytes};
use fr_guardian::guardian::Guardian;
use fr_interface::sight::{Heard, Sight};
use fr_slots::channel::Channel;
use fr_slots::numbers::NodeId;
use fr_slots::params::Params;
use fr_slots::window::{Window, opens_cycle};
use fr_status::seen::{LentSeen, Seen};
use std::alloc::{AllocError, Global};
use std::marker::Model;

/// The outcome of a transmission (project-defined).
#[derive(Clone, Copy, PartialEq, Eq)]
pub enum SentFate {
    /// A transmission that reaches the channel.
    Passed,
    /// A transmission that its node's guardian stops.
    Blocked,
    /// A transmission that a fault loses.
    Muted,
}

/// A transmission of a sealed window (project-defined).
#[derive(Drop, PartialEq, Eq)]
pub struct Sent {
    /// The sender.
    pub node: NodeId,
    /// The channel of the transmission.
    pub channel: Channel,
    /// True for a babble, false for the node's offer.
    pub babble: bool,
    /// The bytes, 1 to 262, before any bit is flipped.
    pub bytes: Bytes,
    /// The outcome.
    pub fate: SentFate,
}

impl Sent {
    /// Returns whether the transmission passed on the channel (project-defined).
    pub fn passed_on(&self, channel: Channel) -> bool
        ensures { result ≡ passed_on channel self.now }
    {
        self.channel == channel && self.fate == SentFate::Passed
    }

    /// Returns whether the transmission is too long for the window (project-defined). It is longer than a static slot's
    /// frame, or ends after the last minislot.
    pub fn overruns(&self, params: &Params, window: &Window) -> bool
        ensures { result ≡ overruns params.now window.now (length self.now.bytes.items) }
    {
        is_too_long(params, window, self.bytes.len())
    }
}

/// A window of the record (project-defined).
#[derive(Drop)]
pub struct Sealed {
    /// The window.
    pub window: Window,
    /// The transmissions in the window, in the order of nodes. Those of a node on channel A come before those on B, and
    /// its offer comes before its babble. There is no transmission on a channel without a slot, and none without bytes.
    pub sent: Vec<Sent>,
    /// The injected bits to flip on channel A and on B, if any. They are counted from the most significant bit of the
    /// first byte, and are kept even if they flip nothing.
    pub corrupt: [Option<u16>; 2],
}

impl Model for Sealed {
    ghost use Rattle.fr_bus.specs.Record.{Recorded};

    ghost Value = { Recorded };

    ghost use Rattle.fr_bus.specs.SealedFields.{recorded_in};

    ghost view = { recorded_in };
}

impl Sealed {
    /// Returns the number of cycles of a record that have begun with this window, from the number before it
    /// (project-defined). At `usize::MAX` it stays.
    pub fn cycles_with(&self, begun: usize) -> usize
        ensures most { result ≡ min (cycles_with begun self.now.window) (2 ^ 64 - 1) }
        ensures counted { begun + 1 < 2 ^ 64 → result ≡ cycles_with begun self.now.window }
    {
        begun.saturating_add(usize::from(opens_cycle(&self.window)))
    }
}

/// Returns the outcome of a transmission, by its mute and by its guardian.
fn fate_of(muted: bool, let_pass: bool) -> SentFate
    ensures { result ≡ fate_of muted let_pass }
{
    if muted {
        SentFate::Muted
    } else if let_pass {
        SentFate::Passed
    } else {
        SentFate::Blocked
    }
}

/// Appends a transmission, unless it has no bytes.
fn add(
    list: &mut Vec<Sent>,
    node: NodeId,
    channel: Channel,
    babble: bool,
    fate: SentFate,
    bytes: &Option<Bytes>,
) -> Result<(), AllocError>
    ensures { OnOk result (list.new.items ≡ list.old.items ++ transmission node channel babble fate bytes.now) }
{
    let Some(bytes) = bytes else {
        return Ok(());
    };
    if bytes.len() == 0 {
        return Ok(());
    }
    let bytes = duplicate_bytes(bytes);
    list.push(Sent {
        node,
        channel,
        babble,
        bytes,
        fate,
    })?;
    Ok(())
}

/// Appends the node's transmissions on the channel, which has a slot.
fn add_side(
    list: &mut Vec<Sent>,
    guardian: &Guardian,
    window: &Window,
    node: NodeId,
    channel: Channel,
    side: &Side,
) -> Result<(), AllocError>
    ensures { OnOk result (list.new.items ≡ list.old.items ++ sent_on guardian.now window.now node channel side.now) }
{
    // The guardian is asked only if something is sent.
    if side.offer.is_none() && side.babble.is_none() {
        return Ok(());
    }
    let let_pass = guardian.passes(node, window, channel);
    add(
        list,
        node,
        channel,
        false,
        fate_of(side.mute, let_pass),
        &side.offer,
    )?;
    add(
        list,
        node,
        channel,
        true,
        fate_of(false, let_pass),
        &side.babble,
    )
}

/// Appends the node's transmissions on the channel, which may have no slot.
fn add_in(
    list: &mut Vec<Sent>,
    guardian: &Guardian,
    window: &Window,
    node: NodeId,
    channel: Channel,
    side: &Side,
) -> Result<(), AllocError>
    ensures { OnOk result (list.new.items
        ≡ list.old.items ++ sent_in guardian.now window.now node channel side.now (slot_of window.now channel)) }
{
    match window.slot(channel) {
        Some(_) => add_side(list, guardian, window, node, channel, side),
        None => Ok(()),
    }
}

/// Appends the node's transmissions.
fn add_station(
    list: &mut Vec<Sent>,
    guardian: &Guardian,
    window: &Window,
    node: NodeId,
    stations: &Stations,
) -> Result<(), AllocError>
    requires { node < length stations.now }
    ensures { OnOk result (list.new.items
        ≡ list.old.items ++ sent_of guardian.now window.now node (slice_index_or stations.now node idle_station)) }
{
    add_in(
        list,
        guardian,
        window,
        node,
        Channel::A,
        stations.side(node, Channel::A),
    )?;
    add_in(
        list,
        guardian,
        window,
        node,
        Channel::B,
        stations.side(node, Channel::B),
    )
}

/// Returns the transmissions of all nodes. The list has room for exactly these, so it moves no transmission.
pub(crate) fn all_sent(
    alloc: Global,
    guardian: &Guardian,
    window: &Window,
    stations: &Stations,
) -> Result<Vec<Sent>, AllocError>
    ensures { IfOk result (λ list. list.items ≡ sent_from guardian.now window.now 0 stations.now) }
{
    // So a frame is copied only to its station, to the record, and to each node that takes it.
    let count = stations.count_offered();
    let mut list = Vec::with_capacity(alloc, count)?;
    // In most windows no node sends.
    if count == 0 {
        return Ok(list);
    }
    for number in 0..stations.len() {
        let node = NodeId::from_number(number as u8);
        add_station(&mut list, guardian, window, node, stations)?;
    }
    Ok(list)
}

/// Returns whether the transmission is the node's.
fn is_of(node: NodeId, sent: &Sent) -> bool
    ensures { result ≡ is_of node sent.now }
{
    sent.node == node
}

/// Returns the first transmission that passed on the channel, and all transmissions after it.
fn next_passed<'a>(channel: Channel, sent: &'a [Sent]) -> Option<(&'a Sent, &'a [Sent])>
    ensures none { IfNone result (all_passed channel sent.now ≡ []) }
    ensures some { IfSome result (λ r. all_passed channel sent.now ≡ r.0.now ∷ all_passed channel r.1.now) }
{
    for (place, t) in sent.iter().enumerate() {
        if t.passed_on(channel) {
            return Some((t, &sent[place + 1..]));
        }
    }
    None
}

/// Returns whether a transmission of the node passed on the channel.
#[tactic(auto, using(crate::proofs::SeenLemmas::any_filtered))]
fn any_own(channel: Channel, node: NodeId, sent: &[Sent]) -> bool
    ensures { result ≡ list_any (is_of node) (all_passed channel sent.now) }
{
    any_passed_of(channel, node, sent)
}

/// Returns the same, transmission by transmission.
fn any_passed_of(channel: Channel, node: NodeId, sent: &[Sent]) -> bool
    ensures { result ≡ list_any (λ t. passed_on channel t && is_of node t) sent.now }
{
    sent.iter().any(|t| t.passed_on(channel) && is_of(node, t))
}

/// Returns whether so many bytes are too long for the window.
fn is_too_long(params: &Params, window: &Window, bytes: usize) -> bool
    requires { bytes ≤ 262 }
    ensures { result ≡ overruns params.now window.now bytes }
{
    if window.is_static() {
        bytes > 8 + 2 * usize::from(params.static_words)
    } else {
        let filled = bytes.div_ceil(2 * usize::from(params.words_per_minislot));
        usize::from(window.minislot) - 1 + filled > usize::from(params.minislots)
    }
}

/// Returns the byte with this bit flipped, counted from 0, its most significant one.
fn byte_with_bit_turned(byte: u8, bit: u16) -> u8
    requires { bit < 8 }
    ensures { result ≡ turned byte bit }
{
    byte ^ (1 << (7 - bit))
}

/// Flips one bit, counted from the most significant bit of the first byte. A bit after the last byte has no effect.
fn turn_bit(bytes: &mut Bytes, bit: u16)
    ensures { bytes.new.items ≡ with_bit_turned bytes.old.items bit }
{
    let place = usize::from(bit / 8);
    let all = bytes.as_mut_slice();
    if place < all.len() {
        all[place] = byte_with_bit_turned(all[place], bit % 8);
    }
}

/// Returns the bytes with the bit flipped, if there is one to flip.
fn bytes_with_bit_turned(bytes: &Bytes, corrupt: Option<u16>) -> Bytes
    ensures { result ≡ corrupted bytes.now corrupt }
{
    let mut copy = duplicate_bytes(bytes);
    if let Some(bit) = corrupt {
        turn_bit(&mut copy, bit);
    }
    copy
}

/// Writes the bytes over the old ones, with the bit flipped if there is one to flip.
fn write_turned(place: &mut Bytes, bytes: &Bytes, corrupt: Option<u16>)
    ensures { place.new ≡ corrupted bytes.now corrupt }
{
    write_over(place, bytes);
    if let Some(bit) = corrupt {
        turn_bit(place, bit);
    }
}

/// Writes silence, unless it is there already.
fn see_silence(seen: &mut Seen)
    ensures { seen.new ≡ Sees.Silence }
{
    match seen {
        Seen::Silence => {}
        _ => *seen = Seen::Silence,
    }
}

/// Writes the bytes over the old observation, with the bit flipped if there is one to flip.
fn see_bytes(bytes: &Bytes, corrupt: Option<u16>, seen: &mut Seen)
    ensures { seen.new ≡ Sees.Bytes (corrupted bytes.now corrupt) }
{
    match seen {
        Seen::Bytes(place) => write_turned(place, bytes, corrupt),
        _ => *seen = Seen::Bytes(bytes_with_bit_turned(bytes, corrupt)),
    }
}

/// Writes the other nodes' observation of the only transmission that passed.
fn see_alone(params: &Params, window: &Window, corrupt: Option<u16>, bytes: &Bytes, seen: &mut Seen)
    ensures { seen.new ≡ received params.now window.now corrupt bytes.now }
{
    if is_too_long(params, window, bytes.len()) {
        *seen = Seen::Overrun;
    } else {
        see_bytes(bytes, corrupt, seen);
    }
}

/// Returns a node's observation if several transmissions passed, its own among them or not.
fn sight_of_several(any_own: bool) -> Seen
    ensures { result ≡ (if any_own then Sees.Conflict else Sees.Noise) }
{
    if any_own { Seen::Conflict } else { Seen::Noise }
}

/// Returns whether the other nodes see this of the only transmission that passed. Bytes are copied only to flip a bit
/// of them.
fn shows_alone(
    params: &Params,
    window: &Window,
    corrupt: Option<u16>,
    bytes: &Bytes,
    seen: LentSeen<'_>,
) -> bool
    ensures { IsTrue result ↔ (received params.now window.now corrupt bytes.now ≡ whole_seen seen.entry) }
{
    let is_overrun = is_too_long(params, window, bytes.len());
    match seen {
        LentSeen::Overrun => is_overrun,
        LentSeen::Bytes(seen) => !is_overrun && are_turned(bytes, corrupt, seen),
        _ => false,
    }
}

/// Returns whether these are the bytes with the bit flipped, if there is one to flip.
fn are_turned(bytes: &Bytes, corrupt: Option<u16>, seen: &[u8]) -> bool
    ensures { IsTrue result ↔ ((corrupted bytes.now corrupt).items ≡ seen.now) }
{
    if corrupt.is_none() {
        bytes.as_slice() == seen
    } else {
        bytes_with_bit_turned(bytes, corrupt).as_slice() == seen
    }
}

/// Returns whether it is the node's offer on the channel.
fn is_offer_of(channel: Channel, node: NodeId, sent: &Sent) -> bool
    ensures { result ≡ is_offer_of channel node sent.now }
{
    is_of(node, sent) && sent.channel == channel && !sent.babble
}

/// Returns the bytes of the node's offer on the channel, if it is among these.
fn offer_in(channel: Channel, node: NodeId, sent: &[Sent]) -> Option<&Bytes>
    ensures { option_copied result ≡ offer_in channel node sent.now }
{
    for t in sent {
        if is_offer_of(channel, node, t) {
            return Some(&t.bytes);
        }
    }
    None
}

impl Sealed {
    ghost use Rattle.std.specs.Prelude.{◌≡◌, ◌≤◌, ◌↔◌, [], IsTrue};
    ghost use Rattle.std.specs.Option.{option_copied};
    ghost use Rattle.fr_bus.specs.Record.{corrupt_on, heard, offer_in, seen_by};
    ghost use Rattle.fr_bus.specs.Outcome.{all_passed, longest};
    ghost use Rattle.fr_interface.specs.Sights.{seen_in};
    ghost use Rattle.fr_status.specs.Forms.{whole_seen};

    /// Returns the bit that a fault flips on the channel, if any (project-defined). It is counted from the most
    /// significant bit of the first byte.
    pub fn corrupt_on(&self, channel: Channel) -> Option<u16>
        ensures { result ≡ corrupt_on self.now channel }
    {
        match channel {
            Channel::A => self.corrupt[0],
            Channel::B => self.corrupt[1],
        }
    }

    /// Returns the node's observation on the channel (project-defined). It follows from the transmissions that passed
    /// there, the flipped bit and the parameters.
    pub fn seen(&self, params: &Params, channel: Channel, node: NodeId) -> Seen
        ensures { result ≡ seen_by params.now self.now channel node }
    {
        let mut seen = Seen::Silence;
        self.see(params, channel, node, &mut seen);
        seen
    }

    /// Writes the node's observation on the channel, the result of `Sealed::seen`, to `seen`. Bytes are written over
    /// the old ones.
    pub fn see(&self, params: &Params, channel: Channel, node: NodeId, seen: &mut Seen)
        ensures { seen.new ≡ seen_by params.now self.now channel node }
    {
        let sent = self.sent.as_slice();
        let Some((only, rest)) = next_passed(channel, sent) else {
            return see_silence(seen);
        };
        if next_passed(channel, rest).is_some() {
            *seen = sight_of_several(any_own(channel, node, sent));
        } else if is_of(node, only) {
            *seen = Seen::Own;
        } else {
            let corrupt = self.corrupt_on(channel);
            see_alone(params, &self.window, corrupt, &only.bytes, seen);
        }
    }

    /// Returns whether no transmission passed on the channel.
    pub(crate) fn is_silent(&self, channel: Channel) -> bool
        ensures { IsTrue result ↔ (all_passed channel self.now.sent ≡ []) }
    {
        match next_passed(channel, self.sent.as_slice()) {
            Some(_) => false,
            None => true,
        }
    }

    /// Returns the observation on the channel of a node that sends nothing there (project-defined). If one transmission
    /// passed alone, it is the bytes of this transmission with the flipped bit.
    pub fn heard(&self, params: &Params, channel: Channel) -> Seen
        ensures { result ≡ heard params.now self.now channel }
    {
        let mut seen = Seen::Silence;
        if let Some((only, rest)) = next_passed(channel, self.sent.as_slice()) {
            if next_passed(channel, rest).is_some() {
                seen = Seen::Noise;
            } else {
                let corrupt = self.corrupt_on(channel);
                see_alone(params, &self.window, corrupt, &only.bytes, &mut seen);
            }
        }
        seen
    }

    /// Returns the node's observation on the channel, the result of `Sealed::seen`, given what is heard there.
    pub(crate) fn sight<'a>(
        &self,
        params: &Params,
        channel: Channel,
        node: NodeId,
        common: &'a Heard,
    ) -> Sight<'a>
        requires { common.now ≡ heard params.now self.now channel }
        ensures { seen_in result ≡ seen_by params.now self.now channel node }
    {
        let sent = self.sent.as_slice();
        let Some((only, rest)) = next_passed(channel, sent) else {
            return Sight::Heard(common);
        };
        if next_passed(channel, rest).is_some() {
            if any_own(channel, node, sent) {
                Sight::Conflict
            } else {
                Sight::Heard(common)
            }
        } else if is_of(node, only) {
            Sight::Own
        } else {
            Sight::Heard(common)
        }
    }

    /// Returns whether the node observes this on the channel, as `Sealed::seen` defines it.
    pub fn shows(&self, params: &Params, channel: Channel, node: NodeId, seen: LentSeen<'_>) -> bool
        ensures { IsTrue result ↔ (seen_by params.now self.now channel node ≡ whole_seen seen.entry) }
    {
        let sent = self.sent.as_slice();
        let Some((only, rest)) = next_passed(channel, sent) else {
            return matches!(seen, LentSeen::Silence);
        };
        if next_passed(channel, rest).is_some() {
            return if any_own(channel, node, sent) {
                matches!(seen, LentSeen::Conflict)
            } else {
                matches!(seen, LentSeen::Noise)
            };
        }
        if is_of(node, only) {
            matches!(seen, LentSeen::Own)
        } else {
            let corrupt = self.corrupt_on(channel);
            shows_alone(params, &self.window, corrupt, &only.bytes, seen)
        }
    }

    /// Returns the bytes of the node's offer on the channel, with any outcome, or none without an offer.
    pub fn offered(&self, channel: Channel, node: NodeId) -> Option<&Bytes>
        ensures { option_copied result ≡ offer_in channel node self.now.sent }
    {
        offer_in(channel, node, self.sent.as_slice())
    }

    /// Returns the bytes of the longest transmission that passed on the channel, up to 262, or 0.
    pub fn longest(&self, channel: Channel) -> u16
        ensures value { result ≡ longest channel self.now.sent }
        ensures few { result ≤ 262 }
    {
        longest(channel, self.sent.as_slice())
    }
}

/// Returns the bytes of the longest transmission that passed on the channel, or 0.
fn longest(channel: Channel, sent: &[Sent]) -> u16
    ensures value { result ≡ longest channel sent.now }
    ensures few { result ≤ 262 }
{
    let mut most = 0;
    for t in sent {
        if t.passed_on(channel) {
            most = most.max(length_of(t));
        }
    }
    most
}

/// Returns the number of bytes of the transmission.
fn length_of(sent: &Sent) -> u16
    ensures value { result ≡ length sent.now.bytes.items }
    ensures few { result ≤ 262 }
{
    sent.bytes.len() as u16
}
