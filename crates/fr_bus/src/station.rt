//! The nodes' puts and takes in the open window, and the faults of nodes.

ghost use Rattle.std.specs.Prelude.{◌≡◌, ◌<◌, ◌≤◌, ℕ, [], length, replicate, None, Some, OnErr, OnOk, IfOk};
ghost use Rattle.std.specs.Prelude.{slice_index_or, slice_set};
ghost use Rattle.std.specs.Result.{result_err};
ghost use Rattle.fr_bus.specs.Record.{side_on};
ghost use Rattle.fr_bus.specs.States.{idle_station, silent_side, offering, taking, babbling, muting};
ghost use Rattle.fr_bus.specs.Outcome.{sent_from};
ghost use Rattle.fr_bus.specs.Stations.{AllSendNothing, SendNothing, SendsNothing};
ghost use Rattle.fr_bus.specs.Stations.{side_in, silent_sides, with_offers, with_babble, with_mute};
ghost use Rattle.fr_schedule.specs.Descriptions.{Description};
ghost use Rattle.fr_slots.specs.Windows.{Opportunity};

use fr_frame::frame::{Bytes, duplicate_bytes};
use fr_interface::interface::Offer;
use fr_slots::channel::Channel;
use fr_slots::numbers::NodeId;
use std::alloc::{AllocError, Global};
use std::marker::Model;

/// The transmissions of a node on one channel of the open window.
#[derive(Drop)]
pub(crate) struct Side {
    /// The offer.
    pub(crate) offer: Option<Bytes>,
    /// The babble beside the offer.
    pub(crate) babble: Option<Bytes>,
    /// True if the offer is muted.
    pub(crate) mute: bool,
}

/// The transmissions of a node on both channels of the open window.
#[derive(Drop)]
struct Sides {
    a: Side,
    b: Side,
}

impl Sides {
    /// Returns the transmissions on the channel.
    fn side(&self, channel: Channel) -> &Side
        ensures { result.now ≡ side_in channel self.now }
    {
        match channel {
            Channel::A => &self.a,
            Channel::B => &self.b,
        }
    }

    /// Copies the offer.
    fn put(&mut self, offer: &Offer)
        ensures { self.new ≡ with_offers self.old offer.now }
    {
        keep(&mut self.a.offer, &offer.a);
        keep(&mut self.b.offer, &offer.b);
    }

    /// Adds a babble.
    fn babble(&mut self, channel: Channel, bytes: Bytes)
        ensures { self.new ≡ with_babble channel bytes self.old }
    {
        match channel {
            Channel::A => self.a.babble = Some(bytes),
            Channel::B => self.b.babble = Some(bytes),
        }
    }

    /// Mutes the offer on the channel.
    fn mute(&mut self, channel: Channel)
        ensures { self.new ≡ with_mute channel self.old }
    {
        match channel {
            Channel::A => self.a.mute = true,
            Channel::B => self.b.mute = true,
        }
    }

    /// Clears both sides.
    fn clear(&mut self)
        ensures { self.new ≡ silent_sides }
    {
        self.a.clear();
        self.b.clear();
    }

    /// Returns the greatest number of transmissions.
    fn count_offered(&self) -> usize
        ensures few { result ≤ 4 }
        ensures none { result ≡ 0 → SendNothing self.now }
    {
        self.a.count_offered() + self.b.count_offered()
    }
}

// With flags and transmissions in one list, the run of the car took 6 % longer.
/// The stations of all nodes in the open window, at most 16.
///
/// The flags are beside the bus's counts, since each call of a node writes them. They are apart from the transmissions,
/// since few nodes send. So a call of a node that sends nothing leaves the others' cache lines alone.
#[derive(Drop)]
pub(crate) struct Stations {
    /// The nodes that have put an offer, which may be nothing on both channels.
    put: [bool; 16],
    /// The nodes that have taken their observations.
    taken: [bool; 16],
    /// The transmissions of each node.
    sides: Vec<Sides>,
}

impl Model for Stations {
    ghost use Rattle.std.specs.Prelude.{List};
    ghost use Rattle.fr_bus.specs.Stations.{Station};

    ghost Value = { List Station };

    ghost use Rattle.fr_bus.specs.StationsFields.{stations_in, HasRoom};

    ghost view = { stations_in };

    ghost invariant = { HasRoom };
}

impl Stations {
    /// Returns so many idle stations.
    #[tactic(auto, using(crate::proofs::StationLemmas::stations_idle))]
    pub(crate) fn idle(alloc: Global, count: usize) -> Result<Stations, AllocError>
        requires { count ≤ 16 }
        ensures { IfOk result (λ stations. stations ≡ replicate count idle_station) }
    {
        Ok(Stations {
            put: [false; 16],
            taken: [false; 16],
            sides: silent_sides(alloc, count)?,
        })
    }

    /// Returns the number of stations.
    #[tactic(auto, using(crate::proofs::StationLemmas::length_stations))]
    pub(crate) fn len(&self) -> usize
        ensures value { result ≡ length self.now }
        ensures few { result ≤ 16 }
    {
        self.sides.len()
    }

    /// Returns whether the node has put its offer.
    pub(crate) fn has_put(&self, node: NodeId) -> bool
        requires { node < length self.now }
        ensures { result ≡ (slice_index_or self.now node idle_station).put }
    {
        self.put[usize::from(node.number())]
    }

    /// Returns whether the node has taken its observation.
    pub(crate) fn has_taken(&self, node: NodeId) -> bool
        requires { node < length self.now }
        ensures { result ≡ (slice_index_or self.now node idle_station).taken }
    {
        self.taken[usize::from(node.number())]
    }

    /// Returns the node's transmissions on the channel.
    #[tactic(auto, using(crate::proofs::StationLemmas::length_stations))]
    pub(crate) fn side(&self, node: NodeId, channel: Channel) -> &Side
        requires { node < length self.now }
        ensures { result.now ≡ side_on channel (slice_index_or self.now node idle_station) }
    {
        self.sides[usize::from(node.number())].side(channel)
    }

    /// Copies the node's offer.
    #[tactic(auto, using(crate::proofs::StationLemmas::length_stations))]
    pub(crate) fn put(&mut self, node: NodeId, offer: &Offer)
        requires { node < length self.old }
        ensures { self.new ≡ slice_set self.old node (offering (slice_index_or self.old node idle_station) offer.now) }
    {
        let place = usize::from(node.number());
        self.put[place] = true;
        self.sides[place].put(offer);
    }

    /// Marks that the node has taken its observation.
    pub(crate) fn take(&mut self, node: NodeId)
        requires { node < length self.old }
        ensures { self.new ≡ slice_set self.old node (taking (slice_index_or self.old node idle_station)) }
    {
        self.taken[usize::from(node.number())] = true;
    }

    /// Adds a babble of the node.
    #[tactic(auto, using(crate::proofs::StationLemmas::length_stations))]
    pub(crate) fn babble(&mut self, node: NodeId, channel: Channel, bytes: Bytes)
        requires { node < length self.old }
        ensures { self.new
            ≡ slice_set self.old node (babbling channel bytes (slice_index_or self.old node idle_station)) }
    {
        self.sides[usize::from(node.number())].babble(channel, bytes);
    }

    /// Mutes the node's offer on the channel.
    #[tactic(auto, using(crate::proofs::StationLemmas::length_stations))]
    pub(crate) fn mute(&mut self, node: NodeId, channel: Channel)
        requires { node < length self.old }
        ensures { self.new ≡ slice_set self.old node (muting channel (slice_index_or self.old node idle_station)) }
    {
        self.sides[usize::from(node.number())].mute(channel);
    }

    /// Clears all stations for the next window, and moves no bytes.
    pub(crate) fn clear(&mut self)
        ensures { self.new ≡ replicate (length self.old) idle_station }
    {
        self.put = [false; 16];
        self.taken = [false; 16];
        clear_sides(&mut self.sides);
    }

    /// Returns the greatest number of transmissions.
    pub(crate) fn count_offered(&self) -> usize
        ensures few { result ≤ 64 }
        ensures none { result ≡ 0 → (d : Description) (w : Opportunity) (n : ℕ) → sent_from d w n self.now ≡ [] }
    {
        count_offered(self.sides.as_slice())
    }
}

/// Returns the number of offers and babbles, some of which may be no transmissions.
fn count_offered(sides: &[Sides]) -> usize
    requires { length sides.now ≤ 16 }
    ensures few { result ≤ 64 }
    ensures none { result ≡ 0 → AllSendNothing sides.now }
{
    let mut count = 0;
    for both in sides {
        count += both.count_offered();
    }
    count
}

impl Side {
    /// Clears the side, and writes only where something is set.
    fn clear(&mut self)
        ensures { self.new ≡ silent_side }
    {
        forget(&mut self.offer);
        forget(&mut self.babble);
        if self.mute {
            self.mute = false;
        }
    }

    /// Returns the greatest number of transmissions of the side.
    fn count_offered(&self) -> usize
        ensures few { result ≤ 2 }
        ensures none { result ≡ 0 → SendsNothing self.now }
    {
        match (&self.offer, &self.babble) {
            (Some(_), Some(_)) => 2,
            (None, None) => 0,
            _ => 1,
        }
    }
}

/// Replaces the kept bytes by the offer. Bytes are written over the old ones, and nothing is written if nothing is kept
/// or offered.
fn keep(kept: &mut Option<Bytes>, offered: &Option<Bytes>)
    ensures { kept.new ≡ offered.now }
{
    match offered {
        Some(bytes) => keep_bytes(kept, bytes),
        None => forget(kept),
    }
}

/// Replaces the kept bytes by a copy of these.
///
/// It isn't inlined, so that an empty offer doesn't pay for the room of a frame.
#[inline(never)]
fn keep_bytes(kept: &mut Option<Bytes>, bytes: &Bytes)
    ensures { kept.new ≡ Some bytes.now }
{
    match kept {
        Some(place) => write_over(place, bytes),
        None => *kept = Some(duplicate_bytes(bytes)),
    }
}

/// Writes these bytes over the old ones.
pub(crate) fn write_over(place: &mut Bytes, bytes: &Bytes)
    ensures { place.new ≡ bytes.now }
{
    place.clear();
    let outcome = place.try_extend_from_slice(bytes.as_slice());
    let fits = outcome.is_ok();
    prove!(fits);
}

/// Clears the kept bytes, and writes only if there are some.
fn forget(kept: &mut Option<Bytes>)
    ensures { kept.new ≡ None }
{
    if kept.is_some() {
        *kept = None;
    }
}

/// Returns an idle side.
fn silent_side() -> Side
    ensures { result ≡ silent_side }
{
    Side {
        offer: None,
        babble: None,
        mute: false,
    }
}

/// Returns two idle sides.
fn silent_both() -> Sides
    ensures { result ≡ silent_sides }
{
    Sides {
        a: silent_side(),
        b: silent_side(),
    }
}

/// Clears all sides.
fn clear_sides(sides: &mut Vec<Sides>)
    ensures { sides.new.items ≡ replicate (length sides.old.items) silent_sides }
{
    for place in 0..sides.len() {
        sides[place].clear();
    }
}

/// Returns the idle sides of so many nodes.
fn silent_sides(alloc: Global, count: usize) -> Result<Vec<Sides>, AllocError>
    ensures { IfOk result (λ sides. sides.items ≡ replicate count silent_sides) }
{
    let mut sides = Vec::new(alloc);
    for _place in 0..count {
        sides.push(silent_both())?;
    }
    Ok(sides)
}
