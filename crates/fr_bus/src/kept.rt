//! The data that a bus keeps for its calls, without the windows before.

ghost use Rattle.std.specs.Prelude.{◌≡◌, IfOk, slice_index_or, None};
ghost use Rattle.fr_bus.specs.Outcome.{sent_from};
ghost use Rattle.fr_bus.specs.States.{has_number, phase_at};

use crate::course::RunCourse;
use crate::error::{BusError, Phase};
use crate::fault::Fault;
use crate::outcome::{Sealed, all_sent};
use crate::station::Stations;
use fr_frame::frame::Bytes;
use fr_guardian::guardian::Guardian;
use fr_interface::interface::Offer;
use fr_schedule::cluster::Cluster;
use fr_slots::channel::Channel;
use fr_slots::numbers::NodeId;
use fr_slots::params::Params;
use fr_slots::window::Window;
use fr_status::seen::Seen;
use std::alloc::{AllocError, Global};
use std::marker::Model;

/// The data that a bus keeps: the open window, what the nodes put and take in it, the injected faults, and the progress
/// of the run.
#[derive(Drop)]
pub(crate) struct KeptBus {
    alloc: Global,
    guardian: Guardian,
    cycles: u32,
    phase: Phase,
    /// The open window, until the end of the run.
    opened: Option<Window>,
    /// The progress of the run.
    course: RunCourse,
    /// The stations, one for each node.
    stations: Stations,
    // Without the counts, up to 16 stations of a kilobyte were read under the lock for each test. The invariant says
    // that both count the stations.
    /// The number of stations that have put in the open window.
    put_count: usize,
    /// The number of stations that have taken in it.
    taken_count: usize,
    /// The bits to be flipped in the open window, on A and on B.
    corrupt: [Option<u16>; 2],
}

impl Model for KeptBus {
    ghost use Rattle.fr_bus.specs.Standing.{BusStanding};

    ghost Value = { BusStanding };

    ghost use Rattle.fr_bus.specs.KeptFields.{standing_in, IsLawful};

    ghost view = { standing_in };

    ghost invariant = { IsLawful };
}

/// Returns the outcome of a window.
fn sealed_window(
    alloc: Global,
    guardian: &Guardian,
    window: Window,
    stations: &Stations,
    corrupt: [Option<u16>; 2],
) -> Result<Sealed, AllocError>
    ensures { IfOk result
        (λ s.
        s
        ≡ record {
          window = window;
          sent = sent_from guardian.now window 0 stations.now;
          corrupt_a = slice_index_or corrupt 0 None;
          corrupt_b = slice_index_or corrupt 1 None;
        }) }
{
    let sent = all_sent(alloc, guardian, &window, stations)?;
    Ok(Sealed {
        window,
        sent,
        corrupt,
    })
}

/// Returns the phase in which this window opens; without a window the run is finished.
fn phase_at(window: &Option<Window>) -> Phase
    ensures { result ≡ phase_at window.now }
{
    match window {
        Some(_) => Phase::Collect,
        None => Phase::Finished,
    }
}

/// Returns whether there is a window and it has this number.
fn has_number(number: u32, window: &Option<Window>) -> bool
    ensures { result ≡ has_number number window.now }
{
    match window {
        Some(window) => window.number == number,
        None => false,
    }
}

impl KeptBus {
    ghost use Rattle.std.specs.Prelude.{◌≡◌, ◌≤◌, ◌<◌, ◌*◌, ◌^◌, ◌↔◌, IsTrue, OnOk, OnErr, IfOk, length, option_map};
    ghost use Rattle.std.specs.Result.{result_err};
    ghost use Rattle.fr_bus.specs.Courses.{IsCourse, opportunities};
    ghost use Rattle.fr_bus.specs.declared.fault.Fault.TheVariants as fault;
    ghost use Rattle.fr_bus.specs.Standing.{standing_of, bare, ForEachBusHistory, IsBusHistory, Decides, IsDecided};
    ghost use Rattle.fr_bus.specs.States.{is_node, all_put, all_taken, collecting_of, put_refusal, put_done, new_bus};
    ghost use Rattle.fr_bus.specs.States.{inject_refusal, inject_done, take_refusal, take_done, advance_refusal};
    ghost use Rattle.fr_bus.specs.States.{advanced, seen_where, sealed_now};
    ghost use Rattle.fr_slots.specs.declared.channel.Channel.TheVariants as channel;

    /// Returns the data at the start of a run of so many cycles.
    pub(crate) fn new(alloc: Global, cluster: &Cluster, cycles: u32) -> Result<KeptBus, AllocError>
        requires some { 1 ≤ cycles }
        requires few { cycles * opportunities cluster.now.params < 2 ^ 32 }
        ensures new { IfOk result (λ h. h ≡ standing_of (new_bus cluster.now cycles)) }
        ensures history { IfOk result (λ h. IsBusHistory h (new_bus cluster.now cycles)) }
    {
        let guardian = Guardian::new(alloc, cluster)?;
        let stations = Stations::idle(alloc, usize::from(cluster.nodes()))?;
        let course = RunCourse::new(cluster.params(), cycles);
        let opened = course.next();
        Ok(KeptBus {
            alloc,
            guardian,
            cycles,
            phase: Phase::Collect,
            opened,
            course,
            stations,
            put_count: 0,
            taken_count: 0,
            corrupt: [None, None],
        })
    }

    /// Returns the open window, or none once the run is over.
    pub(crate) fn window(&self) -> Option<Window>
        ensures { result ≡ self.now.opened }
    {
        self.opened
    }

    /// Returns the phase of the open window.
    pub(crate) fn phase(&self) -> Phase
        ensures { result ≡ self.now.phase }
    {
        self.phase
    }

    // With `nodes`, `all_put` and `all_taken`, a waiting caller decides with one look. At the end of a run the bus
    // answers `NotCollecting` or `NotSealed`.
    /// Returns the open window while the bus collects, or none once it is sealed or the run is over.
    pub(crate) fn collecting(&self) -> Option<Window>
        ensures { result ≡ collecting_of (bare self.now) }
    {
        if self.phase.collects() {
            self.opened
        } else {
            None
        }
    }

    /// Returns the number of nodes, 1 to 16.
    pub(crate) fn nodes(&self) -> u8
        ensures { result ≡ length self.now.stations }
    {
        self.stations.len() as u8
    }

    /// Returns whether the bus was made for this cluster.
    pub(crate) fn is_of(&self, cluster: &Cluster) -> bool
        ensures { IsTrue result ↔ (self.now.cluster ≡ cluster.now) }
    {
        self.guardian.is_of(cluster)
    }

    /// Returns whether all nodes have put their offers in the open window.
    #[tactic(auto, using(crate::proofs::CountLemmas::all_counted))]
    pub(crate) fn all_put(&self) -> bool
        ensures { result ≡ all_put (bare self.now) }
    {
        self.put_count == self.stations.len()
    }

    /// Returns whether all nodes have taken their observations in the open window.
    #[tactic(auto, using(crate::proofs::CountLemmas::all_counted))]
    pub(crate) fn all_taken(&self) -> bool
        ensures { result ≡ all_taken (bare self.now) }
    {
        self.taken_count == self.stations.len()
    }

    /// Returns the number of cycles that began with a sealed window.
    pub(crate) fn begun(&self) -> u32
        ensures value { result ≡ self.now.course.begun }
        ensures few { result ≤ self.now.cycles }
    {
        // For the prover: the clause of this call.
        self.known();
        self.course.begun()
    }

    /// States the properties of every course, and has no effect.
    pub(crate) fn known(&self)
        ensures { IsCourse self.now.course }
    {
        // For the prover: the clause of this call.
        self.course.known();
    }

    /// Returns whether the cluster has the node.
    fn is_node(&self, node: NodeId) -> bool
        ensures { result ≡ is_node (bare self.now) node }
    {
        usize::from(node.number()) < self.stations.len()
    }

    /// Copies the node's offer in the open window, as `Bus::put` does.
    pub(crate) fn put(&mut self, node: NodeId, number: u32, offer: &Offer) -> Result<(), BusError>
        ensures refusal { result_err result ≡ put_refusal (bare self.old) node number }
        ensures history { ForEachBusHistory self.old (λ b. OnOk result
            (IsBusHistory self.new (put_done b node offer.now))) }
        ensures refused { OnErr result (self.new ≡ self.old) }
        ensures cluster { self.new.cluster ≡ self.old.cluster }
    {
        if !self.is_node(node) {
            return Err(BusError::UnknownNode);
        }
        if !self.phase.collects() {
            return Err(BusError::NotCollecting);
        }
        if !has_number(number, &self.opened) {
            return Err(BusError::WrongWindow);
        }
        if self.stations.has_put(node) {
            return Err(BusError::AlreadyPut);
        }
        self.stations.put(node, offer);
        self.put_count += 1;
        Ok(())
    }

    /// Adds a transmission of the node.
    fn babble(&mut self, node: NodeId, channel: Channel, bytes: Bytes) -> Result<(), BusError>
        ensures refusal { result_err result ≡ inject_refusal (bare self.old) (fault.Babble node channel bytes) }
        ensures history { ForEachBusHistory self.old (λ b. OnOk result
            (IsBusHistory self.new (inject_done b (fault.Babble node channel bytes)))) }
        ensures refused { OnErr result (self.new ≡ self.old) }
        ensures cluster { self.new.cluster ≡ self.old.cluster }
    {
        if !self.is_node(node) {
            return Err(BusError::UnknownNode);
        }
        if !self.phase.collects() {
            return Err(BusError::NotCollecting);
        }
        if self.stations.side(node, channel).babble.is_some() {
            return Err(BusError::TooManyFaults);
        }
        self.stations.babble(node, channel, bytes);
        Ok(())
    }

    /// Mutes the node's offer on the channel.
    fn mute(&mut self, node: NodeId, channel: Channel) -> Result<(), BusError>
        ensures refusal { result_err result ≡ inject_refusal (bare self.old) (fault.Mute node channel) }
        ensures history { ForEachBusHistory self.old (λ b. OnOk result
            (IsBusHistory self.new (inject_done b (fault.Mute node channel)))) }
        ensures refused { OnErr result (self.new ≡ self.old) }
        ensures cluster { self.new.cluster ≡ self.old.cluster }
    {
        if !self.is_node(node) {
            return Err(BusError::UnknownNode);
        }
        if !self.phase.collects() {
            return Err(BusError::NotCollecting);
        }
        if self.stations.side(node, channel).mute {
            return Err(BusError::TooManyFaults);
        }
        self.stations.mute(node, channel);
        Ok(())
    }

    /// Has a bit flipped on the channel.
    fn corrupt(&mut self, channel: Channel, bit: u16) -> Result<(), BusError>
        ensures refusal { result_err result ≡ inject_refusal (bare self.old) (fault.Corrupt channel bit) }
        ensures history { ForEachBusHistory self.old (λ b. OnOk result
            (IsBusHistory self.new (inject_done b (fault.Corrupt channel bit)))) }
        ensures refused { OnErr result (self.new ≡ self.old) }
        ensures cluster { self.new.cluster ≡ self.old.cluster }
    {
        if !self.phase.collects() {
            return Err(BusError::NotCollecting);
        }
        let [a, b] = self.corrupt;
        match (channel, a, b) {
            (Channel::A, None, _) => self.corrupt = [Some(bit), b],
            (Channel::B, _, None) => self.corrupt = [a, Some(bit)],
            _ => return Err(BusError::TooManyFaults),
        }
        Ok(())
    }

    /// Injects the fault in the open window, as `Bus::inject` does.
    pub(crate) fn inject(&mut self, fault: Fault) -> Result<(), BusError>
        ensures refusal { result_err result ≡ inject_refusal (bare self.old) fault }
        ensures history { ForEachBusHistory self.old (λ b. OnOk result (IsBusHistory self.new (inject_done b fault))) }
        ensures refused { OnErr result (self.new ≡ self.old) }
        ensures cluster { self.new.cluster ≡ self.old.cluster }
    {
        match fault {
            Fault::Babble {
                node,
                channel,
                bytes,
            } => self.babble(node, channel, bytes),
            Fault::Mute { node, channel } => self.mute(node, channel),
            Fault::Corrupt { channel, bit } => self.corrupt(channel, bit),
        }
    }

    /// Returns the outcome of each transmission of the open window. `close` ends the window.
    ///
    /// Fails, in this order, with `NotCollecting`, `NotAllPut`, and `Memory` if the allocation fails.
    pub(crate) fn outcome(&self) -> Result<Sealed, BusError>
        ensures { Decides self.now result }
    {
        if !self.phase.collects() {
            return Err(BusError::NotCollecting);
        }
        if !self.all_put() {
            return Err(BusError::NotAllPut);
        }
        let Some(window) = self.opened else {
            unreachable!();
        };
        let (guardian, stations) = (&self.guardian, &self.stations);
        match sealed_window(self.alloc, guardian, window, stations, self.corrupt) {
            Ok(sealed) => Ok(sealed),
            Err(_) => Err(BusError::Memory),
        }
    }

    /// Seals the open window, given the bytes of the longest transmissions that pass in it on A and on B.
    pub(crate) fn close(&mut self, window: &Window, a: u16, b: u16)
        requires decided { IsDecided self.old window.now a b }
        requires few_a { a ≤ 262 }
        requires few_b { b ≤ 262 }
        ensures history { ForEachBusHistory self.old (λ s. IsBusHistory self.new (sealed_now s)) }
        ensures cluster { self.new.cluster ≡ self.old.cluster }
    {
        self.course.pass(window, a, b);
        self.phase = Phase::Sealed;
    }

    /// Returns the parameters of the cluster.
    pub(crate) fn params(&self) -> &Params
        ensures { result.now ≡ self.now.cluster.params }
    {
        self.guardian.params()
    }

    /// Takes the node's observations, as `Bus::take_into` does, without a look at them.
    pub(crate) fn take(&mut self, node: NodeId, number: u32) -> Result<(), BusError>
        ensures refusal { result_err result ≡ take_refusal (bare self.old) node number }
        ensures history { ForEachBusHistory self.old (λ s. OnOk result (IsBusHistory self.new (take_done s node))) }
        ensures refused { OnErr result (self.new ≡ self.old) }
        ensures cluster { self.new.cluster ≡ self.old.cluster }
    {
        if !self.is_node(node) {
            return Err(BusError::UnknownNode);
        }
        if !self.phase.seals() {
            return Err(BusError::NotSealed);
        }
        if !has_number(number, &self.opened) {
            return Err(BusError::WrongWindow);
        }
        if self.stations.has_taken(node) {
            return Err(BusError::AlreadyTaken);
        }
        self.stations.take(node);
        self.taken_count += 1;
        Ok(())
    }

    /// Writes the node's observation on the channel of the last sealed window to `seen`.
    fn see(&self, last: Option<&Sealed>, node: NodeId, channel: Channel, seen: &mut Seen)
        ensures { seen.new ≡ seen_where (bare self.now) (option_map (λ s. s.now) last.entry) channel node }
    {
        match last {
            Some(sealed) => sealed.see(self.course.params(), channel, node, seen),
            None => *seen = Seen::Silence,
        }
    }

    /// Writes the node's observations of the last sealed window to `a` and `b`, as `Bus::take_into` does.
    pub(crate) fn take_into(
        &mut self,
        last: Option<&Sealed>,
        node: NodeId,
        number: u32,
        a: &mut Seen,
        b: &mut Seen,
    ) -> Result<(), BusError>
        ensures refusal { result_err result ≡ take_refusal (bare self.old) node number }
        ensures seen_on_a { OnOk result
            (a.new ≡ seen_where (bare self.old) (option_map (λ s. s.now) last.entry) channel.A node) }
        ensures seen_on_b { OnOk result
            (b.new ≡ seen_where (bare self.old) (option_map (λ s. s.now) last.entry) channel.B node) }
        ensures history { ForEachBusHistory self.old (λ s. OnOk result (IsBusHistory self.new (take_done s node))) }
        ensures refused { OnErr result (self.new ≡ self.old) }
        ensures cluster { self.new.cluster ≡ self.old.cluster }
        ensures refused_a { OnErr result (a.new ≡ a.old) }
        ensures refused_b { OnErr result (b.new ≡ b.old) }
    {
        // It writes in place, as `put` and the interface's `fetch_into` do, so no room for frames is moved.
        self.take(node, number)?;
        self.see(last, node, Channel::A, a);
        self.see(last, node, Channel::B, b);
        Ok(())
    }

    /// Opens the next window or ends the run, as `Bus::advance` does.
    pub(crate) fn advance(&mut self) -> Result<(), BusError>
        ensures refusal { result_err result ≡ advance_refusal (bare self.old) }
        ensures history { ForEachBusHistory self.old (λ b. OnOk result (IsBusHistory self.new (advanced b))) }
        ensures refused { OnErr result (self.new ≡ self.old) }
        ensures cluster { self.new.cluster ≡ self.old.cluster }
    {
        if !self.phase.seals() {
            return Err(BusError::NotSealed);
        }
        if !self.all_taken() {
            return Err(BusError::NotAllTaken);
        }
        self.stations.clear();
        self.put_count = 0;
        self.taken_count = 0;
        self.corrupt = [None, None];
        let opened = self.course.next();
        self.phase = phase_at(&opened);
        self.opened = opened;
        Ok(())
    }
}
