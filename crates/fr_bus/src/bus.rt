//! The bus of a cluster.

ghost use Rattle.std.specs.Prelude.{◌≡◌, ◌-◌, [], ◌∷◌, ◌++◌, length, OnOk, OnErr, option_map, slice_get};

use crate::error::{BusError, Phase};
use crate::fault::Fault;
use crate::kept::KeptBus;
use crate::live::hear;
use crate::outcome::Sealed;
use fr_interface::interface::Offer;
use fr_interface::sight::{Heard, Sight};
use fr_schedule::cluster::Cluster;
use fr_slots::channel::Channel;
use fr_slots::numbers::NodeId;
use fr_slots::window::Window;
use fr_status::seen::Seen;
use std::alloc::{AllocError, Global};
use std::marker::Model;

/// The bus of a cluster in a run of so many cycles. It has the open window, what the nodes put and take in it, the
/// injected faults, and the record of all windows before it (project-defined; the order of slots is that of chapter 5).
///
/// A window has three phases. While the bus collects, each node puts its offer once, and faults may be injected. Once
/// all nodes have put, `seal` decides the outcome of each transmission and appends it to the record. Then each node
/// takes its observation, once, and when all have taken, `advance` opens the next window.
#[derive(Drop)]
pub struct Bus {
    kept: KeptBus,
    record: Vec<Sealed>,
}

impl Model for Bus {
    ghost use Rattle.fr_bus.specs.States.{BusState};

    ghost Value = { BusState };

    ghost use Rattle.fr_bus.specs.BusFields.{state_in, IsLawful};

    ghost view = { state_in };

    ghost invariant = { IsLawful };
}

/// Appends a window to the sealed ones.
fn append(list: &mut Vec<Sealed>, sealed: Sealed) -> Result<(), AllocError>
    ensures ok { OnOk result (list.new.items ≡ list.old.items ++ sealed ∷ []) }
    ensures err { OnErr result (list.new.items ≡ list.old.items) }
{
    list.push(sealed)?;
    Ok(())
}

/// Returns the last of these windows.
fn last_of(windows: &[Sealed]) -> Option<&Sealed>
    ensures { option_map (λ s. s.now) result ≡ slice_get windows.now (length windows.now - 1) }
{
    windows.get(windows.len().saturating_sub(1))
}

impl Bus {
    ghost use Rattle.std.specs.Prelude.{◌≡◌, ◌≤◌, ◌↔◌, IsTrue, OnOk, OnErr, IfOk, length};
    ghost use Rattle.std.specs.Result.{result_err};
    ghost use Rattle.fr_bus.specs.declared.error.Phase.TheVariants as phase;
    ghost use Rattle.fr_bus.specs.Windows.{cycles_begun};
    ghost use Rattle.fr_bus.specs.States.{all_put, all_taken, collecting_of, put_refusal, put_done};
    ghost use Rattle.fr_bus.specs.States.{inject_refusal, inject_done, Seals, take_refusal, take_done};
    ghost use Rattle.fr_bus.specs.States.{seen_last, advance_refusal, advanced, IsRun, OneSenderEach, Opens};
    ghost use Rattle.fr_bus.specs.States.{last_heard};
    ghost use Rattle.fr_interface.specs.Sights.{seen_in};
    ghost use Rattle.fr_slots.specs.declared.channel.Channel.TheVariants as channel;

    /// Returns the bus of a cluster for a run of so many cycles, 1 to 1024. It collects in its first window: cycle 0,
    /// slot 1.
    ///
    /// Fails with `BadCycles` for 0 cycles or more than 1024, then with `Memory` if an allocation fails.
    pub fn new(alloc: Global, cluster: &Cluster, cycles: u16) -> Result<Bus, BusError>
        ensures { Opens cluster.now cycles result }
    {
        if cycles == 0 || cycles > 1024 {
            return Err(BusError::BadCycles);
        }
        // For the prover: the ranges of the parameters.
        let _minislots = cluster.params().minislots;
        match KeptBus::new(alloc, cluster, u32::from(cycles)) {
            Ok(kept) => Ok(Bus {
                kept,
                record: Vec::new(alloc),
            }),
            Err(_) => Err(BusError::Memory),
        }
    }

    /// Returns the open window, or none once the run is over.
    pub fn window(&self) -> Option<Window>
        ensures { result ≡ self.now.opened }
    {
        self.kept.window()
    }

    /// Returns the phase of the open window.
    pub fn phase(&self) -> Phase
        ensures { result ≡ self.now.phase }
    {
        self.kept.phase()
    }

    // With `nodes`, `all_put` and `all_taken`, a waiting caller decides with one look. At the end of a run the bus
    // answers `NotCollecting` or `NotSealed`.
    /// Returns the open window while the bus collects, or none once it is sealed or the run is over.
    pub fn collecting(&self) -> Option<Window>
        ensures { result ≡ collecting_of self.now }
    {
        self.kept.collecting()
    }

    /// Returns the number of nodes, 1 to 16.
    pub fn nodes(&self) -> u8
        ensures { result ≡ length self.now.stations }
    {
        self.kept.nodes()
    }

    /// Returns whether the bus was made for this cluster.
    pub fn is_of(&self, cluster: &Cluster) -> bool
        ensures { IsTrue result ↔ (self.now.cluster ≡ cluster.now) }
    {
        self.kept.is_of(cluster)
    }

    /// Returns whether all nodes have put their offers in the open window.
    pub fn all_put(&self) -> bool
        ensures { result ≡ all_put self.now }
    {
        self.kept.all_put()
    }

    /// Returns whether all nodes have taken their observations in the open window.
    pub fn all_taken(&self) -> bool
        ensures { result ≡ all_taken self.now }
    {
        self.kept.all_taken()
    }

    /// Returns the sealed windows, in the order of their numbers, which are counted from 0.
    ///
    /// Each is the window that follows those before it, with the outcome of the offers and faults of the cluster's
    /// nodes. So in a static slot of a guarded channel everything that passed is from one sender.
    pub fn record(&self) -> &[Sealed]
        ensures value { result.now ≡ self.now.sealed }
        ensures run { IsRun self.now }
        ensures one_sender { OneSenderEach self.now.cluster self.now.sealed }
        ensures few { cycles_begun self.now.sealed ≤ 1024 }
    {
        // For the prover: the clauses of these calls.
        self.known();
        let _begun = self.kept.begun();
        self.record.as_slice()
    }

    /// Returns the number of cycles that began with a sealed window, 0 to 1024. While the bus collects in the first
    /// window of a cycle, this is the number of the run cycle, counted from 0 and not wrapped at 64. In any other
    /// window, and once that window is sealed, it is one more.
    pub fn cycles_begun(&self) -> u16
        ensures { result ≡ cycles_begun self.now.sealed }
    {
        self.kept.begun() as u16
    }

    /// States the properties of every bus, and has no effect. The record is that of a run, each static slot of a
    /// guarded channel carries at most one sender, and a run that is over had all its cycles.
    pub fn known(&self)
        ensures run { IsRun self.now }
        ensures one_sender { OneSenderEach self.now.cluster self.now.sealed }
        ensures few_cycles { self.now.cycles ≤ 1024 }
        ensures all_cycles { self.now.phase ≡ phase.Finished → cycles_begun self.now.sealed ≡ self.now.cycles }
    {
        // For the prover: the clause of this call.
        self.kept.known();
    }

    /// Copies the node's offer in the open window, which has this number. On a channel without a slot, and without
    /// bytes, an offer is accepted and has no effect.
    ///
    /// Fails, in this order, with `UnknownNode`, `NotCollecting`, `WrongWindow` if another window is open, and
    /// `AlreadyPut`. A refusal leaves the bus unchanged.
    pub fn put(&mut self, node: NodeId, number: u32, offer: &Offer) -> Result<(), BusError>
        ensures refusal { result_err result ≡ put_refusal self.old node number }
        ensures accepted { OnOk result (self.new ≡ put_done self.old node offer.now) }
        ensures refused { OnErr result (self.new ≡ self.old) }
    {
        self.kept.put(node, number, offer)
    }

    /// Injects the fault in the open window alone.
    ///
    /// Fails, in this order, with `UnknownNode`, `NotCollecting`, and `TooManyFaults` if the window has a fault of this
    /// kind, node and channel; for `Corrupt` each channel has one. A babble without bytes counts too. A refusal leaves
    /// the bus unchanged.
    pub fn inject(&mut self, fault: Fault) -> Result<(), BusError>
        ensures refusal { result_err result ≡ inject_refusal self.old fault }
        ensures accepted { OnOk result (self.new ≡ inject_done self.old fault) }
        ensures refused { OnErr result (self.new ≡ self.old) }
    {
        self.kept.inject(fault)
    }

    /// Decides the outcome of each transmission of the open window, and appends it to the record.
    ///
    /// A muted offer is lost. Of all other transmissions, those pass that the guardian lets pass.
    ///
    /// Fails, in this order, with `NotCollecting`, `NotAllPut`, and `Memory` if the allocation for the record fails. A
    /// refusal leaves the bus unchanged, and a later call may succeed.
    pub fn seal(&mut self) -> Result<(), BusError>
        ensures { Seals self.old result self.new }
    {
        let sealed = self.kept.outcome()?;
        let window = sealed.window;
        let a = sealed.longest(Channel::A);
        let b = sealed.longest(Channel::B);
        let Ok(()) = append(&mut self.record, sealed) else {
            return Err(BusError::Memory);
        };
        self.kept.close(&window, a, b);
        Ok(())
    }

    /// Returns the node's observations on channel A and on B in the sealed window, which has this number.
    ///
    /// Fails, in this order, with `UnknownNode`, `NotSealed`, `WrongWindow` if another window is open, and
    /// `AlreadyTaken`. A refusal leaves the bus unchanged.
    pub fn take(&mut self, node: NodeId, number: u32) -> Result<(Seen, Seen), BusError>
        ensures refusal { result_err result ≡ take_refusal self.old node number }
        ensures seen { IfOk result (λ s. s ≡ (seen_last self.old channel.A node, seen_last self.old channel.B node)) }
        ensures accepted { OnOk result (self.new ≡ take_done self.old node) }
        ensures refused { OnErr result (self.new ≡ self.old) }
    {
        let (mut a, mut b) = (Seen::Silence, Seen::Silence);
        self.take_into(node, number, &mut a, &mut b)?;
        Ok((a, b))
    }

    /// Does the same as `take`, with the same refusals, and writes the observations to `a` and `b`. Bytes are written
    /// over the old ones. A refusal leaves `a` and `b` unchanged too.
    pub fn take_into(
        &mut self,
        node: NodeId,
        number: u32,
        a: &mut Seen,
        b: &mut Seen,
    ) -> Result<(), BusError>
        ensures refusal { result_err result ≡ take_refusal self.old node number }
        ensures seen_on_a { OnOk result (a.new ≡ seen_last self.old channel.A node) }
        ensures seen_on_b { OnOk result (b.new ≡ seen_last self.old channel.B node) }
        ensures accepted { OnOk result (self.new ≡ take_done self.old node) }
        ensures refused { OnErr result (self.new ≡ self.old) }
        ensures refused_a { OnErr result (a.new ≡ a.old) }
        ensures refused_b { OnErr result (b.new ≡ b.old) }
    {
        let last = last_of(self.record.as_slice());
        self.kept.take_into(last, node, number, a, b)
    }

    /// Takes the node's observations of the sealed window, which has this number, without a copy: `sight` lends them
    /// (project-defined). Fails as `take` does, and a refusal leaves the bus unchanged.
    pub fn take_lent(&mut self, node: NodeId, number: u32) -> Result<(), BusError>
        ensures refusal { result_err result ≡ take_refusal self.old node number }
        ensures accepted { OnOk result (self.new ≡ take_done self.old node) }
        ensures refused { OnErr result (self.new ≡ self.old) }
    {
        self.kept.take(node, number)
    }

    /// Writes the observation of a node that sends nothing on the channel of the last sealed window, or silence before
    /// the first one (project-defined). Its frame is decoded once, for all nodes to which `sight` lends it.
    pub fn hear_into(&self, channel: Channel, place: &mut Heard)
        ensures { place.new ≡ last_heard self.now channel }
    {
        match last_of(self.record.as_slice()) {
            Some(sealed) => hear(self.kept.params(), sealed, channel, place),
            None => place.fall_silent(),
        }
    }

    /// Returns the node's observation on the channel of the last sealed window, or silence before the first one
    /// (project-defined). `heard` must be what `hear_into` writes for this channel now. Nothing is copied.
    pub fn sight<'a>(&self, node: NodeId, channel: Channel, heard: &'a Heard) -> Sight<'a>
        requires { heard.now ≡ last_heard self.now channel }
        ensures { seen_in result ≡ seen_last self.now channel node }
    {
        match last_of(self.record.as_slice()) {
            Some(sealed) => sealed.sight(self.kept.params(), channel, node, heard),
            None => Sight::Heard(heard),
        }
    }

    /// Opens the next window, without offers and faults, or ends the run. The next window is the next static slot.
    /// After these it is the next minislot at which a channel opens a slot, and after these the first slot of the next
    /// cycle.
    ///
    /// Fails, in this order, with `NotSealed` and `NotAllTaken`. A refusal leaves the bus unchanged.
    pub fn advance(&mut self) -> Result<(), BusError>
        ensures refusal { result_err result ≡ advance_refusal self.old }
        ensures accepted { OnOk result (self.new ≡ advanced self.old) }
        ensures refused { OnErr result (self.new ≡ self.old) }
    {
        self.kept.advance()
    }
}
