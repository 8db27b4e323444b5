//! The world of a cluster.

use crate::error::StepError;
use crate::event::{Event, Reply};
use crate::front::{Front, front_of};
use crate::legal;
use crate::machine::Machine;
use fr_bus::bus::Bus;
use fr_bus::error::BusError;
use fr_bus::fault::Fault;
use fr_interface::interface::Interface;
use fr_schedule::cluster::Cluster;
use fr_slots::numbers::NodeId;
use std::alloc::Global;
use std::marker::Model;

/// The world of a cluster in a run (project-defined). It has an interface for each node, the bus, and the data that
/// each controller carries from one of its steps to the next.
///
/// In each window a controller gets the open window from the bus, fetches it at its interface, and puts its offer on
/// the bus. Once the window is sealed, it takes its observation and observes it at its interface. Tasks commit,
/// withdraw, read and pop at any moment.
#[derive(Drop)]
pub struct World {
    machine: Machine,
}

impl Model for World {
    ghost use Rattle.fr_core.specs.Agreement.{IsWorld};
    ghost use Rattle.fr_core.specs.Worlds.{WorldState};

    ghost Value = { WorldState };

    ghost view = { λ w. w.machine };

    ghost invariant = { λ w. IsWorld w.machine };
}

impl World {
    ghost use Rattle.std.specs.Prelude.{◌≡◌, ◌≤◌, length, slice_get, take};
    ghost use Rattle.std.specs.List.{list_all};
    ghost use Rattle.fr_core.specs.declared.event.Event.TheVariants as event;
    ghost use Rattle.fr_core.specs.Fronts.{Accepts, IsRefused, events_of, front_in, offer_events, see_events};
    ghost use Rattle.fr_core.specs.Headline.{Headline, WorldsAlike};
    ghost use Rattle.fr_core.specs.Steps.{Steps, Applies};
    ghost use Rattle.fr_core.specs.Worlds.{OpensWorld, is_between};

    /// Returns the opening world of a cluster for a run of so many cycles, 1 to 1024. All journals are empty, the bus
    /// is at cycle 0, slot 1, and all controllers are idle.
    ///
    /// Fails with `BadCycles` for 0 cycles or more than 1024, then with `Memory` if an allocation fails.
    pub fn new(alloc: Global, cluster: &Cluster, cycles: u16) -> Result<World, BusError>
        ensures { OpensWorld cluster.now cycles result }
    {
        match Machine::new(alloc, cluster, cycles) {
            Ok(machine) => Ok(World { machine }),
            Err(error) => Err(error),
        }
    }

    /// Executes one event. A look returns the open window, a commit its receipt, a withdraw the entry of the withdrawn
    /// commit, a read or a pop its frame, and every other event `Done`.
    ///
    /// Fails, in this order, with `UnknownNode` if the cluster doesn't have the event's node, with `WrongTurn` if
    /// another step of its controller is due, and with the refusal of the one call. A task's call fails with `Host`, a
    /// controller's call at its interface with `Slot`, and a call at the bus with `Bus`. The bus refuses a look with
    /// `NotCollecting` if no window is open for offers, and a fault of an unknown node with `UnknownNode`. Only a seal
    /// may fail with `Memory`. A refusal leaves the world unchanged. The headline promise holds for the world after the
    /// event.
    pub fn step(&mut self, event: &Event) -> Result<Reply, StepError>
        ensures step { Steps self.old event.now result self.new }
        ensures headline { Headline self.new }
    {
        let answer = self.machine.step(event);
        // For the prover: the clause of this call.
        self.known();
        answer
    }

    /// Executes one event as `step` does, without its answer, so that no room for a frame is moved. Project-defined.
    ///
    /// Fails as `step` does, and then leaves the world unchanged. The headline promise holds for the world after the
    /// event.
    pub fn apply(&mut self, event: &Event) -> Result<(), StepError>
        ensures step { Applies self.old event.now result self.new }
        ensures headline { Headline self.new }
    {
        let outcome = self.machine.apply(event);
        // For the prover: the clause of this call.
        self.known();
        outcome
    }

    /// Executes the look, the fetch and the put of the node, up to the first one that is refused, without their
    /// answers. Returns how many were accepted (project-defined). The headline promise holds for the world after them.
    pub fn offer(&mut self, node: NodeId) -> usize
        ensures few { result ≤ 3 }
        ensures accepts { Accepts self.old (take result (offer_events node)) self.new }
        ensures refuses { IsRefused self.new (slice_get (offer_events node) result) }
        ensures headline { Headline self.new }
    {
        let accepted = self.machine.offer(node);
        // For the prover: the clause of this call.
        self.known();
        accepted
    }

    /// Executes the take and the observe of the node, up to the first one that is refused, without their answers.
    /// Returns how many were accepted (project-defined). No frame is copied for the node, or decoded again for it. The
    /// headline promise holds for the world after them.
    pub fn see(&mut self, node: NodeId) -> usize
        ensures few { result ≤ 2 }
        ensures accepts { Accepts self.old (take result (see_events node)) self.new }
        ensures refuses { IsRefused self.new (slice_get (see_events node) result) }
        ensures headline { Headline self.new }
    {
        let accepted = self.machine.see(node);
        // For the prover: the clause of this call.
        self.known();
        accepted
    }

    /// Injects the fault in the open window alone, as `step` does for its event (project-defined).
    ///
    /// Fails, in this order, with `Bus` of `UnknownNode`, `NotCollecting` and `TooManyFaults`. A refusal leaves the
    /// world unchanged. The headline promise holds for the world after the call.
    pub fn inject(&mut self, fault: &Fault) -> Result<(), StepError>
        ensures step { Applies self.old (event.Inject fault.now) result self.new }
        ensures headline { Headline self.new }
    {
        let outcome = self.machine.inject(fault);
        // For the prover: the clause of this call.
        self.known();
        outcome
    }

    /// Seals the open window, as `step` does for its event (project-defined).
    ///
    /// Fails, in this order, with `Bus` of `NotCollecting`, `NotAllPut`, and `Memory` if the allocation for the record
    /// fails. A refusal leaves the world unchanged. The headline promise holds for the world after the call.
    pub fn seal(&mut self) -> Result<(), StepError>
        ensures step { Applies self.old event.Seal result self.new }
        ensures headline { Headline self.new }
    {
        let outcome = self.machine.seal();
        // For the prover: the clause of this call.
        self.known();
        outcome
    }

    /// Opens the next window or ends the run, as `step` does for its event (project-defined).
    ///
    /// Fails, in this order, with `Bus` of `NotSealed` and `NotAllTaken`. A refusal leaves the world unchanged. The
    /// headline promise holds for the world after the call.
    pub fn advance(&mut self) -> Result<(), StepError>
        ensures step { Applies self.old event.Advance result self.new }
        ensures headline { Headline self.new }
    {
        let outcome = self.machine.advance();
        // For the prover: the clause of this call.
        self.known();
        outcome
    }

    /// Executes events that stand first in the list, without their answers, and returns how many. Each was accepted
    /// (project-defined). If `front_of` finds events of a node there, it executes these, up to the first one that is
    /// refused. Otherwise it executes none. The headline promise holds for the world after the events.
    pub fn pass_front(&mut self, events: &[Event]) -> usize
        ensures few { result ≤ length events.now }
        ensures within { result ≤ length (events_of (front_in events.now)) }
        ensures accepts { Accepts self.old (take result events.now) self.new }
        ensures refuses { IsRefused self.new (slice_get (events_of (front_in events.now)) result) }
        ensures headline { Headline self.new }
    {
        let passed = self.pass(front_of(events));
        // For the prover: the clause of this call.
        self.known();
        passed
    }

    /// Executes these events, up to the first one that is refused. Returns how many were accepted.
    fn pass(&mut self, front: Front) -> usize
        ensures few { result ≤ length (events_of front) }
        ensures accepts { Accepts self.old (take result (events_of front)) self.new }
        ensures refuses { IsRefused self.new (slice_get (events_of front) result) }
    {
        match front {
            Front::Offer(node) => self.offer(node),
            Front::See(node) => self.see(node),
            Front::Other => 0,
        }
    }

    /// Returns the interfaces, in the order of the nodes. The headline promise holds for their world.
    pub fn interfaces(&self) -> &[Interface]
        ensures value { result.now ≡ self.now.interfaces }
        ensures headline { Headline self.now }
    {
        // For the prover: the clause of this call.
        self.known();
        self.machine.interfaces()
    }

    /// Returns the bus. The headline promise holds for its world.
    pub fn bus(&self) -> &Bus
        ensures value { result.now ≡ self.now.bus }
        ensures headline { Headline self.now }
    {
        // For the prover: the clause of this call.
        self.known();
        self.machine.bus()
    }

    /// Returns whether each controller has observed every window that it fetched.
    pub fn between_windows(&self) -> bool
        ensures { result ≡ list_all is_between self.now.carried }
    {
        self.machine.between_windows()
    }

    /// States the headline promise, which holds for every world, and has no effect (project-defined). Any list of
    /// events may have led to the world.
    ///
    /// - Each interface is legal, and each of its commits is sent, overwritten, withdrawn or pending.
    /// - The record is that of a run, and each static slot of a guarded channel carries at most one sender.
    /// - The interfaces are those of the cluster's nodes, and all journals agree with the record, except for at most
    ///   one step that each controller carries.
    /// - A frame from a fault-free slot, in a receive buffer or a receive FIFO, is one that the slot's owner in that
    ///   cycle committed and handed to the bus.
    /// - In a static slot of a guarded channel, each node's observation follows from the account of the slot's owner in
    ///   that cycle, the owner's babble and mute, and the corrupt bit. Commits, babbles and mutes of other nodes have
    ///   no effect there. If the slot has no owner in the cycle, each node observes silence.
    pub fn known(&self)
        ensures headline { Headline self.now }
    {
        // For the prover: the clauses of these calls. `interfaces`, `bus` and `run_events` state the whole `Headline`
        // too, so a caller needs only one of them.
        legal::known(self.machine.interfaces());
        self.machine.bus().known();
    }

    /// States that a babbling node is harmless, and has no effect (project-defined). Take a static slot of a guarded
    /// channel, in the same run cycle of two worlds of one cluster. Each node observes the same there if the following
    /// are the same: the account of the slot's owner in that cycle before it, the owner's babble and mute there, and
    /// the corrupt bit. Everything else may differ.
    pub fn alike(&self, other: &World)
        ensures { WorldsAlike self.now other.now }
    {
        // For the prover: the clauses of these calls.
        self.known();
        other.known();
    }
}
