//! The world of a cluster, without its history.

use crate::machine::LiveMachine;
use crate::room::Room;
use fr_bus::error::BusError;
use fr_bus::live::LiveBus;
use fr_core::controller::Controller;
use fr_core::error::StepError;
use fr_core::event::{Event, Reply};
use fr_interface::call::{Answer, Call};
use fr_interface::state::InterfaceState;
use fr_schedule::cluster::Cluster;
use fr_slots::numbers::{NodeId, TaskId};
use std::alloc::Global;
use std::marker::Model;

/// The world of a cluster in a run of up to 4,000,000 cycles, without journals and record (project-defined). It does
/// the same as a `World`.
#[derive(Drop)]
pub struct LiveWorld {
    machine: LiveMachine,
}

impl Model for LiveWorld {
    ghost use Rattle.fr_core.specs.Worlds.{WorldState};
    ghost use Rattle.fr_live.specs.LiveWorlds.{LiveState, IsWorldHistory};

    ghost Value = { LiveState };

    ghost view = { λ w. w.machine };

    ghost invariant = { λ w. (v : WorldState) × IsWorldHistory w.machine v };
}

impl LiveWorld {
    ghost use Rattle.std.specs.Prelude.{◌≡◌, ◌≤◌, IfOk, slice_get, take};
    ghost use Rattle.std.specs.List.{list_all};
    ghost use Rattle.fr_core.specs.Headline.{Headline};
    ghost use Rattle.fr_core.specs.Steps.{event_of};
    ghost use Rattle.fr_core.specs.Worlds.{interface_at, is_between};
    ghost use Rattle.fr_interface.specs.Calls.{call_answer};
    ghost use Rattle.fr_live.specs.LiveSteps.{AcceptsAlike, AppliesAlike, RefusesAlike, StepsAlike};
    ghost use Rattle.fr_live.specs.LiveSteps.{offer_events, see_events};
    ghost use Rattle.fr_live.specs.LiveSteps.{with_answer};
    ghost use Rattle.fr_live.specs.LiveWorlds.{OpensLiveWorld, ForEachWorld};

    /// Returns the opening world of a cluster for a run of so many cycles, 1 to 4,000,000. The bus is at cycle 0, slot
    /// 1, and all controllers are idle. Each interface accepts as many calls as the room says, whatever room its node's
    /// plan gives to a journal.
    ///
    /// Fails with `BadCycles` for a number of cycles that `LiveBus::new` refuses, then with `Memory` if an allocation
    /// fails.
    pub fn new(
        alloc: Global,
        cluster: &Cluster,
        cycles: u32,
        room: &Room,
    ) -> Result<LiveWorld, BusError>
        ensures { OpensLiveWorld cluster.now cycles room.now result }
    {
        match LiveMachine::new(alloc, cluster, cycles, room) {
            Ok(machine) => Ok(LiveWorld { machine }),
            Err(error) => Err(error),
        }
    }

    /// Executes one event as `World::step` does, and fails as that does. `HostFull` and `SlotFull` are told by the room
    /// of this world.
    pub fn step(&mut self, event: &Event) -> Result<Reply, StepError>
        ensures { StepsAlike self.old event.now result self.new }
    {
        self.machine.step(event)
    }

    /// Executes one event as `step` does, without its answer, and fails as that does. An event of a controller or of
    /// the bus moves no room for a frame.
    pub fn apply(&mut self, event: &Event) -> Result<(), StepError>
        ensures { AppliesAlike self.old event.now result self.new }
    {
        self.machine.apply(event)
    }

    /// Executes the look, the fetch and the put of the node, up to the first one that is refused, without their
    /// answers. Returns how many were accepted, 0 to 3. This is faster than one event after another (project-defined).
    pub fn offer(&mut self, node: NodeId) -> usize
        ensures few { result ≤ 3 }
        ensures accepts { AcceptsAlike self.old (take result (offer_events node)) self.new }
        ensures refuses { RefusesAlike self.new (slice_get (offer_events node) result) }
    {
        self.machine.offer(node)
    }

    /// Executes the take and the observe of the node, up to the first one that is refused, without their answers.
    /// Returns how many were accepted, 0 to 2.
    pub fn see(&mut self, node: NodeId) -> usize
        ensures few { result ≤ 2 }
        ensures accepts { AcceptsAlike self.old (take result (see_events node)) self.new }
        ensures refuses { RefusesAlike self.new (slice_get (see_events node) result) }
    {
        self.machine.see(node)
    }

    /// Makes a call of a task at the node's interface, as `step` does for the event of the call, and fails as that
    /// does. The answer also has the origin of a frame.
    pub fn call(&mut self, node: NodeId, task: TaskId, call: &Call) -> Result<Answer, StepError>
        ensures steps { StepsAlike self.old (event_of node task call.now) (with_answer result) self.new }
        ensures answer { ForEachWorld self.old (λ w. IfOk result
            (λ a. a ≡ call_answer (interface_at w node) task call.now)) }
    {
        self.machine.call(node, task, call)
    }

    /// Returns the data of the interfaces, in the order of the nodes.
    pub fn interfaces(&self) -> &[InterfaceState]
        ensures { result.now ≡ self.now.interfaces }
    {
        self.machine.interfaces()
    }

    /// Returns the bus.
    pub fn bus(&self) -> &LiveBus
        ensures { result.now ≡ self.now.bus }
    {
        self.machine.bus()
    }

    /// Returns the controllers, with the data that each carries to its next step, in the order of the nodes.
    pub fn controllers(&self) -> &[Controller]
        ensures { result.now ≡ self.now.carried }
    {
        self.machine.controllers()
    }

    /// Returns whether each controller has observed every window that it fetched.
    pub fn between_windows(&self) -> bool
        ensures { result ≡ list_all is_between self.now.carried }
    {
        self.machine.between_windows()
    }

    /// States the headline promise of each world that leads to the data, and has no effect (project-defined). `World`
    /// says what it is.
    pub fn known(&self)
        ensures headline { ForEachWorld self.now Headline }
    {
        // For the prover: the invariant.
        let _ = &self.machine;
    }
}
