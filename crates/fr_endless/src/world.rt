//! The world of an endless session.
ghost use Rattle.std.specs.Prelude.{◌≡◌, ◌≤◌, ℕ, true, IfOk};
ghost use Rattle.fr_bus.specs.Live.{cycles_suit};
ghost use Rattle.fr_endless.specs.Alike.{buffers_in};

use fr_bus::error::BusError;
use fr_bus::live::{LIVE_CYCLES, LIVE_WINDOWS, LiveBus};
use fr_core::controller::Controller;
use fr_core::error::StepError;
use fr_core::event::{Event, Reply};
use fr_core::front::{Front, front_of};
use fr_interface::call::{Answer, Call};
use fr_interface::state::InterfaceState;
use fr_live::room::Room;
use fr_live::world::LiveWorld;
use fr_schedule::cluster::Cluster;
use fr_slots::numbers::{NodeId, TaskId};
use fr_slots::plan::NodePlan;
use std::alloc::{AllocError, Global};
use std::marker::Model;

/// A world without history, and the number of buffers of each node (project-defined).
#[derive(Drop)]
pub struct EndlessWorld {
    world: LiveWorld,
    // An `InterfaceState` doesn't return its plan.
    buffers: Vec<u8>,
}

impl Model for EndlessWorld {
    ghost use Rattle.std.specs.Prelude.{◌≡◌};
    ghost use Rattle.fr_core.specs.Worlds.{WorldState};
    ghost use Rattle.fr_endless.specs.Alike.{buffers_in};
    ghost use Rattle.fr_live.specs.LiveWorlds.{LiveState, IsWorldHistory};

    ghost Value = { LiveState };

    ghost view = { λ w. w.world };

    ghost invariant = { λ w. (v : WorldState) × IsWorldHistory w.world v
        × (w.buffers.items ≡ buffers_in v.bus.cluster.plans) };
}

/// Returns the greatest number of cycles of a run of the cluster without history, at most 4,000,000 (project-defined).
pub fn greatest_cycles(cluster: &Cluster) -> u32
    ensures suits { cycles_suit cluster.now.params result ≡ true }
    ensures greatest { (cycles : ℕ) → cycles_suit cluster.now.params cycles ≡ true → cycles ≤ result }
{
    let params = cluster.params();
    let opportunities = u32::from(params.static_slots) + u32::from(params.minislots);
    LIVE_CYCLES.min(LIVE_WINDOWS / opportunities.max(1))
}

/// Returns the number of buffers of each plan.
fn buffers_of(alloc: Global, plans: &[NodePlan]) -> Result<Vec<u8>, AllocError>
    ensures { IfOk result (λ buffers. buffers.items ≡ buffers_in plans.now) }
{
    let mut buffers = Vec::new(alloc);
    for plan in plans {
        buffers.push(plan.buffers().len() as u8)?;
    }
    Ok(buffers)
}

impl EndlessWorld {
    ghost use Rattle.std.specs.Prelude.{◌≡◌, ◌≤◌, IfOk, length, slice_get, take};
    ghost use Rattle.fr_core.specs.Fronts.{front_in};
    ghost use Rattle.fr_core.specs.Headline.{Headline};
    ghost use Rattle.fr_core.specs.Steps.{event_of};
    ghost use Rattle.fr_core.specs.Worlds.{interface_at};
    ghost use Rattle.fr_endless.specs.Alike.{buffers_each};
    ghost use Rattle.fr_interface.specs.Calls.{call_answer};
    ghost use Rattle.fr_endless.specs.Fronts.{events_of};
    ghost use Rattle.fr_live.specs.LiveSteps.{AcceptsAlike, AppliesAlike, RefusesAlike, StepsAlike, with_answer};
    ghost use Rattle.fr_live.specs.LiveSteps.{offer_events, see_events};
    ghost use Rattle.fr_live.specs.LiveWorlds.{OpensLiveWorld, ForEachWorld};

    /// Returns the opening world of a cluster, as `LiveWorld::new` does. Fails as that does.
    pub fn new(
        alloc: Global,
        cluster: &Cluster,
        cycles: u32,
        room: &Room,
    ) -> Result<EndlessWorld, BusError>
        ensures { OpensLiveWorld cluster.now cycles room.now result }
    {
        let world = match LiveWorld::new(alloc, cluster, cycles, room) {
            Ok(world) => world,
            Err(error) => return Err(error),
        };
        match buffers_of(alloc, cluster.plans()) {
            Ok(buffers) => Ok(EndlessWorld { world, buffers }),
            Err(_) => Err(BusError::Memory),
        }
    }

    /// Executes one event, as `LiveWorld::step` does, and fails as that does.
    pub fn step(&mut self, event: &Event) -> Result<Reply, StepError>
        ensures { StepsAlike self.old event.now result self.new }
    {
        self.world.step(event)
    }

    /// Executes one event without its answer, as `LiveWorld::apply` does, and fails as that does.
    pub fn apply(&mut self, event: &Event) -> Result<(), StepError>
        ensures { AppliesAlike self.old event.now result self.new }
    {
        self.world.apply(event)
    }

    /// Executes the look, the fetch and the put of the node, as `LiveWorld::offer` does.
    fn offer(&mut self, node: NodeId) -> usize
        ensures few { result ≤ 3 }
        ensures accepts { AcceptsAlike self.old (take result (offer_events node)) self.new }
        ensures refuses { RefusesAlike self.new (slice_get (offer_events node) result) }
    {
        self.world.offer(node)
    }

    /// Executes the take and the observe of the node, as `LiveWorld::see` does.
    fn see(&mut self, node: NodeId) -> usize
        ensures few { result ≤ 2 }
        ensures accepts { AcceptsAlike self.old (take result (see_events node)) self.new }
        ensures refuses { RefusesAlike self.new (slice_get (see_events node) result) }
    {
        self.world.see(node)
    }

    /// Executes these events, up to the first one that is refused, without their answers. Returns how many were
    /// accepted.
    pub fn pass(&mut self, front: &Front) -> usize
        ensures few { result ≤ length (events_of front.now) }
        ensures accepts { AcceptsAlike self.old (take result (events_of front.now)) self.new }
        ensures refuses { RefusesAlike self.new (slice_get (events_of front.now) result) }
    {
        match front {
            Front::Offer(node) => self.offer(*node),
            Front::See(node) => self.see(*node),
            Front::Other => 0,
        }
    }

    /// Executes events that stand first in the list, without their answers, and returns how many. Each was accepted. If
    /// `front_of` finds events of a node there, it executes these, up to the first one that is refused. Otherwise it
    /// executes none.
    pub fn pass_front(&mut self, events: &[Event]) -> usize
        ensures few { result ≤ length events.now }
        ensures within { result ≤ length (events_of (front_in events.now)) }
        ensures accepts { AcceptsAlike self.old (take result events.now) self.new }
        ensures refuses { RefusesAlike self.new (slice_get (events_of (front_in events.now)) result) }
    {
        let front = front_of(events);
        self.pass(&front)
    }

    /// Makes a call of a task as `LiveWorld::call` does, and fails as that does.
    pub fn call(&mut self, node: NodeId, task: TaskId, call: &Call) -> Result<Answer, StepError>
        ensures steps { StepsAlike self.old (event_of node task call.now) (with_answer result) self.new }
        ensures answer { ForEachWorld self.old (λ w. IfOk result
            (λ a. a ≡ call_answer (interface_at w node) task call.now)) }
    {
        self.world.call(node, task, call)
    }

    /// Returns the data of the interfaces, in the order of the nodes.
    pub fn interfaces(&self) -> &[InterfaceState]
        ensures { result.now ≡ self.now.interfaces }
    {
        self.world.interfaces()
    }

    /// Returns the controllers, with the data that each carries to its next step, in the order of the nodes.
    pub(crate) fn controllers(&self) -> &[Controller]
        ensures { result.now ≡ self.now.carried }
    {
        self.world.controllers()
    }

    /// Returns the number of buffers of each interface, in the order of the nodes.
    pub fn buffers(&self) -> &[u8]
        ensures { ForEachWorld self.now (λ w. result.now ≡ buffers_each w.interfaces) }
    {
        self.buffers.as_slice()
    }

    /// Returns the bus.
    pub fn bus(&self) -> &LiveBus
        ensures { result.now ≡ self.now.bus }
    {
        self.world.bus()
    }

    /// States the headline promise of each world that leads to the data, and has no effect (project-defined).
    pub fn known(&self)
        ensures headline { ForEachWorld self.now Headline }
    {
        // For the prover: the clause of this call.
        self.world.known();
    }
}
