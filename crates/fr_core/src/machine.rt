//! The steps of a world, one call each.

ghost use Rattle.std.specs.Prelude.{◌≡◌, Ok, Err, replicate, length, map, IfOk, None, if◌then◌else◌};
ghost use Rattle.fr_core.specs.Carried.{Idle};
ghost use Rattle.fr_core.specs.Steps.{answered, with_window};
ghost use Rattle.fr_core.specs.declared.event.Reply.TheVariants.{Done};
ghost use Rattle.fr_core.specs.Worlds.{new_interface};
ghost use Rattle.fr_schedule.specs.Clusters.{IsNode};
ghost use Rattle.fr_slots.specs.Plans.{Each};

use crate::controller::{Controller, Due};
use crate::error::StepError;
use crate::event::{Event, Reply};
use crate::heard_bus::HeardBus;
use fr_bus::bus::Bus;
use fr_bus::error::BusError;
use fr_bus::fault::Fault;
use fr_frame::payload::Payload;
use fr_interface::call::Call;
use fr_interface::errors::InterfaceError;
use fr_interface::interface::Interface;
use fr_schedule::cluster::Cluster;
use fr_slots::channel::Channel;
use fr_slots::numbers::{NodeId, TaskId};
use fr_slots::params::Params;
use fr_slots::plan::NodePlan;
use fr_slots::window::Window;
use std::alloc::{AllocError, Global};
use std::marker::Model;

/// The state of a world, with one call for each kind of event. It has an interface for each node, the bus, and the data
/// that each controller carries.
#[derive(Drop)]
pub(crate) struct Machine {
    interfaces: Vec<Interface>,
    bus: HeardBus,
    controllers: Vec<Controller>,
}

impl Model for Machine {
    ghost use Rattle.std.specs.Prelude.{◌≡◌, length};
    ghost use Rattle.fr_core.specs.Worlds.{WorldState};

    ghost Value = { WorldState };

    ghost view = { λ m. record { interfaces = m.interfaces.items; bus = m.bus; carried = m.controllers.items } };

    ghost invariant = { λ m. length m.interfaces.items ≡ length m.controllers.items };
}

/// Returns an interface for each plan.
fn interfaces_of(
    alloc: Global,
    params: &Params,
    plans: &[NodePlan],
) -> Result<Vec<Interface>, InterfaceError>
    requires { Each (IsNode params.now) plans.now }
    ensures { IfOk result (λ list. list.items ≡ map (new_interface params.now) plans.now) }
{
    let mut list = Vec::new(alloc);
    for plan in plans {
        let interface = Interface::new(alloc, params, plan)?;
        if list.push(interface).is_err() {
            return Err(InterfaceError::Memory);
        }
    }
    Ok(list)
}

/// Returns so many idle controllers.
fn idle_controllers(alloc: Global, count: usize) -> Result<Vec<Controller>, AllocError>
    ensures { IfOk result (λ list. list.items ≡ replicate count Idle) }
{
    let mut list = Vec::new(alloc);
    for _place in 0..count {
        list.push(Controller::idle())?;
    }
    Ok(list)
}

/// Returns `Done` for an accepted event.
fn done(outcome: Result<(), StepError>) -> Result<Reply, StepError>
    ensures { result ≡ answered Done outcome }
{
    outcome?;
    Ok(Reply::Done)
}

impl Machine {
    ghost use Rattle.std.specs.Prelude.{◌≡◌, ◌≤◌, Ok, Err, if◌then◌else◌, slice_get, take};
    ghost use Rattle.std.specs.List.{All, list_all};
    ghost use Rattle.fr_core.specs.declared.error.StepError.TheVariants.{UnknownNode};
    ghost use Rattle.fr_core.specs.declared.event.Event.TheVariants as event;
    ghost use Rattle.fr_core.specs.Worlds.{OpensWorld, has_node, is_between};
    ghost use Rattle.fr_core.specs.Fronts.{Accepts, IsRefused, offer_events, see_events};
    ghost use Rattle.fr_core.specs.Steps.{Steps, Applies, event_of};

    /// Returns the opening state: empty journals, the bus at its first window, and idle controllers.
    pub(crate) fn new(alloc: Global, cluster: &Cluster, cycles: u16) -> Result<Machine, BusError>
        ensures { OpensWorld cluster.now cycles result }
    {
        let bus = Bus::new(alloc, cluster, cycles)?;
        let Ok(interfaces) = interfaces_of(alloc, cluster.params(), cluster.plans()) else {
            return Err(BusError::Memory);
        };
        let Ok(controllers) = idle_controllers(alloc, interfaces.len()) else {
            return Err(BusError::Memory);
        };
        Ok(Machine {
            interfaces,
            bus: HeardBus::of(bus),
            controllers,
        })
    }

    /// Returns the interfaces, in the order of the nodes.
    pub(crate) fn interfaces(&self) -> &[Interface]
        ensures { result.now ≡ self.now.interfaces }
    {
        self.interfaces.as_slice()
    }

    /// Returns the bus.
    pub(crate) fn bus(&self) -> &Bus
        ensures { result.now ≡ self.now.bus }
    {
        self.bus.bus()
    }

    /// Returns whether each controller has observed every window that it fetched.
    pub(crate) fn between_windows(&self) -> bool
        ensures { result ≡ list_all is_between self.now.carried }
    {
        self.controllers
            .iter()
            .all(|controller| controller.is_between())
    }

    /// Returns the index of the node's interface and controller.
    fn place(&self, node: NodeId) -> Result<usize, StepError>
        ensures { result ≡ (if has_node self.now node then Ok node else Err UnknownNode) }
    {
        let place = usize::from(node.number());
        if place < self.interfaces.len() {
            Ok(place)
        } else {
            Err(StepError::UnknownNode)
        }
    }

    /// Commits a payload to a transmit buffer for a task.
    fn commit(
        &mut self,
        node: NodeId,
        task: TaskId,
        buffer: u8,
        payload: &Payload,
    ) -> Result<Reply, StepError>
        ensures { Steps self.old (event.Commit node task buffer payload.now) result self.new }
    {
        let place = self.place(node)?;
        let receipt = self.interfaces[place].commit(task, buffer, payload)?;
        Ok(Reply::Committed(receipt))
    }

    /// Makes a call of a task at the node's interface.
    fn call(&mut self, node: NodeId, task: TaskId, call: &Call) -> Result<Reply, StepError>
        ensures { Steps self.old (event_of node task call.now) result self.new }
    {
        let place = self.place(node)?;
        let answer = self.interfaces[place].call(task, call)?;
        Ok(Reply::from(answer))
    }

    /// Gets the open window from the bus for a controller.
    fn look(&mut self, node: NodeId) -> Result<Window, StepError>
        ensures { Steps self.old (event.Look node) (with_window result) self.new }
    {
        // The node is tested first, then the turn, then the call. So a busy controller that looks fails with
        // `WrongTurn` in every phase, and an idle one gets `NotCollecting` from the bus.
        let place = self.place(node)?;
        let controller = &mut self.controllers[place];
        let Due::Look = &controller.due else {
            return Err(StepError::WrongTurn);
        };
        let Some(window) = self.bus.bus().collecting() else {
            return Err(StepError::Bus(BusError::NotCollecting));
        };
        controller.due = Due::Fetch(window);
        Ok(window)
    }

    /// Opens the controller's window at its interface.
    #[inline(always)]
    fn fetch(&mut self, node: NodeId) -> Result<(), StepError>
        ensures { Steps self.old (event.Fetch node) (answered Done result) self.new }
    {
        let place = self.place(node)?;
        let controller = &mut self.controllers[place];
        let Due::Fetch(window) = &controller.due else {
            return Err(StepError::WrongTurn);
        };
        let window = *window;
        self.interfaces[place].fetch_into(&window, &mut controller.offer)?;
        controller.due = Due::Put(window);
        Ok(())
    }

    /// Puts the controller's offer on the bus.
    #[inline(always)]
    fn put(&mut self, node: NodeId) -> Result<(), StepError>
        ensures { Steps self.old (event.Put node) (answered Done result) self.new }
    {
        let place = self.place(node)?;
        let controller = &mut self.controllers[place];
        let Due::Put(window) = &controller.due else {
            return Err(StepError::WrongTurn);
        };
        let window = *window;
        self.bus.put(node, window.number, &controller.offer)?;
        controller.due = Due::Take(window);
        Ok(())
    }

    /// Takes the controller's observation from the bus.
    fn take(&mut self, node: NodeId) -> Result<(), StepError>
        ensures { Steps self.old (event.Take node) (answered Done result) self.new }
    {
        let place = self.place(node)?;
        let controller = &mut self.controllers[place];
        let Due::Take(window) = &controller.due else {
            return Err(StepError::WrongTurn);
        };
        let window = *window;
        self.bus
            .take_into(node, window.number, &mut controller.a, &mut controller.b)?;
        controller.due = Due::Observe(window);
        Ok(())
    }

    /// Closes the controller's window at its interface.
    fn observe(&mut self, node: NodeId) -> Result<(), StepError>
        ensures { Steps self.old (event.Observe node) (answered Done result) self.new }
    {
        let place = self.place(node)?;
        let controller = &mut self.controllers[place];
        let Due::Observe(window) = &controller.due else {
            return Err(StepError::WrongTurn);
        };
        let window = *window;
        self.interfaces[place].observe(window.number, &controller.a, &controller.b)?;
        controller.due = Due::Look;
        Ok(())
    }

    /// Injects a fault in the open window.
    ///
    /// It isn't inlined, so that other events don't pay for the room of a frame.
    #[inline(never)]
    pub(crate) fn inject(&mut self, fault: &Fault) -> Result<(), StepError>
        ensures { Steps self.old (event.Inject fault.now) (answered Done result) self.new }
    {
        // The bus refuses a fault of an unknown node.
        self.bus.inject(fault.duplicate())?;
        Ok(())
    }

    /// Seals the open window.
    pub(crate) fn seal(&mut self) -> Result<(), StepError>
        ensures { Steps self.old event.Seal (answered Done result) self.new }
    {
        self.bus.seal()?;
        Ok(())
    }

    /// Opens the next window.
    pub(crate) fn advance(&mut self) -> Result<(), StepError>
        ensures { Steps self.old event.Advance (answered Done result) self.new }
    {
        self.bus.advance()?;
        Ok(())
    }

    /// Executes one event, with its answer.
    pub(crate) fn step(&mut self, event: &Event) -> Result<Reply, StepError>
        ensures { Steps self.old event.now result self.new }
    {
        match event {
            Event::Commit {
                node,
                task,
                buffer,
                payload,
            } => self.commit(*node, *task, *buffer, payload),
            Event::Withdraw { node, task, buffer } => {
                self.call(*node, *task, &Call::Withdraw { buffer: *buffer })
            }
            Event::Read { node, task, buffer } => {
                self.call(*node, *task, &Call::Read { buffer: *buffer })
            }
            Event::Pop { node, task } => self.call(*node, *task, &Call::Pop),
            Event::Look(node) => {
                let window = self.look(*node)?;
                Ok(Reply::Window(window))
            }
            Event::Fetch(node) => done(self.fetch(*node)),
            Event::Put(node) => done(self.put(*node)),
            Event::Take(node) => done(self.take(*node)),
            Event::Observe(node) => done(self.observe(*node)),
            Event::Inject(fault) => done(self.inject(fault)),
            Event::Seal => done(self.seal()),
            Event::Advance => done(self.advance()),
        }
    }

    /// Executes one event, without its answer.
    pub(crate) fn apply(&mut self, event: &Event) -> Result<(), StepError>
        ensures { Applies self.old event.now result self.new }
    {
        match event {
            Event::Look(node) => {
                let _window = self.look(*node)?;
                Ok(())
            }
            Event::Fetch(node) => self.fetch(*node),
            Event::Put(node) => self.put(*node),
            Event::Take(node) => self.take(*node),
            Event::Observe(node) => self.observe(*node),
            Event::Inject(fault) => self.inject(fault),
            Event::Seal => self.seal(),
            Event::Advance => self.advance(),
            _ => self.apply_call(event),
        }
    }

    /// Executes an event of a host, without its answer.
    ///
    /// It isn't inlined, so that other events don't pay for the room of a reply.
    #[inline(never)]
    fn apply_call(&mut self, event: &Event) -> Result<(), StepError>
        ensures { Applies self.old event.now result self.new }
    {
        let _reply = self.step(event)?;
        Ok(())
    }

    /// Executes the look, the fetch and the put of the node, up to the first one that is refused. Returns how many were
    /// accepted.
    pub(crate) fn offer(&mut self, node: NodeId) -> usize
        ensures few { result ≤ 3 }
        ensures accepts { Accepts self.old (take result (offer_events node)) self.new }
        ensures refuses { IsRefused self.new (slice_get (offer_events node) result) }
    {
        if self.look(node).is_err() {
            return 0;
        }
        if self.fetch(node).is_err() {
            return 1;
        }
        if self.put(node).is_err() {
            return 2;
        }
        3
    }

    /// Executes the take and the observe of the node, up to the first one that is refused. Returns how many were
    /// accepted.
    ///
    /// The observation is lent by the bus, so nothing is copied, and no frame is decoded again.
    pub(crate) fn see(&mut self, node: NodeId) -> usize
        ensures few { result ≤ 2 }
        ensures accepts { Accepts self.old (take result (see_events node)) self.new }
        ensures refuses { IsRefused self.new (slice_get (see_events node) result) }
    {
        let Ok(place) = self.place(node) else {
            return self.see_in_turn(node);
        };
        let Due::Take(window) = self.controllers[place].due else {
            return self.see_in_turn(node);
        };
        if self.interfaces[place].check_observe(window.number).is_err() {
            return self.see_in_turn(node);
        }
        if self.bus.take_lent(node, window.number).is_err() {
            return self.see_in_turn(node);
        }
        let a = self.bus.sight(node, Channel::A);
        let b = self.bus.sight(node, Channel::B);
        let outcome = self.interfaces[place].observe_sights(window.number, &a, &b);
        let accepted = outcome.is_ok();
        prove!(accepted);
        self.controllers[place].due = Due::Look;
        2
    }

    /// Does the same as `see`, one event after the other.
    fn see_in_turn(&mut self, node: NodeId) -> usize
        ensures few { result ≤ 2 }
        ensures accepts { Accepts self.old (take result (see_events node)) self.new }
        ensures refuses { IsRefused self.new (slice_get (see_events node) result) }
    {
        if self.take(node).is_err() {
            return 0;
        }
        if self.observe(node).is_err() {
            return 1;
        }
        2
    }
}
