//! The steps of a world without history, one call each.

ghost use Rattle.std.specs.Prelude.{◌≡◌, replicate, map, IfOk};
ghost use Rattle.fr_core.specs.Carried.{Idle};
ghost use Rattle.fr_core.specs.Steps.{answered, with_window};
ghost use Rattle.fr_core.specs.declared.event.Reply.TheVariants.{Done};
ghost use Rattle.fr_live.specs.LiveSteps.{with_answer, with_receipt, without_value};
ghost use Rattle.fr_live.specs.LiveWorlds.{AreHistories, new_with};

use crate::room::Room;
use fr_bus::error::BusError;
use fr_bus::fault::Fault;
use fr_bus::live::LiveBus;
use fr_core::controller::{Controller, Due};
use fr_core::error::StepError;
use fr_core::event::{Event, Reply};
use fr_frame::payload::Payload;
use fr_interface::call::{Answer, Call};
use fr_interface::errors::InterfaceError;
use fr_interface::interface::Receipt;
use fr_interface::state::InterfaceState;
use fr_schedule::cluster::Cluster;
use fr_slots::channel::Channel;
use fr_slots::numbers::{NodeId, TaskId};
use fr_slots::params::Params;
use fr_slots::plan::NodePlan;
use fr_slots::window::Window;
use std::alloc::{AllocError, Global};
use std::marker::Model;

/// The data of a world, with one call for each kind of event.
#[derive(Drop)]
pub(crate) struct LiveMachine {
    interfaces: Vec<InterfaceState>,
    bus: LiveBus,
    controllers: Vec<Controller>,
}

impl Model for LiveMachine {
    ghost use Rattle.std.specs.Prelude.{◌≡◌, length};
    ghost use Rattle.fr_live.specs.LiveWorlds.{LiveState};

    ghost Value = { LiveState };

    ghost view = { λ m. record { interfaces = m.interfaces.items; bus = m.bus; carried = m.controllers.items } };

    ghost invariant = { λ m. length m.interfaces.items ≡ length m.controllers.items };
}

/// Returns the data of an interface for each plan, with this room.
fn interfaces_of(
    alloc: Global,
    params: &Params,
    plans: &[NodePlan],
    room: &Room,
) -> Result<Vec<InterfaceState>, InterfaceError>
    ensures { IfOk result (λ list. AreHistories list.items (map (new_with params.now room.now) plans.now)) }
{
    let mut list = Vec::new(alloc);
    for plan in plans {
        let interface = InterfaceState::new(alloc, params, plan, room.host(), room.slot())?;
        if list.push(interface).is_err() {
            return Err(InterfaceError::Memory);
        }
    }
    Ok(list)
}

/// Returns so many idle controllers.
fn idle_controllers(alloc: Global, count: usize) -> Result<Vec<Controller>, AllocError>
    ensures { IfOk result (λ list. list.items ≡ replicate count Idle) }
{
    let mut list = Vec::new(alloc);
    for _place in 0..count {
        list.push(Controller::idle())?;
    }
    Ok(list)
}

/// Returns the reply that has the receipt of an accepted commit.
fn committed(outcome: Result<Receipt, StepError>) -> Result<Reply, StepError>
    ensures { result ≡ with_receipt outcome }
{
    let receipt = outcome?;
    Ok(Reply::Committed(receipt))
}

/// Returns the reply that has the answer of an accepted call.
fn replied(outcome: Result<Answer, StepError>) -> Result<Reply, StepError>
    ensures { result ≡ with_answer outcome }
{
    match outcome {
        Ok(answer) => Ok(Reply::from(answer)),
        Err(error) => Err(error),
    }
}

/// Returns the reply that has the window of an accepted look.
fn looked(outcome: Result<Window, StepError>) -> Result<Reply, StepError>
    ensures { result ≡ with_window outcome }
{
    let window = outcome?;
    Ok(Reply::Window(window))
}

/// Returns whether a look was accepted, without its window.
fn without_window(outcome: Result<Window, StepError>) -> Result<(), StepError>
    ensures { result ≡ without_value outcome }
{
    outcome?;
    Ok(())
}

/// Returns whether an event was accepted, without its reply.
fn without_reply(outcome: Result<Reply, StepError>) -> Result<(), StepError>
    ensures { result ≡ without_value outcome }
{
    outcome?;
    Ok(())
}

/// Returns `Done` for an accepted event.
fn done(outcome: Result<(), StepError>) -> Result<Reply, StepError>
    ensures { result ≡ answered Done outcome }
{
    outcome?;
    Ok(Reply::Done)
}

impl LiveMachine {
    ghost use Rattle.std.specs.Prelude.{◌≡◌, ◌≤◌, Ok, Err, IfOk, OnOk, OnErr, Some, option_map, length, take};
    ghost use Rattle.std.specs.Prelude.{if◌then◌else◌, slice_get};
    ghost use Rattle.std.specs.List.{list_all};
    ghost use Rattle.std.specs.Result.{result_err};
    ghost use Rattle.fr_bus.specs.Standing.{bare};
    ghost use Rattle.fr_bus.specs.States.{collecting_of, inject_refusal, seal_refusal, advance_refusal};
    ghost use Rattle.fr_core.specs.declared.error.StepError.TheVariants.{UnknownNode, Host, Bus};
    ghost use Rattle.fr_core.specs.declared.event.Event.TheVariants as event;
    ghost use Rattle.fr_core.specs.Steps.{Applies, event_of, step_refusal, step_reply, step_done};
    ghost use Rattle.fr_core.specs.Worlds.{is_between, interface_at};
    ghost use Rattle.fr_interface.specs.Calls.{call_answer};
    ghost use Rattle.fr_interface.specs.Standing.{commit_refused};
    ghost use Rattle.fr_live.specs.LiveWorlds.{OpensMachine, ForEachLead, Leads, has_node, standing_at, carried_at};
    ghost use Rattle.fr_live.specs.LiveSteps.{LiveAccepts, LiveApplies, LiveRefuses, LiveSteps, SealsMachine, if_node};
    ghost use Rattle.fr_live.specs.LiveSteps.{look_in_turn, offer_events, see_events};
    ghost use Rattle.fr_live.specs.LiveSteps.{fetch_in_turn, put_in_turn, take_in_turn, observe_in_turn};

    /// Returns the data of the opening world.
    pub(crate) fn new(
        alloc: Global,
        cluster: &Cluster,
        cycles: u32,
        room: &Room,
    ) -> Result<LiveMachine, BusError>
        ensures { OpensMachine cluster.now cycles room.now result }
    {
        // For the prover: the ranges of the room.
        let (_host, _slot) = (room.host(), room.slot());
        let bus = LiveBus::new(alloc, cluster, cycles)?;
        let Ok(interfaces) = interfaces_of(alloc, cluster.params(), cluster.plans(), room) else {
            return Err(BusError::Memory);
        };
        let Ok(controllers) = idle_controllers(alloc, interfaces.len()) else {
            return Err(BusError::Memory);
        };
        Ok(LiveMachine {
            interfaces,
            bus,
            controllers,
        })
    }

    /// Returns the data of the interfaces, in the order of the nodes.
    pub(crate) fn interfaces(&self) -> &[InterfaceState]
        ensures { result.now ≡ self.now.interfaces }
    {
        self.interfaces.as_slice()
    }

    /// Returns the bus.
    pub(crate) fn bus(&self) -> &LiveBus
        ensures { result.now ≡ self.now.bus }
    {
        &self.bus
    }

    /// Returns the controllers, in the order of the nodes.
    pub(crate) fn controllers(&self) -> &[Controller]
        ensures { result.now ≡ self.now.carried }
    {
        self.controllers.as_slice()
    }

    /// Returns whether each controller has observed every window that it fetched.
    pub(crate) fn between_windows(&self) -> bool
        ensures { result ≡ list_all is_between self.now.carried }
    {
        self.controllers
            .iter()
            .all(|controller| controller.is_between())
    }

    /// Returns the index of the node's interface and controller.
    fn place(&self, node: NodeId) -> Result<usize, StepError>
        ensures { result ≡ (if has_node self.now node then Ok node else Err UnknownNode) }
    {
        let place = usize::from(node.number());
        if place < self.interfaces.len() {
            Ok(place)
        } else {
            Err(StepError::UnknownNode)
        }
    }

    /// Commits a payload to a transmit buffer for a task.
    fn commit(
        &mut self,
        node: NodeId,
        task: TaskId,
        buffer: u8,
        payload: &Payload,
    ) -> Result<Receipt, StepError>
        ensures refusal { result_err result ≡ if_node self.old node
            (option_map Host (commit_refused (standing_at self.old node) task buffer payload.now)) }
        ensures receipt { ForEachLead self.old (λ w. IfOk result
            (λ r. r ≡ record { task = task; entry = length (interface_at w node).entries })) }
        ensures leads { ForEachLead self.old (λ w. OnOk result
            (Leads (step_done w (event.Commit node task buffer payload.now)) self.new)) }
        ensures refused { OnErr result (self.new ≡ self.old) }
    {
        let place = self.place(node)?;
        let interface = &mut self.interfaces[place];
        let entry = interface.commit(task, buffer, payload)?;
        Ok(Receipt { task, entry })
    }

    /// Makes a call of a task at the node's interface, and returns its answer.
    pub(crate) fn call(
        &mut self,
        node: NodeId,
        task: TaskId,
        call: &Call,
    ) -> Result<Answer, StepError>
        ensures refusal { ForEachLead self.old (λ w. result_err result ≡ step_refusal w (event_of node task call.now)) }
        ensures answer { ForEachLead self.old (λ w. IfOk result
            (λ a. a ≡ call_answer (interface_at w node) task call.now)) }
        ensures leads { ForEachLead self.old (λ w. OnOk result
            (Leads (step_done w (event_of node task call.now)) self.new)) }
        ensures refused { OnErr result (self.new ≡ self.old) }
    {
        let place = self.place(node)?;
        let answer = self.interfaces[place].call(task, call)?;
        Ok(answer)
    }

    /// Gets the open window from the bus for a controller.
    fn look(&mut self, node: NodeId) -> Result<Window, StepError>
        ensures refusal { result_err result ≡ if_node self.old node (look_in_turn self.old (carried_at self.old node)) }
        ensures window { IfOk result (λ window. collecting_of (bare self.old.bus.bus) ≡ Some window) }
        ensures leads { ForEachLead self.old (λ w. OnOk result (Leads (step_done w (event.Look node)) self.new)) }
        ensures refused { OnErr result (self.new ≡ self.old) }
    {
        let place = self.place(node)?;
        let controller = &mut self.controllers[place];
        let Due::Look = &controller.due else {
            return Err(StepError::WrongTurn);
        };
        let Some(window) = self.bus.collecting() else {
            return Err(StepError::Bus(BusError::NotCollecting));
        };
        controller.due = Due::Fetch(window);
        Ok(window)
    }

    /// Opens the controller's window at its interface.
    fn fetch(&mut self, node: NodeId) -> Result<(), StepError>
        ensures refusal { result_err result
            ≡ if_node self.old node (fetch_in_turn self.old node (carried_at self.old node)) }
        ensures leads { ForEachLead self.old (λ w. OnOk result (Leads (step_done w (event.Fetch node)) self.new)) }
        ensures refused { OnErr result (self.new ≡ self.old) }
    {
        let place = self.place(node)?;
        let controller = &mut self.controllers[place];
        let Due::Fetch(window) = &controller.due else {
            return Err(StepError::WrongTurn);
        };
        let window = *window;
        self.interfaces[place].fetch_into(&window, &mut controller.offer)?;
        controller.due = Due::Put(window);
        Ok(())
    }

    /// Puts the controller's offer on the bus.
    fn put(&mut self, node: NodeId) -> Result<(), StepError>
        ensures refusal { result_err result
            ≡ if_node self.old node (put_in_turn self.old node (carried_at self.old node)) }
        ensures leads { ForEachLead self.old (λ w. OnOk result (Leads (step_done w (event.Put node)) self.new)) }
        ensures refused { OnErr result (self.new ≡ self.old) }
    {
        let place = self.place(node)?;
        let controller = &mut self.controllers[place];
        let Due::Put(window) = &controller.due else {
            return Err(StepError::WrongTurn);
        };
        let window = *window;
        self.bus.put(node, window.number, &controller.offer)?;
        controller.due = Due::Take(window);
        Ok(())
    }

    /// Takes the controller's observation from the bus.
    fn take(&mut self, node: NodeId) -> Result<(), StepError>
        ensures refusal { result_err result
            ≡ if_node self.old node (take_in_turn self.old node (carried_at self.old node)) }
        ensures leads { ForEachLead self.old (λ w. OnOk result (Leads (step_done w (event.Take node)) self.new)) }
        ensures refused { OnErr result (self.new ≡ self.old) }
    {
        let place = self.place(node)?;
        let controller = &mut self.controllers[place];
        let Due::Take(window) = &controller.due else {
            return Err(StepError::WrongTurn);
        };
        let window = *window;
        self.bus
            .take_into(node, window.number, &mut controller.a, &mut controller.b)?;
        controller.due = Due::Observe(window);
        Ok(())
    }

    /// Closes the controller's window at its interface.
    fn observe(&mut self, node: NodeId) -> Result<(), StepError>
        ensures refusal { result_err result
            ≡ if_node self.old node (observe_in_turn self.old node (carried_at self.old node)) }
        ensures leads { ForEachLead self.old (λ w. OnOk result (Leads (step_done w (event.Observe node)) self.new)) }
        ensures refused { OnErr result (self.new ≡ self.old) }
    {
        let place = self.place(node)?;
        let controller = &mut self.controllers[place];
        let Due::Observe(window) = &controller.due else {
            return Err(StepError::WrongTurn);
        };
        let window = *window;
        self.interfaces[place].observe(window.number, &controller.a, &controller.b)?;
        controller.due = Due::Look;
        Ok(())
    }

    /// Injects a fault in the open window.
    ///
    /// It isn't inlined, so that other events don't pay for the room of a frame.
    #[inline(never)]
    fn inject(&mut self, fault: &Fault) -> Result<(), StepError>
        ensures refusal { result_err result ≡ option_map Bus (inject_refusal (bare self.old.bus.bus) fault.now) }
        ensures leads { ForEachLead self.old (λ w. OnOk result
            (Leads (step_done w (event.Inject fault.now)) self.new)) }
        ensures refused { OnErr result (self.new ≡ self.old) }
    {
        self.bus.inject(fault.duplicate())?;
        Ok(())
    }

    /// Seals the open window.
    fn seal(&mut self) -> Result<(), StepError>
        ensures { SealsMachine self.old result self.new }
    {
        self.bus.seal()?;
        Ok(())
    }

    /// Opens the next window.
    fn advance(&mut self) -> Result<(), StepError>
        ensures refusal { result_err result ≡ option_map Bus (advance_refusal (bare self.old.bus.bus)) }
        ensures leads { ForEachLead self.old (λ w. OnOk result (Leads (step_done w event.Advance) self.new)) }
        ensures refused { OnErr result (self.new ≡ self.old) }
    {
        self.bus.advance()?;
        Ok(())
    }

    /// Executes one event, with its answer.
    pub(crate) fn step(&mut self, event: &Event) -> Result<Reply, StepError>
        ensures { LiveSteps self.old event.now result self.new }
    {
        match event {
            Event::Commit {
                node,
                task,
                buffer,
                payload,
            } => committed(self.commit(*node, *task, *buffer, payload)),
            Event::Withdraw { node, task, buffer } => {
                replied(self.call(*node, *task, &Call::Withdraw { buffer: *buffer }))
            }
            Event::Read { node, task, buffer } => {
                replied(self.call(*node, *task, &Call::Read { buffer: *buffer }))
            }
            Event::Pop { node, task } => replied(self.call(*node, *task, &Call::Pop)),
            Event::Look(node) => looked(self.look(*node)),
            Event::Fetch(node) => done(self.fetch(*node)),
            Event::Put(node) => done(self.put(*node)),
            Event::Take(node) => done(self.take(*node)),
            Event::Observe(node) => done(self.observe(*node)),
            Event::Inject(fault) => done(self.inject(fault)),
            Event::Seal => done(self.seal()),
            Event::Advance => done(self.advance()),
        }
    }

    /// Executes one event, without its answer.
    pub(crate) fn apply(&mut self, event: &Event) -> Result<(), StepError>
        ensures { LiveApplies self.old event.now result self.new }
    {
        match event {
            Event::Look(node) => without_window(self.look(*node)),
            Event::Fetch(node) => self.fetch(*node),
            Event::Put(node) => self.put(*node),
            Event::Take(node) => self.take(*node),
            Event::Observe(node) => self.observe(*node),
            Event::Inject(fault) => self.inject(fault),
            Event::Seal => self.seal(),
            Event::Advance => self.advance(),
            _ => self.apply_call(event),
        }
    }

    /// Executes an event of a host, without its answer.
    ///
    /// It isn't inlined, so that other events don't pay for the room of a reply.
    #[inline(never)]
    fn apply_call(&mut self, event: &Event) -> Result<(), StepError>
        ensures { LiveApplies self.old event.now result self.new }
    {
        without_reply(self.step(event))
    }

    /// Executes the look, the fetch and the put of the node, up to the first one that is refused. Returns how many were
    /// accepted.
    pub(crate) fn offer(&mut self, node: NodeId) -> usize
        ensures few { result ≤ 3 }
        ensures accepts { LiveAccepts self.old (take result (offer_events node)) self.new }
        ensures refuses { LiveRefuses self.new (slice_get (offer_events node) result) }
    {
        if self.look(node).is_err() {
            return 0;
        }
        if self.fetch(node).is_err() {
            return 1;
        }
        if self.put(node).is_err() {
            return 2;
        }
        3
    }

    /// Executes the take and the observe of the node, up to the first one that is refused. Returns how many were
    /// accepted.
    ///
    /// The observation is lent by the bus, so nothing is copied, and no frame is decoded again.
    pub(crate) fn see(&mut self, node: NodeId) -> usize
        ensures few { result ≤ 2 }
        ensures accepts { LiveAccepts self.old (take result (see_events node)) self.new }
        ensures refuses { LiveRefuses self.new (slice_get (see_events node) result) }
    {
        let Ok(place) = self.place(node) else {
            return self.see_in_turn(node);
        };
        let Due::Take(window) = self.controllers[place].due else {
            return self.see_in_turn(node);
        };
        if self.interfaces[place].check_observe(window.number).is_err() {
            return self.see_in_turn(node);
        }
        if self.bus.take(node, window.number).is_err() {
            return self.see_in_turn(node);
        }
        let a = self.bus.sight(node, Channel::A);
        let b = self.bus.sight(node, Channel::B);
        let outcome = self.interfaces[place].observe_sights(window.number, &a, &b);
        let accepted = outcome.is_ok();
        prove!(accepted);
        self.controllers[place].due = Due::Look;
        2
    }

    /// Does the same as `see`, one event after the other.
    fn see_in_turn(&mut self, node: NodeId) -> usize
        ensures few { result ≤ 2 }
        ensures accepts { LiveAccepts self.old (take result (see_events node)) self.new }
        ensures refuses { LiveRefuses self.new (slice_get (see_events node) result) }
    {
        if self.take(node).is_err() {
            return 0;
        }
        if self.observe(node).is_err() {
            return 1;
        }
        2
    }
}
