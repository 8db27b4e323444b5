//! The world of a cluster: an interface for each node, the bus, and the data that each controller carries from one of
//! its steps to the next. All calls of hosts, controllers and the bus are a list of events, in any order.
//!
//! ```text
//! let mut world = World::new(alloc, &cluster, cycles)?;
//! world.step(&Event::Look(node))?; // one event: one call of one interface, or one of the bus
//! let accepted = run_events(&mut world, &events); // a list of events
//! world.interfaces(); // each node's journal up to here
//! world.bus().record(); // and the sealed windows
//! ```
//!
//! A chapter in parentheses is one of the FlexRay Protocol Specification 2.1, revision A.
//! *(project-defined)* marks a rule of this project, and makes no claim about the standard.
//!
//! # Definitions
//!
//! - `Carried`, `Worlds`, `Steps`, `Runs`, `Fronts`: the data that a controller carries; the state of a world; one
//!   atomic step; lists of events; events that are accepted one after another.
//! - `Agreeing`, `Agreement`: frames that journals handed to the bus and observations that they got; the invariant of a
//!   world.
//! - `Headline`, `Receivers`, `Accounts`: the promises of every world; the frames that receivers hold; the account of a
//!   slot in its owner's journal.
//! - `Answers`: scripts with and without the answers of their calls.
//! - `Scripts`, `Settling`: equality of a task's calls and its script; the answer of a cross-check.
//! - `ErrorNames`: the printed names of refusals.
//!
//! Modules that follow the steps of the code, for private functions, with the module that has the meaning:
//!
//! - `Walks`: progress of a walk along a journal beside the record and the scripts. Meaning: `Agreeing`, `Scripts`,
//!   `Settling`.
//! - `Hearing`: the observations that a world keeps of its bus's last window. Meaning: `States` of `fr_bus`.
//!
//! # Inner workings
//!
//! `World::step` (`world`) passes an event to the private `Machine` (`machine`). The machine has the interfaces, the
//! bus, and for each node its controller (`controller`): the step that is due, and room for the data that it carries
//! there. The machine has one call for each kind of event. It finds the node, checks the controller's turn, and makes
//! one call of that node's interface or of the bus. An accepted call gives the controller its next data.
//!
//! - `World::apply` is the same step without the answer, which has room for a frame.
//! - `World::inject`, `seal` and `advance` make the step of their event without an `Event`, which has room for a
//!   payload.
//! - `World::offer` and `World::see` execute the events of a node before and after the seal. `heard_bus` decodes each
//!   frame once and lends the observation. `pass_front` finds such events in a list (`front`).
//! - `run_events` (`run`) executes a list of events and counts the accepted ones.
//! - An event costs its one call. An inject also copies its fault, and a seal decodes what is heard on each channel. No
//!   event copies an interface, a bus or a record.
//!
//! The module `Steps` is the meaning of one event: the refusal, the answer, and the whole state after it. It consists
//! of the refusals and effects of `fr_interface` and `fr_bus`. Each call of the machine is proved against it. The type
//! `World` wraps the machine and has the invariant. A lemma about `Steps` (`WorldLemmas`) says that an event keeps the
//! invariant, and speaks of no code. Legality of each interface and the law of the record come from the interfaces and
//! the bus.
//!
//! Agreement of journals and record is kept for each node (`NodeLemmas`), and by each event for all nodes
//! (`AgreementLemmas`). It is two equations of lists for each node. The frames that its journal handed to the bus equal
//! its offers in the record, and its observations equal those that the record gives. The data that a controller carries
//! is at the end of one of them.
//!
//! The receivers' clause (`ReceiverLemmas`) and the harmlessness of babblers (`HarmlessLemmas`) follow from the law of
//! the record, legality and these equations. A held frame was observed by the journal, so it was recorded. In a
//! fault-free slot it is the owner's offer, so the owner's journal handed it to the bus.
//!
//! Six lemma modules are about the account of a slot.
//!
//! - `ReadyLemmas`, `LeftOverLemmas` and `SendingLemmas`: its remainder is the commit that the buffer has ready, and a
//!   commit is pending by the account exactly if it is by the journal.
//! - `TimingLemmas` and `TimedLemmas`: the run cycles of the journal are those of the record.
//! - `OwnLemmas`: no other transmission passes.
//!
//! The function `settle` (`settle`) compares plans, then windows, offers and fates, observations, and scripts, each for
//! all nodes. It walks each journal once beside the record (`walk`) and passes each entry to the fetches, the observes
//! and the tasks (`tasks`). `settle_in_threads` gives the same answer, with as many threads as there are cores. One of
//! them is the caller's.
//!
//! An owner is defined by ownership lines (`IsOwner`). In static slots it is the owner of the sender table. `Receivers`
//! names the recorded window and states that it exists. As a condition on some window of the record it would also hold
//! of a frame from none.
#![tactic(auto)]

pub mod controller;
pub mod error;
pub mod event;
pub mod front;
mod heard_bus;
mod legal;
mod machine;
pub mod run;
pub mod script;
pub mod settle;
mod tasks;
pub mod walk;
pub mod world;
