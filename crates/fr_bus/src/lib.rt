//! The bus of a cluster: the windows of a run, the nodes' transmissions in each, the injected faults, and each node's
//! observations.
//!
//! ```text
//! let mut bus = Bus::new(alloc, &cluster, cycles)?;
//! bus.put(node, number, &offer)?; // each node, in the window of this number
//! bus.seal()?; // decides the outcome of each transmission
//! let (a, b) = bus.take(node, number)?; // each node
//! bus.advance()?; // the next window, and bus.record() has those before
//! ```
//!
//! A chapter in parentheses is one of the FlexRay Protocol Specification 2.1, revision A.
//! *(project-defined)* marks a rule of this project, and makes no claim about the standard.
//!
//! # Definitions
//!
//! - `Windows`: the windows of a run, each by the record before it.
//! - `Outcome`, `Corruption`, `Record`: the transmissions of a window, the outcome of each, each node's observation; a
//!   flipped bit; the record.
//! - `States`, `Stations`, `Courses`: the state of a bus, its refusals, effects and invariant; the progress of a run.
//! - `Standing`, `Live`: the data that a bus keeps in place of its record, and the runs that lead to them.
//! - `ErrorNames`: the printed names of refusals.
//!
//! Modules that follow the steps of the code, for private functions, with the module that has the meaning:
//!
//! - `stations_of` in `Stations`: the nodes that have put, those that have taken, and each node's frames, apart.
//!   Meaning: `Station`, which has all of it.
//!
//! # Inner workings
//!
//! A `Bus` is a `KeptBus` and the record. A `LiveBus` is a `KeptBus` and the last window, so a run of any length has
//! room. A `LiveBus` also keeps what is heard in that window, with its decoded frames (`Heard` of `fr_interface`).
//!
//! - `Bus::new` makes the guardians, a station for each node, and the course of the run at its first window.
//! - `put` copies an offer into its station (`station`).
//! - `inject` keeps a fault there, or among the flipped bits.
//! - `seal` lists the outcome of each transmission of each station (`outcome`), appends the list to the record, and
//!   then closes the window. The list reserves its whole room first, so both allocations come before any change.
//! - `take` reads only the last window of the record. `take_lent` copies nothing. `hear_into` decodes what is heard on
//!   a channel of that window, and `sight` lends it to each node. The caller keeps it, since a run with threads doesn't
//!   need it.
//! - `advance` clears the stations and opens the next window.
//!
//! Stations keep apart each node's frames, the nodes that have put, and the nodes that have taken. The bus counts the
//! last two.
//!
//! The definition of the next window speaks of the whole record: the rows of a channel are those of this cycle's
//! windows. The code keeps a `RunCourse` beside the record, with numbers and a `Lane` (`fr_minislot`) for each channel.
//! Its type says that it leads where the record leads, so no call's time grows with the record.
#![tactic(auto)]

pub mod bus;
mod course;
pub mod error;
pub mod fault;
mod kept;
pub mod live;
pub mod outcome;
mod station;
