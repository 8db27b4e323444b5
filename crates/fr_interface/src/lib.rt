//! The calls of a host and of a controller on a journal, and the answers that the journal gives. The data for these
//! answers are kept beside the journal, so that no call scans it.
//!
//! ```text
//! let mut interface = Interface::new(alloc, &params, &plan)?; // of a plan without fault
//! let receipt = interface.commit(task, 0, &payload)?;
//! let offer = interface.fetch(&window)?; // the bytes for each channel
//! interface.observe(window.number, &Seen::Own, &Seen::Silence)?;
//! let frame = interface.read(task, 1)?; // the last one that buffer 1 admitted
//! ```
//!
//! A chapter in parentheses is one of the FlexRay Protocol Specification 2.1, revision A.
//! *(project-defined)* marks a rule of this project, and makes no claim about the standard.
//!
//! # Definitions
//!
//! - `Calls`: the calls of a host, as one kind: their refusals, answers and entries.
//! - `State`, `Commits`: the state of an interface, its refusals, the invariant; its commits and their fates.
//! - `Handing`: the bytes that a fetch handed to the bus, by its entry.
//! - `ErrorNames`: the printed names of refusals.
//! - `Standing`: the data that an interface keeps in place of the calls before.
//! - `Sights`: a node's observation, with or without what follows from it.
//!
//! Modules that follow the steps of the code, for private functions, with the module that has the meaning:
//!
//! - `Known`, `Seeing`, `Sending`: the data beside a journal, and the frames that it sends. Meaning: `Fate`, `Offers`,
//!   `Held`, `Arrivals`, `Counts` and `OpenWindow` in `fr_journal`.
//! - `Ranges`: for each slot a range of places that holds all lines of a plan for the slot. Meaning: `Offers`, `Held`
//!   and `Arrivals` in `fr_journal`, over all lines.
//!
//! # Inner workings
//!
//! `Chi` is generic over its history. `Interface` has a journal, which the bench settles at the end of a run, and
//! `LiveInterface` a past that only contracts see. Both have one state, and one set of clauses.
//!
//! Beside its history an interface keeps (`state`), for each buffer of the plan, a transmit buffer with tally and last
//! commit, or a receive buffer with its last frame. It also keeps the open window (`opening`), the receive FIFO as a
//! ring, and the status counters. The type states that all these are the ones that the history gives
//! (`InterfaceFields`, `IsLawful`). So no call scans a journal, and an old entry is reached by its number. A
//! withdrawn commit isn't kept.
//!
//! - `sending` has the frames that leave transmit buffers, and `offers` encodes them.
//! - `observed` has the effects of an observed window. `sight` has observations whose frame was decoded already, for
//!   another node that heard the same.
//! - `receiving` reads and pops.
//! - `index` has for each slot of the plan the ranges of places of its buffers, of its transmit buffers, and of its
//!   ownership lines.
//!
//! The proofs have a lemma for each kind of entry and each part.
#![tactic(auto)]

pub mod call;
pub mod errors;
mod handing;
mod index;
pub mod interface;
mod naming;
mod observed;
mod offers;
mod opening;
mod receiving;
mod sending;
pub mod sight;
pub mod source;
pub mod state;
