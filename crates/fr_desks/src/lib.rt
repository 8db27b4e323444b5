//! A node's host interface (`Desk`) and the bus (`Wire`), each behind a lock of its own, for threads that share them.
//!
//! ```text
//! let (desk, mut passes) = Desk::<L>::open(alloc, blank, node, interface)?; // a handle for each task of the node
//! desk.commit(rt, &gate, &mut passes[0], buffer, &payload)?; // one call of the interface, under its lock
//! let (interface, book, own) = desk.close(); // the book counts the interface's commits
//!
//! let wire = Wire::new(bus);
//! while let Some(window) = wire.next(rt, node)? {} // each call waits for its phase
//! let next = wire.receive_into(rt, node, number, &mut a, &mut b)?; // what `deliver` left for the node
//! let bus = wire.close();
//! ```
//!
//! A chapter in parentheses is one of the FlexRay Protocol Specification 2.1, revision A.
//! *(project-defined)* marks a rule of this project, and makes no claim about the standard.
//!
//! # Definitions
//!
//! - `Letters`: the observations of the nodes in the places of a delivery.
//! - `Passes`: the state of a task's handle (`Pass`).
//!
//! # Inner workings
//!
//! A `Wire` has one lock and two condition variables for the bus, one for the nodes and one for the thread that moves
//! it on. That thread can make the takes of all nodes and the advance together (`Wire::deliver`), so that a node waits
//! once a window. It fills a letter for each node, with the observations and the next window. Each letter has a lock of
//! its own, since all nodes are due at once. One condition variable wakes them all, by one call of the system.
#![tactic(auto)]

pub mod desk;
pub mod gate;
mod hint;
pub mod letter;
pub mod wire;
