//! A world without history: the interfaces, the bus and the controllers of a cluster, without journals and record. It
//! needs the same memory in each cycle, so a run of hours has room.
//!
//! ```text
//! let mut world = LiveWorld::new(alloc, &cluster, cycles, &Room::greatest())?;
//! world.step(&Event::Look(node))?; // one event, as in a `World`
//! world.interfaces(); // what each interface holds now
//! world.bus().last(); // and the window that was sealed last
//! ```
//!
//! A chapter in parentheses is one of the FlexRay Protocol Specification 2.1, revision A.
//! *(project-defined)* marks a rule of this project, and makes no claim about the standard.
//!
//! # Definitions
//!
//! - `LiveWorlds`: the kept data, and the worlds with their whole histories that lead to them.
//! - `LiveSteps`: the refusals by the kept data, a step of each such world, and accepted events.
//!
//! # Inner workings
//!
//! A `LiveWorld` has an `InterfaceState` and a controller for each node, and a `LiveBus`. A call is made on these as
//! `World` makes it on interfaces and a bus. The definition of a step (`fr_core`) speaks of worlds with histories
//! alone. Each step here is proved to be one of them, whatever world led to the data. So the headline promise of
//! `fr_core` holds for the world that happened, although nobody keeps it.
#![tactic(auto)]

mod machine;
pub mod room;
pub mod world;
