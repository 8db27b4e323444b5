//! What `fr_latency` computes, as laws on worlds and on lists of events: its guarantees hold in every world, and runs
//! reach its worst cases. The crate has no code: each law is a clause of a function in `laws`, whose body is empty.
//!
//! *(project-defined)* marks a rule of this project, and makes no claim about the standard.
//!
//! # Definitions
//!
//! - `Ways`, `Guarantees`: the ways in which a dynamic segment can go; slots that open in time on each of them, and
//!   what follows from it in a world.
//! - `Leading`, `Exactness`: events that are accepted one by one, the room that a run needs, and runs that open a slot.
//! - `Chances`: runs in which a dynamic buffer sends that can send in a cycle.
//! - `Delays`: runs in which a commit waits as long as the table of latencies says.
//!
//! # Laws of every world
//!
//! - `GuaranteeLemmas`: `guarantees` holds of each world that has the headline promise. A static window leaves no
//!   commit pending on a buffer that it belongs to, whatever faults there are. So does a dynamic one, without babbles
//!   and muted offers, if its slot opens by the node's latest minislot on each way. The rows of each cycle are one of
//!   the ways.
//! - `WayLaws`, `TableLaws`, `HeldTableLaws`: each way leads to a minislot at which, by `fr_latency`, the slot can
//!   begin. A slot whose last minislot is early enough there opens in time on each way, so a window of a guaranteed
//!   cycle leaves no commit pending.
//!
//! # Laws of some run
//!
//! - `ExactLemmas`: `all_realized` holds of each cluster. Wherever the definition lets a dynamic slot open, some run
//!   opens it.
//! - `ChanceLemmas`: `all_offered` holds of each cluster. A buffer that is possible in a cycle is offered in some run.
//! - `WorstLemmas`: `each_reached` and `each_worst_reached` hold of each cluster, too. The worst latency of each buffer
//!   that has one is that of some run. For buffers that are guaranteed in all their cycles, `all_reached` and
//!   `worst_reached` need less room. `ReachLemmas` and `StaticReachLemmas` construct the run, and `LateLemmas` its
//!   cycles in which the slot of the buffer comes too late.
//! - `WindowLemmas`, `PassingLemmas`, `SentLemmas`, `WalkLemmas`: the events of a window without frames, of one with a
//!   frame that a host commits right before it, and of a cycle that follows a chosen way.
#![tactic(auto)]

pub mod laws;
