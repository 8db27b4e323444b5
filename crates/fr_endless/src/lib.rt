//! An endless session: requests in, and a reply to each, with a world that keeps no history. It needs the same memory
//! in each cycle, so a run of hours has room.
//!
//! ```text
//! let mut world = EndlessWorld::new(alloc, &cluster, greatest_cycles(&cluster), &Room::greatest())?;
//! let mut taps = Taps::new(alloc, cluster.params(), Some(record_file), None, Vec::new(alloc), 0)?;
//! serve_endless(alloc, &cluster, cycles, &mut world, &mut taps, &mut reader, &mut writer)?;
//! // run 1024              open 7168 0 0 1 1
//! // record 7167           lines 1 ..
//! // record 0              refused NotKept
//! // trace 0               refused NoHistory
//! ```
//!
//! *(project-defined)* marks a rule of this project, and makes no claim about the standard.
//!
//! # Definitions
//!
//! - `Alike`: what happens to each world with its history, when only its kept data are there.
//! - `Answers`: the replies that a session with history gives in another way, and a node in an outcome.
//! - `Kept`: the lines of the record that a session keeps for the windows that were sealed last.
//! - `Fronts`: the events of a node that one call of a world executes.
//! - `Serving`: an endless session.
//! - `Taps`: the files to which a session writes the windows that it seals and the entries of its nodes, and what they
//!   have of them.
//! - `Tracing`: the entry that an event adds to a journal, by what it is answered and by what a controller carries.
//!
//! # Inner workings
//!
//! A *tap* is a file to which a session writes as it goes: each window that it seals, as `fr_view record` or
//! `fr_view bus` has it, or each entry of a node, as a trace has it. `step_told` and `apply_told` (`telling`) execute
//! an event, and after a seal add the last window to the record and the capture. If the node is traced, `step_traced`
//! (`tracing`) executes an event that adds an entry. It makes the entry of a call from the answer, and the line of a
//! controller's entry from what it carries before the event. If a file fails, the request is executed to its end, and
//! the session ends in place of the reply. The events of a node that isn't traced are executed by one call
//! (`Front` of `fr_core`).
//!
//! The lines of the last windows are kept in the order of their numbers, each at the place of its number (`keeping`).
//! `receive` and `next` look at the frame that is due, and then make the step of `read` or `pop` (`receiving`).
//!
//! An `EndlessWorld` is a `LiveWorld` (`fr_live`) with the number of buffers of each node, which a report needs. The
//! requests are those of `fr_session`, read and written by its functions, and kept fault lines are its `KeptLines`.
//! `window`, `cycle` and `run` are the events of `fr_playing::moving`. Each clause speaks of the worlds with their
//! whole histories that lead to the kept data, and of the relations that `fr_session` defines on them.
#![tactic(auto)]

pub mod error;
mod keeping;
mod moving;
pub mod outcome;
mod queries;
mod receiving;
pub mod session;
pub mod striking;
pub mod taps;
mod telling;
mod tracing;
pub mod world;
