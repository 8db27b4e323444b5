//! The judgement of a recording against a cluster (project-defined).
//!
//! ```text
//! let mut judge = Judge::new(rules, alloc)?;
//! judge.judge(time, link, original, bytes); // a record
//! judge.lines(); // what it shows
//! judge.finish(true); // the end of the input
//! ```
//!
//! A chapter in parentheses is one of the FlexRay Protocol Specification 2.1, revision A.
//! *(project-defined)* marks a rule of this project, and makes no claim about the standard.
//!
//! # Definitions
//!
//! - `Rules`, `Names`: the rules of a judgement; the order of the names of findings.
//! - `Tallies`, `Lanes`, `Distances`: counts of slots; a channel and the frames that open its cycles; times.
//! - `Judging`: the state after each record, and the lines that the record shows.
//!
//! Modules that follow the steps of the code, for private functions, with the module that has the meaning:
//!
//! - `Fields`: the private fields of a judge. Meaning: the record of `Judging` that is the model of the type.
//! - `DueTable`, `Counting`: the table of what is due in static slots; the counts of a slot that stay in their place.
//!   Meaning: `due_at` of `Rules`; `count_frame` of `Judging`.
//! - `KeptFields`: the private fields of a frame that is kept. Meaning: `Fields` of `fr_frame`.
//!
//! # Inner workings
//!
//! The channel of a record is moved to the front, so that each step speaks of this channel and the other one. A good
//! frame whose count isn't that of the open cycle waits for the next good frame of its channel. Everything else is
//! decided at once. All memory is taken by `Judge::new`. `dues` has what is due in each static slot, cycle after cycle.
//! Most frames have no finding: what they need is done in place, and the rest of the work is in functions that aren't
//! inlined. `kept` has the frame that the other channel is compared with. What is read for the frames of a cycle lies
//! close together, so that it stays in the cache.
#![tactic(auto)]

mod came;
mod distance;
mod dues;
mod ends;
mod find;
pub mod judge;
pub mod kept;
pub mod lane;
pub mod line;
mod missing;
pub mod names;
mod opening;
mod records;
pub mod rules;
pub mod tally;
