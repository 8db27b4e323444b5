//! The payloads that a run's receive buffers hold at the ends of its cycles, against the expectations of a scenario
//! (project-defined).
//!
//! ```text
//! let missed = missed_in(alloc, cycles, interfaces, scenario.expected())?;
//! for missed in missed.as_slice() {
//!     // line 7: node 2 buffer 1 at the end of cycle 3: expected x0102, found x0103
//!     write_missed(&mut output, missed)?;
//! }
//! ```
//!
//! *(project-defined)* marks a rule of this project, and makes no claim about the standard.
//!
//! # Definitions
//!
//! - `Expected`: the end of a cycle in a node's journal; the content of a receive buffer there; the expectations that a
//!   run missed.
//! - `MissedText`: the text of a missed expectation.
//!
//! A module that follows the steps of the code, for private functions, with the module that has the meaning:
//!
//! - `Contents`: the content of a receive buffer, entry by entry. Meaning: `Expected`.
//!
//! # Inner workings
//!
//! 1. `walk` goes along a node's journal to the end of a cycle. It keeps the payload that the entries so far left in
//!    one receive buffer.
//! 2. `judging` goes through the cycles that an expectation names, with one walk for each expectation. So the time for
//!    each expectation is linear in the cycles and in the entries of the node's journal.
#![tactic(auto)]

pub mod expectation;
pub mod judging;
pub mod missed;
mod walk;
