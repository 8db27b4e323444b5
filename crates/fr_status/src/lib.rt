//! A node's observations in a slot, and the slot status that follows from each (chapter 6).
//!
//! ```text
//! let seen = Seen::Bytes(bytes);
//! let (status, frame) = status_of(&params, cycle, slot, Channel::A, &seen);
//! if status.valid {
//!     // `frame` is the received frame
//! }
//! ```
//!
//! A chapter in parentheses is one of the FlexRay Protocol Specification 2.1, revision A.
//! *(project-defined)* marks a rule of this project, and makes no claim about the standard.
//!
//! # Definitions
//!
//! - `Status`: the status of a slot.
//! - `Checks`: the calculated frame CRC of an observation, and observations that differ at most in the trailer.
//!
//! Modules that follow the steps of the code, for private functions, with the module that has the meaning:
//!
//! - `LentSeen` in `Forms`: an observation that borrows its bytes. Meaning: `Seen`, with its bytes.
//! - `Counting`: the counters after one call. Meaning: `Counts` in `fr_journal`.
#![tactic(auto)]

pub mod counters;
pub mod seen;
pub mod status;
