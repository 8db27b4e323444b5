//! The bus guardians of a cluster's nodes: the transmissions that they pass, and their open macroticks in a cycle.
//!
//! ```text
//! let cluster = Cluster::from_text(alloc, text)?;
//! let guardian = Guardian::new(alloc, &cluster)?;
//! let passes = guardian.passes(node, &window, Channel::A);
//! for (start, end) in guardian.windows(node, cycle, Channel::A) {
//!     // open in that cycle from macrotick start up to the one before end
//! }
//! ```
//!
//! A chapter in parentheses is one of the FlexRay Protocol Specification 2.1, revision A.
//! *(project-defined)* marks a rule of this project, and makes no claim about the standard.
//!
//! # Definitions
//!
//! - `Guarding`, `Intervals`, `Periods`: the transmissions that a guardian passes, and its open macroticks in a cycle;
//!   the maximal intervals of a set; the number of cycles after which ownership repeats.
#![tactic(auto)]

pub mod guardian;
mod intervals;
