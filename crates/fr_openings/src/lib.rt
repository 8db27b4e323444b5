//! The transmit buffers of the dynamic segment in a run, window by window: those that are due in a cycle, and the
//! minislots at which their slots open.
//!
//! ```text
//! write_openings(&mut text, &cluster, 3, &window, last)?; // slot 9 opened at minislot 54, after pLatestTx
//! ```
//!
//! A chapter in parentheses is one of the FlexRay Protocol Specification 2.1, revision A.
//! *(project-defined)* marks a rule of this project, and makes no claim about the standard.
//!
//! # Definitions
//!
//! - `Openings`: the buffers that are due, the slots that open, and the lines.
//!
//! A module that follows the steps of the code, for private functions, with the module that has the meaning:
//!
//! - `Aside`: the windows that have nothing of a buffer. Meaning: `Openings`.
//!
//! # Inner workings
//!
//! A slot that doesn't open in a cycle has no window there. So its buffer has a line `closed` in the window in which
//! the channel opens its last slot of the cycle.
#![tactic(auto)]

pub mod openings;
