//! The fault-tolerant midpoint of measured deviations (chapter 8).
//!
//! ```text
//! let answer = midpoint(&[15, 13, 11, 6, -3, -5, -18])?;
//! if let Some(found) = answer {
//!     // found.value is 4, half the sum of the values of ranks 2 and 6
//! }
//! ```
//!
//! A chapter in parentheses is one of the FlexRay Protocol Specification 2.1, revision A.
//! *(project-defined)* marks a rule of this project, and makes no claim about the standard.
//!
//! # Definitions
//!
//! - `Midpoint`, `Refusals`: the midpoint by ranks.
//! - `ErrorNames`: the printed names of refusals.
//!
//! Modules that follow the steps of the code, for private functions, with the module that has the meaning:
//!
//! - `Selection`: places in ascending values. Meaning: `Midpoint`, ranks.
#![tactic(auto)]

pub mod midpoint;
pub mod ranks;
