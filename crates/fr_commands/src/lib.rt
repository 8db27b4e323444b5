//! The commands `check`, `plan` and `midpoint`: each reads a whole text and writes another one (project-defined).
//!
//! ```text
//! check_text(alloc, &mut file, &mut output)?; // params 3 4 1 20 5 0 10 90 0 5
//! plan_text(alloc, &mut file, &mut output)?; // slot 1 A 0 0 1, dynamic 4 A 2 0 1, guard 0 A 0 0 20 and so on
//! midpoint_text(alloc, &mut numbers, &mut output)?; // 4 2 6
//! ```
//!
//! A chapter in parentheses is one of the FlexRay Protocol Specification 2.1, revision A.
//! *(project-defined)* marks a rule of this project, and makes no claim about the standard.
//!
//! # Definitions
//!
//! - `Checks`, `Midpoints`, `PlanText`, `Numbers`: `check`, `plan` and `midpoint` on a whole text; the text of a plan;
//!   the numbers of a text.
//!
//! # Inner workings
//!
//! `fr_reader` reads cluster files, `fr_files` reads numbers and writes the outputs. `plan` computes open intervals for
//! as many cycles as differ.
//!
//! `midpoint_text` brings a number that 32 bits can't hold to the nearest one that they can, so that it is refused as
//! too large in its turn. Then `midpoint` sorts the values in an array and takes the middle.
#![tactic(auto)]

pub mod check;
mod line;
pub mod midpoint;
pub mod numbers;
pub mod plan;
