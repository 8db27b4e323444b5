//! Pictures of a cluster's schedule.
//!
//! ```text
//! let cluster = cluster_of(alloc, &mut file)?;
//! show_schedule(alloc, &mut file, Cycle::from_bits(0), &mut output)?; // an SVG picture of cycle 0
//! ```
//!
//! All lengths in a picture are whole numbers, tenths of its units, and time goes from left to right.
//!
//! A chapter in parentheses is one of the FlexRay Protocol Specification 2.1, revision A.
//! *(project-defined)* marks a rule of this project, and makes no claim about the standard.
//!
//! # Definitions
//!
//! - `Places`, `Frames`: places in a picture; its front, with the style, the heading, the segments and the names.
//! - `Shares`: the dynamic slots that have a sender, and the places of their boxes and lines.
//! - `Owners`, `Dynamics`, `Ranges`, `Guards`: the elements of the static slots, those of the dynamic slots, the
//!   minislots at which these open, and the rows of the guardians.
//! - `Schedules`: the picture, of which a cycle of a cluster has one.
//!
//! # Inner workings
//!
//! A picture is written part by part: the front (`frame`), the static slots by the sender table (`owners`), the dynamic
//! segments (`dynamics`) with the ranges of their slots (`ranges`), and the guardians' intervals (`guards`). The clause
//! gives each byte of each part. Boxes and lines of dynamic slots share their room, so `shares` counts the slots that
//! have a sender. The ranges are gathered before, since they need the openings of all slots.
#![tactic(auto)]

mod dynamics;
mod frame;
mod guards;
pub mod owners;
pub mod picture;
mod ranges;
pub mod scale;
mod shares;
