//! The layout of a cycle: the starts of its segments, and the static slot, minislot, symbol window or network idle time
//! in which a macrotick lies.
//!
//! ```text
//! let params = Params::new([3, 10, 1, 20, 5, 4, 6, 120, 1, 4])?;
//! let place = locate(&params, 59); // static slot 3, macrotick 19 of it
//! let macrotick = start_of(&params, Place::Minislot { number: 1, offset: 0 }); // 60
//! let none = locate(&params, 120); // the cycle is over
//! let segments = segments_of(&params); // segments.dynamic is 60, segments.symbol 110
//! ```
//!
//! A chapter in parentheses is one of the FlexRay Protocol Specification 2.1, revision A.
//! *(project-defined)* marks a rule of this project, and makes no claim about the standard.
//!
//! # Definitions
//!
//! - `Layout`, `Segments`: the layout of the cycle as a list of intervals; the starts of its segments.
//!
//! Modules that follow the steps of the code, for private functions, with the module that has the meaning:
//!
//! - `Division`: multiplication and division. Meaning: `Layout`, a list of intervals.
#![tactic(auto)]

pub mod cycle;
pub mod place;
pub mod segments;
