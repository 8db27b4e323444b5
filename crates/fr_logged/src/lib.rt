//! Logged records of a bus: the frame that a record spells, what a cluster allows in a slot, and the findings where the
//! two differ (project-defined).
//!
//! A chapter in parentheses is one of the FlexRay Protocol Specification 2.1, revision A.
//! *(project-defined)* marks a rule of this project, and makes no claim about the standard.
//!
//! # Definitions
//!
//! - `Logged`: the kind of a record, the frame that its bytes spell, and the finding if they spell none.
//! - `Dues`: the sender of a slot, and what it may send there.
//! - `Rules`: the finding of a frame in its slot.
//!
//! # Inner workings
//!
//! A record of link type 210 has a byte with channel and kind, a byte of flags, and then the bytes of a frame without
//! trailer, or with it (`record`). `frame` reads the header as one number, and `header_crc` takes its CRC from
//! `tables`, without a copy of the payload. `plain` reads a frame and makes no finding, which takes less time than
//! `spelled`. `due` goes along the lines of the plans.
#![tactic(auto)]

pub mod due;
pub mod finding;
pub mod frame;
mod header_crc;
pub mod record;
pub mod rules;
mod tables;
