//! Frames: their fields, their bytes on a channel, and their two CRCs (chapter 4).
//!
//! ```text
//! let payload = Payload::from_slice(&[0x0a, 0x0b])?;
//! let cycle = Cycle::new(0)?;
//! let frame = Frame { preamble: false, has_data: true, sync: false, startup: false, id: 2, payload, cycle };
//! let bytes = encode(&frame, Channel::A); // 200203c1400a0ba32217
//! let again = decode(bytes.as_slice(), Channel::A)?; // the same frame
//! ```
//!
//! A chapter in parentheses is one of the FlexRay Protocol Specification 2.1, revision A.
//! *(project-defined)* marks a rule of this project, and makes no claim about the standard.
//!
//! # Definitions
//!
//! - `Spelling`, `Bits`, `Header`, `Payload`, `Crc`: the spelling of a frame, its bits, header and payload; CRC by long
//!   division.
//! - `Decoding`, `Refusal`, `Encoding`: the frame that bytes spell; refused bytes; the canonical spelling.
//! - `Checks`: the calculated frame CRC of bytes that may spell a frame, and bytes that differ at most in the trailer.
//!
//! Modules that follow the steps of the code, for private functions, with the module that has the meaning:
//!
//! - `Register`, `Tables`: a register that shifts in one bit after another, and tables for whole bytes. Meaning: `Crc`,
//!   long division of a list of bits.
#![tactic(auto)]

pub mod crc;
pub mod decode;
pub mod encode;
pub mod frame;
pub mod lent;
pub mod payload;
mod tables;
