//! The parts of all texts of the bench: words of a line, decimal numbers with one spelling, and bytes as hexadecimal
//! digits.
//!
//! ```text
//! let mut words = Words::new(b"pop 7 x0a0b");
//! let kind = words.next_word(); // b"pop"
//! let task = number_of(words.next_word()?, 8)?; // 7, and it is below 8
//! let bytes = bytes_of::<2>(words.next_word()?)?; // 0a 0b
//! write_hex(&mut out, bytes.as_slice())?; // x0a0b
//! ```
//!
//! A chapter in parentheses is one of the FlexRay Protocol Specification 2.1, revision A.
//! *(project-defined)* marks a rule of this project, and makes no claim about the standard.
//!
//! # Definitions
//!
//! - `Spaces`, `Words`, `Plain`: the words of a line and the words that are left; words without a space or line feed.
//! - `Reading`, `Spelling`, `Writing`: the one spelling of numbers and bytes; the effect of a function that writes.
//!
//! Modules that follow the steps of the code, for private functions, with the module that has the meaning:
//!
//! - `Digits`: the values of a block of digits. Meaning: `Reading`, `Spelling`.
#![tactic(auto)]

pub mod hexes;
pub mod numbers;
pub mod words;
