//! Captures of a bus in the two formats of packet captures, classic and with blocks, read as they come
//! (project-defined).
//!
//! ```text
//! let mut reader = Reader::new(alloc)?;
//! let taken = reader.next(piece); // up to the end of the first record in the piece
//! if let Some(entry) = reader.entry() { .. } // its time, its link type, and its bytes
//! reader.refusal(); // at the end of the file
//! ```
//!
//! # Definitions
//!
//! - `Numbers`, `Times`: numbers in a file, and its limits; times of records in nanoseconds.
//! - `Records`, `Captures`: a record; the parts of a file, each as a function of its bytes.
//! - `Stream`: the progress after each byte of a file, its records, and its refusal.
//! - `Classics`: a record of a classic file that lies whole in a piece.
//!
//! Modules that follow the steps of the code, for private functions, with the module that has the meaning:
//!
//! - `CourseFields`, `ReaderFields`: the private fields of a course and of a reader. Meaning: the records of `Stream`
//!   that are the models of the types.
//!
//! # Inner workings
//!
//! A file is a sequence of parts: heads of a known length, captured bytes, and bytes that aren't looked at. `Course`
//! (`course`) has the part that comes next, and the effect of a whole part. `Reader` (`reader`) cuts pieces into parts.
//! A part that lies in one piece is read in place; only a part that spans two pieces is copied. The captured bytes of a
//! record are kept, since a block is complete only with its last four bytes. All memory is taken by `Reader::new`.
#![tactic(auto)]

pub mod classic;
pub mod course;
mod heads;
pub mod numbers;
pub mod phase;
pub mod reader;
pub mod source;
