//! A cluster file, read node by node, without a table of the whole file.
//!
//! ```text
//! let cluster = cluster_of(alloc, &mut file)?; // as `cluster_of` of `fr_files`
//! let cluster = cluster_from_text(alloc, text)?; // as `Cluster::from_text` of `fr_schedule`
//! ```
//!
//! *(project-defined)* marks a rule of this project, and makes no claim about the standard.
//!
//! # Definitions
//!
//! Modules that follow the steps of the code, for private functions, with the module that has the meaning:
//!
//! - `UsualText`: the pieces of a file in its usual form. Meaning: `described` of `Files` (`fr_schedule`).
//!
//! # Inner workings
//!
//! 1. `value` reads a key, and a value that is no deeper than an array of inline tables.
//! 2. `section` reads a header, or the pairs up to the next one. `toml_parser` reads keys, strings and numbers.
//! 3. `head` reads the pairs before the first header, and the tables before the nodes.
//! 4. `nodes` reads each node. Its plan is made before the next node is read, so the room of its table serves again.
//! 5. `cluster_from_text` leaves a text of another form, or with a fault, to `toml`, and reads it anew.
#![tactic(auto)]

pub mod cluster_file;
mod head;
pub mod nodes;
mod section;
mod value;
