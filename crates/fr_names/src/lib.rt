//! The names that a cluster file gives to its nodes and their buffers (project-defined).
//!
//! ```text
//! let (cluster, names) = named_cluster_of(alloc, &mut file)?;
//! let node = names.node(b"brakes"); // Some(node) if exactly one node has the name
//! let buffer = names.buffer(node, b"wheel-speeds"); // Some(number), 0 to 63, among the buffers of that node
//! ```
//!
//! *(project-defined)* marks a rule of this project, and makes no claim about the standard.
//!
//! # Definitions
//!
//! - `Names`: the form of a name; the names of a cluster; the node or buffer that a name is for.
//! - `FileNames`: the names in the text of a cluster file.
//! - `NamedFiles`: the reading of a cluster file as a cluster and its names.
//!
//! # Inner workings
//!
//! 1. `table` reads the values of nodes and buffers, and the strings under their keys `name`, from a table of `toml`.
//! 2. `names` keeps the names in the order of their nodes and buffers. Each look-up goes through all names of the
//!    cluster, or of the node, since a name that stands twice is for none.
//! 3. `cluster_file` reads a whole file. `Cluster::from_text_leaking` (`fr_schedule`) and `Names::from_text_leaking`
//!    each parse it.
#![tactic(auto)]

pub mod cluster_file;
mod name;
pub mod names;
mod table;
