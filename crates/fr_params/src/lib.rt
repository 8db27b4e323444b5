//! The parameters of a cluster, read from the table `params` of a cluster file.
//!
//! ```text
//! let table = toml::table_from_str(alloc, text)?;
//! match from_table(&table) {
//!     Ok(params) => println!(rt; "{} static slots", params.static_slots)?,
//!     Err(error) => eprintln!(rt; "{error}")?, // the first key at fault, or the sum
//! }
//! ```
//!
//! A chapter in parentheses is one of the FlexRay Protocol Specification 2.1, revision A.
//! *(project-defined)* marks a rule of this project, and makes no claim about the standard.
//!
//! # Definitions
//!
//! - `Table`: the parameters under the keys of a table.
#![tactic(auto)]

pub mod error;
pub mod table;
