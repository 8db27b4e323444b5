//! A list that contracts see and memory doesn't have.
//!
//! An interface that keeps no journal still has a history, of which its contracts speak. [`Past`](past::Past) is such
//! a history: a value without bytes. Its methods do nothing at run time, and their clauses say what the list is
//! afterwards.
//!
//! ```text
//! let mut past = Past::<Entry>::new();
//! past.add::<EntryNote<'_>, Told>(&note);
//! ```
//!
//! A clause on a past says nothing to a user by itself. It gets its meaning from answers that follow from the items.
//! Only the three functions of this crate may set the items, since only their proofs are written by hand: the test
//! command refuses a file `Proof.antt` in any other crate.
#![tactic(auto)]

pub mod past;
