//! Books and shares: each post is counted in a book and in the share of the thread that makes it, and both counts
//! agree.
//!
//! ```text
//! let (mut book, desk, mut tasks) = open_books::<L>(alloc, blank, 2)?; // a share for the desk, and one for each task
//! post(&mut book, &mut tasks[0]); // the book lies under a lock, a share goes with its thread
//! post(&mut book, &mut tasks[1]);
//! let posts = gather(&mut book, desk, tasks); // 2, from the book as from the shares
//! ```
//!
//! *(project-defined)* marks a rule of this project, and makes no claim about the standard.
//!
//! # Definitions
//!
//! - `Posts`: the parts of a ledger, and the posts of all its shares.
//!
//! # Inner workings
//!
//! `open_books` cuts a ledger of `std` into a part for the interface's lock and one for each task. Each part becomes a
//! `Share`. The book begins at 0, behind the same lock as the number that it counts; each share goes with its task's
//! thread. A `post` adds one to both. Once the threads are joined, `gather` takes the book and all shares. The sum is
//! proved for every order in which the threads posted. The ledger's tokens have no bytes, so the book keeps the number,
//! and its type says that it is the ledger's total. A share's type says that it is one part, so this fact outlasts the
//! join of a thread.
#![tactic(auto)]

pub mod books;
