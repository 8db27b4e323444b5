//! The book of a ledger, and the shares into which the ledger is cut.

ghost use Rattle.std.specs.Prelude.{◌≡◌, ◌+◌, ◌^◌, ◌<◌, IfOk, vec_len};
ghost use Rattle.std.specs.List.{All};
ghost use Rattle.fr_ledger.specs.Posts.{parts_for, posts_of};

use std::alloc::{AllocError, Global};
use std::marker::Model;
use std::sync::ledger;
use std::sync::ledger::{Blank, Ledger};

/// The number of posts that were made with all shares of the ledger (project-defined).
#[derive(Drop)]
pub struct Book<L: Ledger> {
    // Tokens of the ledger of `std` have no bytes, so the book keeps the number too.
    count: u64,
    posts: ledger::Book<L>,
}

impl<L: Ledger> Model for Book<L> {
    ghost use Rattle.std.specs.Prelude.{◌≡◌, ℕ};

    ghost Value = { ℕ };

    ghost view = { λ b. b.count };

    ghost invariant = { λ b. b.posts.total ≡ b.count };
}

// A share has no number; only the proofs know its posts. Its type says that it is one part, so all shares together are
// as many as the parts of the ledger.
/// One part of the ledger, with the posts that were made with it (project-defined); it has no bytes.
#[derive(Drop)]
pub struct Share<L: Ledger> {
    part: ledger::Share<L>,
}

impl<L: Ledger> Model for Share<L> {
    ghost use Rattle.std.specs.Prelude.{◌≡◌, ℕ};

    ghost Value = { ℕ };

    ghost view = { λ s. s.part.amount };

    ghost invariant = { λ s. s.part.parts ≡ 1 };
}

/// Returns the book of a ledger, the host interface's share, and one share for each of 0 to 255 tasks.
///
/// All are without a post (project-defined). The blank belongs to the ledger, and is cut into these parts. Fails if the
/// allocation of the list of the tasks' shares fails.
pub fn open_books<L: Ledger>(
    alloc: Global,
    blank: Blank,
    tasks: u8,
) -> Result<(Book<L>, Share<L>, Vec<Share<L>>), AllocError>
    requires name { blank.name ≡ L.name }
    requires parts { blank.parts ≡ L.parts }
    requires one_each { blank.parts ≡ parts_for tasks }
    ensures book { IfOk result (λ opened. opened.0 ≡ 0) }
    ensures desk { IfOk result (λ opened. opened.1 ≡ 0) }
    ensures len { IfOk result (λ opened. vec_len opened.2 ≡ tasks) }
    ensures tasks { IfOk result (λ opened. All (λ share. share ≡ 0) opened.2.items) }
{
    let mut shares = Vec::with_capacity(alloc, usize::from(tasks))?;
    let (posts, mut rest) = blank.open::<L>();
    for _task in 0..tasks {
        shares.push_reserved(Share {
            part: rest.split_off(1, 0),
        });
    }
    Ok((Book { count: 0, posts }, Share { part: rest }, shares))
}

/// Counts one post, in the book and in the share with which it is made (project-defined).
///
/// The book has room for it: it counts up to the greatest number of 64 bits.
pub fn post<L: Ledger>(book: &mut Book<L>, share: &mut Share<L>)
    requires room { book.old + 1 < 2 ^ 64 }
    ensures book { book.new ≡ book.old + 1 }
    ensures share { share.new ≡ share.old + 1 }
{
    book.posts.add(&mut share.part, 1);
    book.count += 1;
}

/// Returns the number of posts that were made with all shares together (project-defined). It is the book's count, since
/// the shares are all parts of the ledger.
pub fn gather<L: Ledger>(book: &mut Book<L>, desk: Share<L>, tasks: Vec<Share<L>>) -> u64
    requires all { L.parts ≡ parts_for (vec_len tasks) }
    ensures sum { result ≡ posts_of desk tasks.items }
    ensures book { result ≡ book.old }
    ensures same { book.new ≡ book.old }
{
    let Share { part: mut all } = desk;
    for Share { part } in tasks {
        all.merge(part);
    }
    book.posts.audit(&mut all);
    book.count
}
