//! A node's interface and the book of its commits, behind one lock.

ghost use Rattle.std.specs.Prelude.{◌≡◌, ◌+◌, ◌<◌, ℕ, [], length, IfOk, IfSome, OnOk, OnErr, vec_len, slice_get};
ghost use Rattle.std.specs.Prelude.{option_map};
ghost use Rattle.std.specs.List.{All};
ghost use Rattle.std.specs.Result.{result_err};
ghost use Rattle.fr_interface.specs.Commits.{commits_of, AreAccounted};
ghost use Rattle.fr_desks.specs.Passes.{Pass};
ghost use Rattle.fr_interface.specs.State.{with_entry, withdraw_entry, read_entry, pop_entry, fetch_entry, oldest_of};
ghost use Rattle.fr_interface.specs.State.{commit_refusal, withdraw_refusal};
ghost use Rattle.fr_interface.specs.State.{read_refusal, pop_refusal, fetch_refusal, observe_refusal, received_by};
ghost use Rattle.fr_journal.specs.declared.entry.Entry.TheVariants as entries;
ghost use Rattle.fr_journal.specs.Fate.{pending_commit};
ghost use Rattle.fr_journal.specs.Held.{IsReceivable, frame_of};
ghost use Rattle.fr_journal.specs.Offers.{frame_offered, bytes_of};
ghost use Rattle.fr_ledger.specs.Posts.{parts_for};
ghost use Rattle.fr_slots.specs.declared.channel.Channel.TheVariants as channel;

use crate::gate::{Actor, Gate, Side, pass};
use fr_frame::frame::Frame;
use fr_frame::payload::Payload;
use fr_interface::errors::{HostError, SlotError};
use fr_interface::interface::{Interface, Offer, Receipt};
use fr_ledger::books::{Book, Share, open_books, post};
use fr_slots::numbers::{NodeId, TaskId};
use fr_slots::window::Window;
use fr_status::seen::Seen;
use std::alloc::{AllocError, Global};
use std::marker::Model;
use std::sync::ledger::{Blank, Ledger};
use std::sync::{Mutex, Wait};

/// The handle with which a task makes its calls (project-defined).
///
/// It has the task's number, and its share of the commits, which counts the accepted ones.
#[derive(Drop)]
pub struct TaskPass<L: Ledger> {
    task: TaskId,
    share: Share<L>,
}

impl<L: Ledger> Model for TaskPass<L> {
    ghost use Rattle.fr_desks.specs.Passes.{Pass};

    ghost Value = { Pass };

    ghost view = { λ p. record { task = p.task; commits = p.share } };
}

impl<L: Ledger> TaskPass<L> {
    /// Returns the task that makes calls with this handle.
    pub fn task(&self) -> TaskId
        ensures { result ≡ self.now.task }
    {
        self.task
    }

    /// Returns the task's share of the commits, once the task has made all its calls.
    pub fn into_share(self) -> Share<L>
        ensures { result ≡ self.commits }
    {
        let TaskPass { task: _, share } = self;
        share
    }
}

/// The state behind a desk's lock.
///
/// The book counts the interface's commits, and the desk's own share counts none.
#[derive(Drop)]
struct Counted<L: Ledger> {
    interface: Interface,
    book: Book<L>,
    own: Share<L>,
    ghost counted: { book ≡ commits_of interface },
    ghost unused: { own ≡ 0 },
}

// The lock returns a value of which only the type is known. So the clauses about the value stand in these private
// functions.
impl<L: Ledger> Counted<L> {
    /// Makes the interface's commit. An accepted commit is posted with the share.
    fn commit(
        &mut self,
        task: TaskId,
        share: &mut Share<L>,
        buffer: u8,
        payload: &Payload,
    ) -> Result<Receipt, HostError>
        ensures refusal { result_err result ≡ commit_refusal self.old.interface task buffer payload.now }
        ensures receipt { IfOk result (λ r. r ≡ record { task = task; entry = length self.old.interface.entries }) }
        ensures accepted { OnOk result
            (self.new.interface ≡ with_entry self.old.interface (entries.Commit task buffer payload.now)) }
        ensures refused { OnErr result (self.new.interface ≡ self.old.interface) }
        ensures posted { OnOk result (share.new ≡ share.old + 1) }
        ensures unposted { OnErr result (share.new ≡ share.old) }
    {
        let Counted {
            interface,
            book,
            ..
        } = self;
        // For the prover: the clause of this call.
        let _entries = interface.journal().len();
        let receipt = interface.commit(task, buffer, payload)?;
        post(book, share);
        Ok(receipt)
    }

    /// Makes the interface's withdraw. It is no commit, so nothing is posted.
    fn withdraw(&mut self, task: TaskId, buffer: u8) -> Result<Option<u32>, HostError>
        ensures refusal { result_err result ≡ withdraw_refusal self.old.interface task buffer }
        ensures answer { IfOk result (λ of. of ≡ pending_commit buffer self.old.interface.entries) }
        ensures accepted { OnOk result
            (self.new.interface ≡ with_entry self.old.interface (withdraw_entry self.old.interface task buffer)) }
        ensures refused { OnErr result (self.new.interface ≡ self.old.interface) }
    {
        self.interface.withdraw(task, buffer)
    }

    /// Makes the interface's read.
    fn read(&mut self, task: TaskId, buffer: u8) -> Result<Option<Frame>, HostError>
        ensures refusal { result_err result ≡ read_refusal self.old.interface task buffer }
        ensures answer { IfOk result (λ frame. frame ≡ option_map frame_of (received_by self.old.interface buffer)) }
        ensures frames { IfOk result (λ frame. IfSome frame IsReceivable) }
        ensures accepted { OnOk result
            (self.new.interface ≡ with_entry self.old.interface (read_entry self.old.interface task buffer)) }
        ensures refused { OnErr result (self.new.interface ≡ self.old.interface) }
    {
        self.interface.read(task, buffer)
    }

    /// Makes the interface's pop.
    fn pop(&mut self, task: TaskId) -> Result<Option<Frame>, HostError>
        ensures refusal { result_err result ≡ pop_refusal self.old.interface task }
        ensures answer { IfOk result (λ frame. frame ≡ option_map frame_of (oldest_of self.old.interface)) }
        ensures frames { IfOk result (λ frame. IfSome frame IsReceivable) }
        ensures accepted { OnOk result
            (self.new.interface ≡ with_entry self.old.interface (pop_entry self.old.interface task)) }
        ensures refused { OnErr result (self.new.interface ≡ self.old.interface) }
    {
        self.interface.pop(task)
    }

    /// Makes the interface's fetch.
    fn fetch_into(&mut self, window: &Window, offer: &mut Offer) -> Result<(), SlotError>
        ensures refusal { result_err result ≡ fetch_refusal self.old.interface window.now }
        ensures bytes_a { OnOk result (offer.new.a ≡ bytes_of channel.A
            (frame_offered self.old.interface.params self.old.interface.plan self.old.interface.entries
            window.now channel.A)) }
        ensures bytes_b { OnOk result (offer.new.b ≡ bytes_of channel.B
            (frame_offered self.old.interface.params self.old.interface.plan self.old.interface.entries
            window.now channel.B)) }
        ensures accepted { OnOk result
            (self.new.interface ≡ with_entry self.old.interface (fetch_entry self.old.interface window.now)) }
        ensures refused { OnErr result (self.new.interface ≡ self.old.interface) }
        ensures kept { OnErr result (offer.new ≡ offer.old) }
    {
        self.interface.fetch_into(window, offer)
    }

    /// Makes the interface's observe.
    fn observe(&mut self, number: u32, a: &Seen, b: &Seen) -> Result<(), SlotError>
        ensures refusal { result_err result ≡ observe_refusal self.old.interface number }
        ensures accepted { OnOk result
            (self.new.interface ≡ with_entry self.old.interface (entries.Observe number a.now b.now)) }
        ensures refused { OnErr result (self.new.interface ≡ self.old.interface) }
    {
        self.interface.observe(number, a, b)
    }
}

/// A node's host interface behind a lock, for its tasks and its controller (project-defined).
///
/// When the lock is free, the interface is legal, and a book beside it counts its commits. The journal of the interface
/// that `close` returns has the calls in their order.
#[derive(Drop)]
pub struct Desk<L: Ledger> {
    node: NodeId,
    lock: Mutex<Counted<L>>,
}

impl<L: Ledger> Desk<L> {
    /// Returns the desk of a node over its interface, and a handle for each task, in their order.
    ///
    /// The journal of the interface is empty. The blank is the ledger's, cut into a part for the desk and one for each
    /// task. The desk's calls pass a gate under the name of this node. Fails if an allocation fails; the interface is
    /// then lost.
    pub fn open(
        alloc: Global,
        blank: Blank,
        node: NodeId,
        interface: Interface,
    ) -> Result<(Desk<L>, Vec<TaskPass<L>>), AllocError>
        requires name { blank.name ≡ L.name }
        requires parts { blank.parts ≡ L.parts }
        requires one_each { blank.parts ≡ parts_for interface.plan.tasks }
        requires fresh { interface.entries ≡ [] }
        ensures len { IfOk result (λ opened. vec_len opened.1 ≡ interface.plan.tasks) }
        ensures tasks { IfOk result
            (λ opened. (k : ℕ) (p : Pass) → slice_get opened.1.items k ≡ Some p → p.task ≡ k) }
        ensures unused { IfOk result (λ opened. All (λ p. p.commits ≡ 0) opened.1.items) }
    {
        let tasks = interface.plan().tasks();
        let mut passes = Vec::with_capacity(alloc, usize::from(tasks))?;
        let (book, own, mut shares) = open_books::<L>(alloc, blank, tasks)?;
        for number in 0..tasks {
            let Some(share) = shares.pop() else {
                unreachable!()
            };
            let task = TaskId::from_number(number);
            passes.push_reserved(TaskPass { task, share });
        }
        let desk = Desk {
            node,
            lock: Mutex::new(Counted {
                interface,
                book,
                own,
            }),
        };
        Ok((desk, passes))
    }

    /// Makes the interface's commit for the handle's task. The handle counts an accepted commit.
    ///
    /// It is refused as the interface's commit is.
    pub fn commit<R: Wait, G: Gate>(
        &self,
        rt: &R,
        gate: &G,
        me: &mut TaskPass<L>,
        buffer: u8,
        payload: &Payload,
    ) -> Result<Receipt, HostError>
        ensures ok { OnOk result (me.new.commits ≡ me.old.commits + 1) }
        ensures err { OnErr result (me.new.commits ≡ me.old.commits) }
        ensures task { me.new.task ≡ me.old.task }
        ensures receipt { IfOk result (λ r. r.task ≡ me.old.task) }
    {
        pass(gate, Actor::Task(self.node, me.task), Side::Before);
        let mut counted = self.lock.lock(rt);
        pass(gate, Actor::Task(self.node, me.task), Side::Inside);
        let answer = counted.commit(me.task, &mut me.share, buffer, payload);
        drop(counted);
        pass(gate, Actor::Task(self.node, me.task), Side::After);
        answer
    }

    /// Makes the interface's withdraw for the handle's task. Returns the number of the withdrawn commit, or none.
    ///
    /// It is refused as the interface's withdraw is. The handle still counts the commit, which is withdrawn and not
    /// undone.
    pub fn withdraw<R: Wait, G: Gate>(
        &self,
        rt: &R,
        gate: &G,
        me: &mut TaskPass<L>,
        buffer: u8,
    ) -> Result<Option<u32>, HostError>
        ensures same { me.new ≡ me.old }
    {
        pass(gate, Actor::Task(self.node, me.task), Side::Before);
        let mut counted = self.lock.lock(rt);
        pass(gate, Actor::Task(self.node, me.task), Side::Inside);
        let answer = counted.withdraw(me.task, buffer);
        drop(counted);
        pass(gate, Actor::Task(self.node, me.task), Side::After);
        answer
    }

    /// Makes the interface's read for the handle's task.
    ///
    /// It is refused as the interface's read is. A returned frame has its data flag, and an ID of 1 to 2047.
    pub fn read<R: Wait, G: Gate>(
        &self,
        rt: &R,
        gate: &G,
        me: &mut TaskPass<L>,
        buffer: u8,
    ) -> Result<Option<Frame>, HostError>
        ensures frames { IfOk result (λ frame. IfSome frame IsReceivable) }
        ensures same { me.new ≡ me.old }
    {
        pass(gate, Actor::Task(self.node, me.task), Side::Before);
        let mut counted = self.lock.lock(rt);
        pass(gate, Actor::Task(self.node, me.task), Side::Inside);
        let answer = counted.read(me.task, buffer);
        drop(counted);
        pass(gate, Actor::Task(self.node, me.task), Side::After);
        answer
    }

    /// Makes the interface's pop for the handle's task.
    ///
    /// It is refused as the interface's pop is. A returned frame has its data flag, and an ID of 1 to 2047.
    pub fn pop<R: Wait, G: Gate>(
        &self,
        rt: &R,
        gate: &G,
        me: &mut TaskPass<L>,
    ) -> Result<Option<Frame>, HostError>
        ensures frames { IfOk result (λ frame. IfSome frame IsReceivable) }
        ensures same { me.new ≡ me.old }
    {
        pass(gate, Actor::Task(self.node, me.task), Side::Before);
        let mut counted = self.lock.lock(rt);
        pass(gate, Actor::Task(self.node, me.task), Side::Inside);
        let answer = counted.pop(me.task);
        drop(counted);
        pass(gate, Actor::Task(self.node, me.task), Side::After);
        answer
    }

    /// Makes the interface's fetch for the node's controller. It is refused as the interface's fetch is.
    pub fn fetch<R: Wait, G: Gate>(
        &self,
        rt: &R,
        gate: &G,
        window: &Window,
    ) -> Result<Offer, SlotError> {
        let mut offer = Offer { a: None, b: None };
        self.fetch_into(rt, gate, window, &mut offer)?;
        Ok(offer)
    }

    /// Makes the same fetch into an existing offer, which stays unchanged if the fetch is refused.
    pub fn fetch_into<R: Wait, G: Gate>(
        &self,
        rt: &R,
        gate: &G,
        window: &Window,
        offer: &mut Offer,
    ) -> Result<(), SlotError>
        ensures kept { OnErr result (offer.new ≡ offer.old) }
    {
        pass(gate, Actor::Controller(self.node), Side::Before);
        let mut counted = self.lock.lock(rt);
        pass(gate, Actor::Controller(self.node), Side::Inside);
        let answer = counted.fetch_into(window, offer);
        drop(counted);
        pass(gate, Actor::Controller(self.node), Side::After);
        answer
    }

    /// Makes the interface's observe for the node's controller. It is refused as the interface's observe is.
    pub fn observe<R: Wait, G: Gate>(
        &self,
        rt: &R,
        gate: &G,
        number: u32,
        a: &Seen,
        b: &Seen,
    ) -> Result<(), SlotError> {
        pass(gate, Actor::Controller(self.node), Side::Before);
        let mut counted = self.lock.lock(rt);
        pass(gate, Actor::Controller(self.node), Side::Inside);
        let answer = counted.observe(number, a, b);
        drop(counted);
        pass(gate, Actor::Controller(self.node), Side::After);
        answer
    }

    /// Returns the interface, the book of its commits and the desk's own share, which counts none.
    ///
    /// Each commit was sent, overwritten or withdrawn, or is pending.
    pub fn close(self) -> (Interface, Book<L>, Share<L>)
        ensures counted { result.1 ≡ commits_of result.0 }
        ensures unused { result.2 ≡ 0 }
        ensures accounted { AreAccounted result.0 }
    {
        let Desk { node: _, lock } = self;
        let Counted {
            interface,
            book,
            own,
        } = lock.into_inner();
        // For the prover: the clause of this call.
        let _journal = interface.journal();
        (interface, book, own)
    }
}
