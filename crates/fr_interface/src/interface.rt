//! The calls of a host interface (chapter 9).

ghost use Rattle.std.specs.Prelude.{◌≡◌, option_map};
ghost use Rattle.fr_journal.specs.Held.{frame_of, origin_of};
ghost use Rattle.fr_journal.specs.Entries.{AreBytes, IsOrigin, IsSeen};
ghost use Rattle.fr_frame.specs.Payload.{IsPayload};
ghost use Rattle.fr_interface.specs.State.{is_not_above, has_words};
ghost use Rattle.fr_slots.specs.Windows.{IsInRange, IsSlotOrNone};

use crate::call::{Answer, Call};
use crate::errors::{HostError, InterfaceError, SlotError};
use crate::handing::{FirstEntries, bytes_in_entry};
use crate::naming::frame_named;
use crate::offers::Outgoing;
use crate::sight::{Sight, push_sights};
use crate::source::Source;
use crate::state::InterfaceState;
use fr_frame::frame::{Bytes, Frame};
use fr_frame::payload::Payload;
use fr_journal::entry::{Arrival, Entry, Offered, Origin};
use fr_journal::fate::Tally;
use fr_journal::history::History;
use fr_journal::journal::Journal;
use fr_past::past::Past;
use fr_slots::channel::Channel;
use fr_slots::numbers::{SlotId, TaskId};
use fr_slots::params::Params;
use fr_slots::plan::{Buffer, NodePlan};
use fr_slots::window::Window;
use fr_status::counters::Counters;
use fr_status::seen::Seen;
use std::alloc::Global;
use std::marker::Model;

/// The frames that a fetch hands to the bus: the bytes of a frame for each channel, or nothing.
#[derive(Drop, PartialEq, Eq)]
pub struct Offer {
    /// The bytes for channel A.
    pub a: Option<Bytes>,
    /// The bytes for channel B.
    pub b: Option<Bytes>,
}

/// The entry of a commit in the journal, and its task (project-defined).
#[derive(Clone, Copy, PartialEq, Eq)]
pub struct Receipt {
    /// The task that made the commit.
    pub task: TaskId,
    /// The number of the entry, from 0.
    pub entry: u32,
}

/// The interface between the tasks of a host and a controller, with a history of this kind: [`Interface`] keeps its
/// calls in a journal, and [`LiveInterface`] keeps none of them.
///
/// In contracts both have the same state, with all accepted calls, and the same clauses.
#[derive(Drop)]
pub struct Chi<H: History> {
    state: InterfaceState,
    history: H,
}

impl<H: History> Model for Chi<H> {
    ghost use Rattle.fr_interface.specs.State.{State};

    ghost Value = { State };

    ghost use Rattle.fr_interface.specs.InterfaceFields.{state_in, IsLawful};

    ghost view = { λ c. state_in c.state (H.told c.history) };

    ghost invariant = { λ c. IsLawful c.state (H.told c.history) (H.limits c.history) };
}

/// An interface with a journal, which has an entry for each accepted call.
pub type Interface = Chi<Journal>;

/// An interface whose history only contracts see, so that it needs the same memory for any number of calls
/// (project-defined).
pub type LiveInterface = Chi<Past<Entry>>;

impl Chi<Journal> {
    ghost use Rattle.std.specs.Prelude.{◌≡◌, [], None, IfOk};
    ghost use Rattle.fr_journal.specs.Held.{frame_named};
    ghost use Rattle.fr_interface.specs.Handing.{bytes_handed};
    ghost use Rattle.fr_interface.specs.State.{IsLegalInterface};
    ghost use Rattle.fr_slots.specs.Faults.{plan_fault};
    ghost use Rattle.fr_slots.specs.Plans.{IsNodePlan};

    /// Returns an interface with an empty journal, and reserves all the room that the plan asks for.
    ///
    /// The plan must have no fault by `NodePlan::fault` for the parameters. Fails only with `Memory`.
    pub fn new(alloc: Global, params: &Params, plan: &NodePlan) -> Result<Interface, InterfaceError>
        requires { plan_fault params.now plan.now ≡ None }
        ensures { IfOk result (λ i. i ≡ record { params = params.now; plan = plan.now; entries = [] }) }
    {
        // All memory is allocated here, so no later call needs an allocator.
        let host = u32::from(plan.host_entries());
        let journal = Journal::with_limits(alloc, host, plan.slot_entries())?;
        let state = InterfaceState::new(alloc, params, plan, host, plan.slot_entries())?;
        Ok(Chi {
            state,
            history: journal,
        })
    }

    /// Returns the valid data frame of the origin, an observe and its channel (chapter 9). Returns none if that entry
    /// isn't an observe, or had no such frame there.
    pub fn frame_at(&self, origin: Origin) -> Option<Frame>
        ensures { result ≡ frame_named self.now.params self.now.entries origin }
    {
        frame_named(self.state.params(), &self.history, origin)
    }

    /// Returns the bytes that the fetch of this entry handed to the bus on the channel (chapters 5 and 9). Returns none
    /// if it handed nothing out there, and if that entry isn't a fetch.
    pub fn handed_at(&self, entry: u32, channel: Channel) -> Option<Bytes>
        ensures { result ≡ bytes_handed self.now entry channel }
    {
        let told = self.history.get(entry)?;
        let first = FirstEntries {
            journal: &self.history,
            count: entry,
        };
        bytes_in_entry(
            self.state.params(),
            self.state.plan(),
            &first,
            channel,
            &told,
        )
    }

    /// Returns the journal, which has an entry for each accepted call.
    pub fn journal(&self) -> &Journal
        ensures entries { result.now.entries ≡ self.now.entries }
        ensures limits { (result.now.host_limit ≡ self.now.plan.host_entries)
            × (result.now.slot_limit ≡ self.now.plan.slot_entries) }
        ensures legal { IsLegalInterface self.now }
    {
        &self.history
    }

    /// Returns the plan of the node.
    pub fn plan(&self) -> &NodePlan
        ensures value { result.now ≡ self.now.plan }
        ensures legal { IsLegalInterface self.now }
        ensures node { IsNodePlan self.now.plan }
    {
        self.state.plan().as_plan()
    }
}

impl Chi<Past<Entry>> {
    ghost use Rattle.std.specs.Prelude.{◌≡◌, ◌≤◌, [], None, IfOk};
    ghost use Rattle.fr_slots.specs.Faults.{plan_fault};
    ghost use Rattle.fr_slots.specs.Numbers.{last_host_limit, last_slot_limit};
    ghost use Rattle.fr_slots.specs.Plans.{IsNodePlan, with_limits};

    /// Returns an interface without entries, with room for so many of the host and of the controller
    /// (project-defined). The room that the plan gives doesn't count.
    ///
    /// The plan must have no fault by `NodePlan::fault` for the parameters. There must be room for 1 to 1,073,741,824
    /// entries of the host and for 2 to 3,221,225,469 of the controller. Fails only with `Memory`.
    pub fn new(
        alloc: Global,
        params: &Params,
        plan: &NodePlan,
        host_entries: u32,
        slot_entries: u32,
    ) -> Result<LiveInterface, InterfaceError>
        requires faultless { plan_fault params.now plan.now ≡ None }
        requires host { (1 ≤ host_entries) × (host_entries ≤ last_host_limit) }
        requires slot { (2 ≤ slot_entries) × (slot_entries ≤ last_slot_limit) }
        ensures { IfOk result (λ i. i ≡ record {
          params = params.now;
          plan = with_limits plan.now host_entries slot_entries;
          entries = [];
        }) }
    {
        // For the prover: the clause of this call.
        let _entries = plan.slot_entries();
        let state = InterfaceState::new(alloc, params, plan, host_entries, slot_entries)?;
        Ok(Chi {
            state,
            history: Past::new(),
        })
    }

    /// Returns the plan of the node, with its own room.
    pub fn plan(&self) -> &NodePlan
        ensures value { with_limits result.now self.now.plan.host_entries self.now.plan.slot_entries ≡ self.now.plan }
        ensures node { IsNodePlan result.now }
    {
        self.state.plan().as_plan()
    }
}

impl<H: History> Chi<H> {
    ghost use Rattle.std.specs.Prelude.{◌≡◌, ◌+◌, ◌≤◌, length, IfOk, IfSome, OnOk, OnErr, option_map};
    ghost use Rattle.std.specs.Result.{result_err};
    ghost use Rattle.fr_journal.specs.declared.entry.Entry.TheVariants as entries;
    ghost use Rattle.fr_journal.specs.Counts.{counters_of};
    ghost use Rattle.fr_journal.specs.Held.{frame_of, origin_of, IsReceivable};
    ghost use Rattle.fr_journal.specs.Entries.{IsOffered};
    ghost use Rattle.fr_journal.specs.Offers.{offered, frame_offered, IsHandedOut, bytes_of};
    ghost use Rattle.fr_interface.specs.Calls.{call_refusal, call_answer, call_entry};
    ghost use Rattle.fr_interface.specs.Sending.{outgoing_in, OffersNothing};
    ghost use Rattle.fr_interface.specs.Sights.{seen_in};
    ghost use Rattle.fr_interface.specs.State.{with_entry, withdraw_entry, read_entry, pop_entry, fetch_entry};
    ghost use Rattle.fr_interface.specs.State.{withdraw_refusal};
    ghost use Rattle.fr_journal.specs.Fate.{pending_commit};
    ghost use Rattle.fr_interface.specs.State.{received_by, source_of, tally_by, oldest_of, length_of, lost_of};
    ghost use Rattle.fr_interface.specs.State.{arrived_of, popped_of, queued_of, commit_refusal, read_refusal};
    ghost use Rattle.fr_interface.specs.State.{pop_refusal, fetch_refusal, observe_refusal, IsLegalInterface};

    /// Commits a payload to a transmit buffer for a task (chapter 9). The buffer then holds this commit in place of the
    /// one before, and sends it by its mode.
    ///
    /// Fails, in this order, with `UnknownTask`, `UnknownBuffer`, `NotTransmit` for a receive buffer, `WrongLength` if
    /// the payload doesn't have the length that `Buffer::words` gives, and `HostFull` if the journal has no room for
    /// the commit. The length is the cluster's in a static slot, and the buffer's own in a dynamic one.
    pub fn commit(
        &mut self,
        task: TaskId,
        buffer: u8,
        payload: &Payload,
    ) -> Result<Receipt, HostError>
        ensures refusal { result_err result ≡ commit_refusal self.old task buffer payload.now }
        ensures receipt { IfOk result (λ r. r ≡ record { task = task; entry = length self.old.entries }) }
        ensures accepted { OnOk result (self.new ≡ with_entry self.old (entries.Commit task buffer payload.now)) }
        ensures refused { OnErr result (self.new ≡ self.old) }
    {
        let entry = self.state.commit(task, buffer, payload)?;
        self.history.push_commit(task, buffer, payload);
        Ok(Receipt { task, entry })
    }

    /// Withdraws the last commit on a transmit buffer for a task, if it is pending (project-defined). Returns the
    /// number of that commit's entry, or none if no commit is pending.
    ///
    /// After a commit is withdrawn the buffer is empty: it offers nothing, and no earlier commit comes back. A commit
    /// that was sent stays. A withdraw without a pending commit is accepted, and is an entry too.
    ///
    /// Fails, in this order, with `UnknownTask`, `UnknownBuffer`, `NotTransmit` for a receive buffer, and `HostFull` if
    /// the journal has no room for the withdraw.
    pub fn withdraw(&mut self, task: TaskId, buffer: u8) -> Result<Option<u32>, HostError>
        ensures refusal { result_err result ≡ withdraw_refusal self.old task buffer }
        ensures answer { IfOk result (λ of. of ≡ pending_commit buffer self.old.entries) }
        ensures accepted { OnOk result (self.new ≡ with_entry self.old (withdraw_entry self.old task buffer)) }
        ensures refused { OnErr result (self.new ≡ self.old) }
    {
        let of = self.state.withdraw(task, buffer)?;
        self.history.push_host(Entry::Withdraw { task, buffer, of });
        Ok(of)
    }

    /// Reads a receive buffer for a task (chapter 9): the last valid data frame that it admitted, if any.
    ///
    /// Fails, in this order, with `UnknownTask`, `UnknownBuffer`, `NotReceive` for a transmit buffer, and `HostFull` if
    /// the journal has no room for the read.
    pub fn read(&mut self, task: TaskId, buffer: u8) -> Result<Option<Frame>, HostError>
        ensures refusal { result_err result ≡ read_refusal self.old task buffer }
        ensures answer { IfOk result (λ frame. frame ≡ option_map frame_of (received_by self.old buffer)) }
        ensures frames { IfOk result (λ frame. IfSome frame IsReceivable) }
        ensures accepted { OnOk result (self.new ≡ with_entry self.old (read_entry self.old task buffer)) }
        ensures refused { OnErr result (self.new ≡ self.old) }
    {
        Ok(frame_in(self.read_arrival(task, buffer)?))
    }

    /// Reads a receive buffer as `read` does, and returns its frame with the origin of the frame (chapter 9).
    ///
    /// Refused as `read` is.
    pub fn read_arrival(&mut self, task: TaskId, buffer: u8) -> Result<Option<Arrival>, HostError>
        ensures refusal { result_err result ≡ read_refusal self.old task buffer }
        ensures answer { IfOk result (λ a. a ≡ received_by self.old buffer) }
        ensures frames { IfOk result (λ a. IfSome (option_map frame_of a) IsReceivable) }
        ensures accepted { OnOk result (self.new ≡ with_entry self.old (read_entry self.old task buffer)) }
        ensures refused { OnErr result (self.new ≡ self.old) }
    {
        let held = self.state.read(task, buffer)?;
        let from = origin_in(&held);
        self.history.push_host(Entry::Read { task, buffer, from });
        Ok(held)
    }

    /// Pops the oldest frame of the receive FIFO for a task, if there is one (project-defined).
    ///
    /// Fails, in this order, with `UnknownTask`, `NoQueue` if the plan has no receive FIFO, and `HostFull` if the
    /// journal has no room for the pop. A pop of an empty receive FIFO is accepted, and is an entry too.
    pub fn pop(&mut self, task: TaskId) -> Result<Option<Frame>, HostError>
        ensures refusal { result_err result ≡ pop_refusal self.old task }
        ensures answer { IfOk result (λ frame. frame ≡ option_map frame_of (oldest_of self.old)) }
        ensures frames { IfOk result (λ frame. IfSome frame IsReceivable) }
        ensures accepted { OnOk result (self.new ≡ with_entry self.old (pop_entry self.old task)) }
        ensures refused { OnErr result (self.new ≡ self.old) }
    {
        Ok(frame_in(self.pop_arrival(task)?))
    }

    /// Takes the oldest frame of the receive FIFO as `pop` does, and returns it with its origin (project-defined).
    ///
    /// Refused as `pop` is.
    pub fn pop_arrival(&mut self, task: TaskId) -> Result<Option<Arrival>, HostError>
        ensures refusal { result_err result ≡ pop_refusal self.old task }
        ensures answer { IfOk result (λ a. a ≡ oldest_of self.old) }
        ensures frames { IfOk result (λ a. IfSome (option_map frame_of a) IsReceivable) }
        ensures accepted { OnOk result (self.new ≡ with_entry self.old (pop_entry self.old task)) }
        ensures refused { OnErr result (self.new ≡ self.old) }
    {
        let oldest = self.state.pop(task)?;
        let from = origin_in(&oldest);
        self.history.push_host(Entry::Pop { task, from });
        Ok(oldest)
    }

    /// Makes a call for a task, as `commit`, `withdraw`, `read` or `pop` does, and returns its answer with the origin
    /// of a frame (chapter 9). Refused as those are.
    pub fn call(&mut self, task: TaskId, call: &Call) -> Result<Answer, HostError>
        ensures refusal { result_err result ≡ call_refusal self.old task call.now }
        ensures answer { IfOk result (λ a. a ≡ call_answer self.old task call.now) }
        ensures accepted { OnOk result (self.new ≡ with_entry self.old (call_entry self.old task call.now)) }
        ensures refused { OnErr result (self.new ≡ self.old) }
    {
        match call {
            Call::Commit { buffer, payload } => {
                let receipt = self.commit(task, *buffer, payload)?;
                Ok(Answer::Committed(receipt))
            }
            Call::Withdraw { buffer } => {
                let of = self.withdraw(task, *buffer)?;
                Ok(Answer::Withdrawn(of))
            }
            Call::Read { buffer } => {
                let arrival = self.read_arrival(task, *buffer)?;
                Ok(Answer::Frame(arrival))
            }
            Call::Pop => {
                let arrival = self.pop_arrival(task)?;
                Ok(Answer::Frame(arrival))
            }
        }
    }

    /// Opens a window, and returns the node's frames in it (chapters 5 and 9). On each channel, the frame is the data
    /// frame of the transmit buffer that admits the slot, if it offers a commit. Otherwise it is a null frame in a
    /// static slot that the node owns in the window's cycle. Otherwise there is none.
    ///
    /// Fails, in this order:
    ///
    /// - `NotObserved`: a fetched window is open,
    /// - `BadWindow`: the parameters don't have the window,
    /// - `WindowOrder`: its number isn't above that of the window before,
    /// - `SlotFull`: the journal has room for fewer than two further slot entries.
    pub fn fetch(&mut self, window: &Window) -> Result<Offer, SlotError>
        ensures refusal { result_err result ≡ fetch_refusal self.old window.now }
        ensures offer_a { IfOk result (λ o. IsHandedOut Channel.A
            (frame_offered self.old.params self.old.plan self.old.entries window.now Channel.A) o.a) }
        ensures offer_b { IfOk result (λ o. IsHandedOut Channel.B
            (frame_offered self.old.params self.old.plan self.old.entries window.now Channel.B) o.b) }
        ensures bytes_a { IfOk result (λ o. o.a ≡ bytes_of Channel.A
            (frame_offered self.old.params self.old.plan self.old.entries window.now Channel.A)) }
        ensures bytes_b { IfOk result (λ o. o.b ≡ bytes_of Channel.B
            (frame_offered self.old.params self.old.plan self.old.entries window.now Channel.B)) }
        ensures accepted { OnOk result (self.new ≡ with_entry self.old (fetch_entry self.old window.now)) }
        ensures refused { OnErr result (self.new ≡ self.old) }
    {
        let mut offer = Offer { a: None, b: None };
        self.fetch_into(window, &mut offer)?;
        Ok(offer)
    }

    /// Opens a window as `fetch` does, and writes the node's frames to `offer`. Bytes are written over the old ones, so
    /// that no room for frames is moved (project-defined).
    ///
    /// Fails as `fetch` does, with `NotObserved`, `BadWindow`, `WindowOrder` and `SlotFull` in this order. A refusal
    /// leaves the offer unchanged.
    pub fn fetch_into(&mut self, window: &Window, offer: &mut Offer) -> Result<(), SlotError>
        ensures refusal { result_err result ≡ fetch_refusal self.old window.now }
        ensures offer_a { OnOk result (IsHandedOut Channel.A
            (frame_offered self.old.params self.old.plan self.old.entries window.now Channel.A) offer.new.a) }
        ensures offer_b { OnOk result (IsHandedOut Channel.B
            (frame_offered self.old.params self.old.plan self.old.entries window.now Channel.B) offer.new.b) }
        ensures bytes_a { OnOk result (offer.new.a ≡ bytes_of Channel.A
            (frame_offered self.old.params self.old.plan self.old.entries window.now Channel.A)) }
        ensures bytes_b { OnOk result (offer.new.b ≡ bytes_of Channel.B
            (frame_offered self.old.params self.old.plan self.old.entries window.now Channel.B)) }
        ensures accepted { OnOk result (self.new ≡ with_entry self.old (fetch_entry self.old window.now)) }
        ensures refused { OnErr result (self.new ≡ self.old) }
        ensures kept { OnErr result (offer.new ≡ offer.old) }
    {
        // Without this call and `take_into` of the bus the run of the car takes a fifth longer.
        self.check_fetch(window)?;
        // Most nodes have no line for the slots of most windows.
        if self.state.is_idle(window) {
            let no_a = self.no_offer(window, Channel::A);
            let no_b = self.no_offer(window, Channel::B);
            self.fetch_offers(window, &no_a, &no_b, offer);
            return Ok(());
        }
        let on_a = self.outgoing_on(window, Channel::A);
        let on_b = self.outgoing_on(window, Channel::B);
        self.fetch_offers(window, &on_a, &on_b, offer);
        Ok(())
    }

    /// Fetches a window that isn't refused, with these frames on channels A and B, and writes them to `offer`.
    #[inline(always)]
    fn fetch_offers(&mut self, window: &Window, a: &Outgoing, b: &Outgoing, offer: &mut Offer)
        requires accepted { fetch_refusal self.old window.now ≡ None }
        requires outgoing_a { a.now ≡ outgoing_in self.old window.now Channel.A }
        requires outgoing_b { b.now ≡ outgoing_in self.old window.now Channel.B }
        requires fits_a { IsOffered a.now.offered }
        requires fits_b { IsOffered b.now.offered }
        ensures offer_a { IsHandedOut Channel.A
            (frame_offered self.old.params self.old.plan self.old.entries window.now Channel.A) offer.new.a }
        ensures offer_b { IsHandedOut Channel.B
            (frame_offered self.old.params self.old.plan self.old.entries window.now Channel.B) offer.new.b }
        ensures bytes_a { offer.new.a ≡ bytes_of Channel.A
            (frame_offered self.old.params self.old.plan self.old.entries window.now Channel.A) }
        ensures bytes_b { offer.new.b ≡ bytes_of Channel.B
            (frame_offered self.old.params self.old.plan self.old.entries window.now Channel.B) }
        ensures after { self.new ≡ with_entry self.old (fetch_entry self.old window.now) }
    {
        self.hand_out(window, Channel::A, a, &mut offer.a);
        self.hand_out(window, Channel::B, b, &mut offer.b);
        self.push_fetch(window, a, b);
    }

    /// Opens a window as `fetch` does, and returns the node's offers on channel A and on channel B. They are the offers
    /// in the entry. No frame is encoded, so this is the call for an audit, which has no bus (project-defined).
    ///
    /// Fails as `fetch` does, with `NotObserved`, `BadWindow`, `WindowOrder` and `SlotFull` in this order.
    pub fn fetch_offered(&mut self, window: &Window) -> Result<(Offered, Offered), SlotError>
        ensures refusal { result_err result ≡ fetch_refusal self.old window.now }
        ensures offered_a { IfOk result (λ o.
            o.0 ≡ offered self.old.plan self.old.entries window.now Channel.A) }
        ensures offered_b { IfOk result (λ o.
            o.1 ≡ offered self.old.plan self.old.entries window.now Channel.B) }
        ensures accepted { OnOk result (self.new ≡ with_entry self.old (fetch_entry self.old window.now)) }
        ensures refused { OnErr result (self.new ≡ self.old) }
    {
        self.check_fetch(window)?;
        let a = self.outgoing_on(window, Channel::A);
        let b = self.outgoing_on(window, Channel::B);
        self.push_fetch(window, &a, &b);
        Ok((a.offered, b.offered))
    }

    /// Fails if `fetch` refuses the window.
    fn check_fetch(&self, window: &Window) -> Result<(), SlotError>
        ensures { result_err result ≡ fetch_refusal self.now window.now }
    {
        self.state.check_fetch(window)
    }

    /// Returns the node's frame on the channel of a window for which the plan has no line.
    #[inline(always)]
    fn no_offer(&self, window: &Window, channel: Channel) -> Outgoing
        requires { OffersNothing self.now.plan window.now channel }
        ensures value { result ≡ outgoing_in self.now window.now channel }
        ensures fits { IsOffered result.offered }
    {
        self.state.no_offer(window, channel)
    }

    /// Returns the node's frame on the channel, once the window is fetched.
    #[inline(always)]
    fn outgoing_on(&self, window: &Window, channel: Channel) -> Outgoing
        ensures value { result ≡ outgoing_in self.now window.now channel }
        ensures offered { result.offered ≡ offered self.now.plan self.now.entries window.now channel }
        ensures fits { IsOffered result.offered }
    {
        self.state.outgoing_on(window, channel)
    }

    /// Writes the bytes of the node's frame on the channel over the old ones.
    #[inline(always)]
    fn hand_out(
        &self,
        window: &Window,
        channel: Channel,
        outgoing: &Outgoing,
        bytes: &mut Option<Bytes>,
    )
        requires { outgoing.now ≡ outgoing_in self.now window.now channel }
        ensures spelled { IsHandedOut channel
            (frame_offered self.now.params self.now.plan self.now.entries window.now channel) bytes.new }
        ensures bytes { bytes.new ≡ bytes_of channel
            (frame_offered self.now.params self.now.plan self.now.entries window.now channel) }
    {
        self.state.hand_out(window, channel, outgoing, bytes)
    }

    /// Appends the fetch of a window that isn't refused, with these frames on channels A and B.
    #[inline(always)]
    fn push_fetch(&mut self, window: &Window, a: &Outgoing, b: &Outgoing)
        requires accepted { fetch_refusal self.old window.now ≡ None }
        requires outgoing_a { a.now ≡ outgoing_in self.old window.now Channel.A }
        requires outgoing_b { b.now ≡ outgoing_in self.old window.now Channel.B }
        requires fits_a { IsOffered a.now.offered }
        requires fits_b { IsOffered b.now.offered }
        ensures { self.new ≡ with_entry self.old (fetch_entry self.old window.now) }
    {
        self.state.fetch(window, a, b);
        self.history.push_slot(Entry::Fetch {
            window: *window,
            a: a.offered,
            b: b.offered,
        });
    }

    /// Closes the window of this number, with the observations on channels A and B (chapter 9). There is always room
    /// for its entry.
    ///
    /// Fails with `NotFetched` if no window is open, then with `WrongWindow` if another one is.
    pub fn observe(&mut self, number: u32, a: &Seen, b: &Seen) -> Result<(), SlotError>
        ensures refusal { result_err result ≡ observe_refusal self.old number }
        ensures accepted { OnOk result (self.new ≡ with_entry self.old (entries.Observe number a.now b.now)) }
        ensures refused { OnErr result (self.new ≡ self.old) }
    {
        self.state.observe(number, a, b)?;
        self.history.push_observe(number, a, b);
        Ok(())
    }

    /// Fails if `observe` refuses the window of this number (project-defined).
    pub fn check_observe(&self, number: u32) -> Result<(), SlotError>
        ensures { result_err result ≡ observe_refusal self.now number }
    {
        self.state.check_observe(number)
    }

    /// Closes the window of this number as `observe` does, with observations that several nodes share
    /// (project-defined). What was judged for this window isn't judged again.
    ///
    /// Fails as `observe` does, with `NotFetched` and `WrongWindow` in this order.
    pub fn observe_sights(
        &mut self,
        number: u32,
        a: &Sight<'_>,
        b: &Sight<'_>,
    ) -> Result<(), SlotError>
        ensures refusal { result_err result ≡ observe_refusal self.old number }
        ensures accepted { OnOk result
            (self.new ≡ with_entry self.old (entries.Observe number (seen_in a.now) (seen_in b.now))) }
        ensures refused { OnErr result (self.new ≡ self.old) }
    {
        self.state.observe_sights(number, a, b)?;
        push_sights(&mut self.history, number, a, b);
        Ok(())
    }

    /// Returns the source of the buffer's content (chapter 9). Returns none for an empty buffer, and for one that the
    /// plan doesn't have.
    pub fn held(&self, buffer: u8) -> Option<Source>
        ensures { result ≡ source_of self.now buffer }
    {
        self.state.held(buffer)
    }

    /// Returns the tally of the commits on a transmit buffer (project-defined). Returns none for a receive buffer, and
    /// for one that the plan doesn't have.
    pub fn tally(&self, buffer: u8) -> Option<Tally>
        ensures value { result ≡ tally_by self.now buffer }
        // Each commit has one fate, and at most one commit is pending.
        ensures fates { IfSome result (λ t. t.committed ≡ t.sent + t.overwritten + t.pending + t.withdrawn) }
        ensures one_pending { IfSome result (λ t. t.pending ≤ 1) }
    {
        self.state.tally(buffer)
    }

    /// Returns the frame in a receive buffer, with its origin (chapter 9). Returns none for an empty buffer, for a
    /// transmit buffer, and for one that the plan doesn't have.
    pub fn received(&self, buffer: u8) -> Option<Arrival>
        ensures { result ≡ received_by self.now buffer }
    {
        // This is the answer of `read` without an entry, since a report must not change the journal.
        self.state.received(buffer)
    }

    /// Returns the oldest frame of the receive FIFO, with its origin (project-defined): the frame that the next `pop`
    /// takes. Returns none for an empty FIFO, and for a plan without one.
    pub fn oldest(&self) -> Option<Arrival>
        ensures { result ≡ oldest_of self.now }
    {
        self.state.oldest()
    }

    /// Returns the number of frames in the receive FIFO, at most its capacity (project-defined). Returns none if the
    /// plan has no receive FIFO.
    pub fn queue_len(&self) -> Option<u32>
        ensures value { result ≡ length_of self.now }
        ensures within { IfSome result (λ n. IfSome self.now.plan.queue (λ q. n ≤ q.capacity)) }
    {
        self.state.queue_len()
    }

    /// Returns the number of frames that the receive FIFO lost to newer ones (project-defined). Returns none if the
    /// plan has no receive FIFO.
    pub fn queue_lost(&self) -> Option<u32>
        ensures value { result ≡ lost_of self.now }
        // Each frame that arrived was popped, is still there, or was lost.
        ensures balance { IfSome result (λ lost. IfSome self.now.plan.queue
            (λ q. arrived_of self.now q ≡ popped_of self.now + queued_of self.now q + lost)) }
    {
        self.state.queue_lost()
    }

    /// Returns the number of observed windows with each bit of the slot status, by channel (chapter 6). A channel
    /// without a slot counts nothing.
    pub fn counters(&self) -> Counters
        ensures { result ≡ counters_of self.now.params self.now.entries }
    {
        self.state.counters()
    }

    /// Returns the number of entries.
    pub fn entries(&self) -> u32
        ensures { result ≡ length self.now.entries }
    {
        self.state.entries()
    }

    /// Returns the buffers of the plan, in the order of their numbers.
    pub fn buffers(&self) -> &[Buffer]
        ensures value { result.now ≡ self.now.plan.buffers }
        ensures legal { IsLegalInterface self.now }
    {
        self.state.plan().as_plan().buffers()
    }

    /// Returns the parameters of the cluster.
    pub fn params(&self) -> &Params
        ensures value { result.now ≡ self.now.params }
        ensures legal { IsLegalInterface self.now }
    {
        self.state.params()
    }
}

// For the prover: `number` states the range of a slot.
/// Returns the number of a slot of a window.
fn slot_number(slot: Option<SlotId>) -> Option<u16>
    ensures { IsSlotOrNone slot }
{
    slot.map(|slot| slot.number())
}

// For the prover: the calls on its numbers state the ranges that an entry of the journal needs.
/// Returns a copy of the window.
pub(crate) fn kept_window(window: &Window) -> Window
    ensures value { result ≡ window.now }
    ensures fits { IsInRange window.now }
{
    // For the prover: the clauses of these calls.
    let _number = window.number;
    let _cycle = window.cycle.number();
    let _a = slot_number(window.a);
    let _b = slot_number(window.b);
    *window
}

/// Returns whether the payload has the words that the transmit buffer sends.
pub(crate) fn has_words(params: &Params, buffer: &Buffer, payload: &Payload) -> bool
    ensures { result ≡ has_words params.now buffer.now payload.now }
{
    payload.as_slice().len() == 2 * usize::from(buffer.words(params))
}

// For the prover: counting its bytes states that each is below 256.
/// Returns the payload.
pub(crate) fn kept_payload(payload: &Payload) -> &Payload
    ensures value { result.now ≡ payload.now }
    ensures is_payload { IsPayload payload.now }
    ensures bytes { AreBytes payload.now }
{
    // For the prover: the clause of this call.
    let _count = count_of(payload.as_slice());
    payload
}

// For the prover: a slice states that its bytes are below 256 only to a function that takes it.
/// Returns the number of bytes.
fn count_of(bytes: &[u8]) -> usize
    ensures { AreBytes bytes.now }
{
    bytes.len()
}

// For the prover: counting its bytes states that each is below 256.
/// Returns the observation.
pub(crate) fn seen_within(seen: &Seen) -> &Seen
    ensures value { result.now ≡ seen.now }
    ensures fits { IsSeen seen.now }
{
    if let Seen::Bytes(bytes) = seen {
        // For the prover: the clause of this call.
        let _count = count_of(bytes.as_slice());
    }
    seen
}

/// Returns the origin of a frame that arrived.
pub(crate) fn origin_in(arrival: &Option<Arrival>) -> Option<Origin>
    ensures value { result ≡ option_map origin_of arrival.now }
    ensures fits { IsOrigin result }
{
    arrival.as_ref().map(|arrival| arrival.origin)
}

/// Returns the frame that arrived.
fn frame_in(arrival: Option<Arrival>) -> Option<Frame>
    ensures { result ≡ option_map frame_of arrival }
{
    arrival.map(|arrival| arrival.frame)
}

/// Returns whether a window's number isn't above that of the last one.
pub(crate) fn is_not_above(number: u32, last: Option<u32>) -> bool
    ensures { result ≡ is_not_above number last }
{
    match last {
        Some(last) => number <= last,
        None => false,
    }
}
