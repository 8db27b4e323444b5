//! The data that an interface keeps for its calls, without the calls before.

ghost use Rattle.std.specs.Prelude.{◌≡◌, ◌+◌, ◌<◌, ◌^◌, if◌then◌else◌};
ghost use Rattle.fr_interface.specs.Standing.{IsHistory, ForEachHistory};
ghost use Rattle.fr_slots.specs.Windows.{opens_cycle};

use crate::call::{Answer, Call};
use crate::errors::{HostError, InterfaceError, SlotError};
use crate::index::IndexedPlan;
use crate::interface::{
    Offer, Receipt, has_words, is_not_above, kept_payload, kept_window, origin_in,
};
use crate::observed::{arrive_all, count_seen, quiet_status, store_all};
use crate::offers::{Outgoing, is_idle, outgoing_on, spelled_by};
use crate::opening::Opening;
use crate::receiving::{
    arrival_at, first_of, observed_at, pop_from, receive_buffers, receive_queue,
};
use crate::sending::{
    commit_at, commit_to, pending_at, send_from, tally_at, transmit_buffers, withdraw_from,
};
use crate::sight::{Sight, checks_in};
use crate::source::Source;
use fr_buffers::queue::ReceiveQueue;
use fr_buffers::receive::RxBuffer;
use fr_buffers::transmit::TxBuffer;
use fr_frame::frame::Bytes;
use fr_frame::payload::Payload;
use fr_journal::entry::{Arrival, Moment, Offered};
use fr_journal::fate::Tally;
use fr_slots::channel::Channel;
use fr_slots::numbers::TaskId;
use fr_slots::params::Params;
use fr_slots::plan::NodePlan;
use fr_slots::window::{Window, cycles_with};
use fr_status::counters::Counters;
use fr_status::seen::Seen;
use std::alloc::Global;
use std::marker::Model;

/// Returns the number of cycles that have begun once the window is fetched, as long as there is room for one more.
fn begun_with(cycles: u32, window: &Window) -> u32
    requires { cycles + 1 < 2 ^ 32 }
    ensures { result ≡ cycles + (if opens_cycle window.now then 1 else 0) }
{
    cycles_with(cycles, window)
}

// No call scans the journal. The results are kept here, and the invariant of `Interface` states that they are those of
// the journal. With a scan at each call, the audits of two traces took 21.5 s and 276 s; without scans they take less
// than 0.1 s.
/// The data that an interface keeps after some calls of a host and of a controller.
#[derive(Drop)]
pub struct InterfaceState {
    params: Params,
    plan: IndexedPlan,
    host_limit: u32,
    slot_limit: u32,
    hosts: u32,
    slots: u32,
    // The number of cycles that have begun.
    cycles: u32,
    opening: Opening,
    // Each buffer of the plan has an element in both lists, so its number is its index. A receive buffer has an empty
    // transmit buffer, and the other way round.
    transmit: Vec<TxBuffer>,
    receive: Vec<RxBuffer>,
    queue: Option<ReceiveQueue>,
    counters: Counters,
}

impl Model for InterfaceState {
    ghost use Rattle.fr_interface.specs.Standing.{Standing};

    ghost Value = { Standing };

    ghost use Rattle.fr_interface.specs.StateFields.{standing_in, HasHistory};

    ghost view = { standing_in };

    ghost invariant = { HasHistory };
}

impl InterfaceState {
    ghost use Rattle.std.specs.Prelude.{◌≡◌, ◌+◌, ◌^◌, ◌≤◌, ◌<◌, [], None, length, count_by, IfOk, IfSome, OnOk, true};
    ghost use Rattle.std.specs.Prelude.{IsSome, OnErr, Some, option_map, slice_get};
    ghost use Rattle.std.specs.Result.{result_err};
    ghost use Rattle.fr_journal.specs.declared.entry.Entry.TheVariants as entries;
    ghost use Rattle.fr_journal.specs.Entries.{is_host, is_slot, IsOffered};
    ghost use Rattle.fr_interface.specs.State.{with_entry, withdraw_entry, read_entry, pop_entry, fetch_entry};
    ghost use Rattle.fr_interface.specs.State.{received_by};
    ghost use Rattle.fr_interface.specs.Standing.{after_commit, after_read, after_fetch, after_observe, commit_refused};
    ghost use Rattle.fr_interface.specs.Standing.{read_refused, fetch_refused, observe_refused, entries_before};
    ghost use Rattle.fr_interface.specs.Standing.{moment_before};
    ghost use Rattle.fr_interface.specs.Standing.{withdraw_refused, pop_refused, oldest_at, source_at, tally_at};
    ghost use Rattle.fr_interface.specs.Standing.{received_at, KeepsTerms};
    ghost use Rattle.fr_slots.specs.Plans.{buffer_at, with_limits};
    ghost use Rattle.fr_interface.specs.Sending.{OffersNothing, outgoing_on, pending_at, frame_by};
    ghost use Rattle.fr_interface.specs.Seeing.{IsQuiet};
    ghost use Rattle.fr_interface.specs.Sights.{seen_in};
    ghost use Rattle.fr_journal.specs.Fate.{pending_commit};
    ghost use Rattle.fr_journal.specs.Offers.{IsHandedOut, bytes_of, offered};
    ghost use Rattle.fr_interface.specs.Calls.{call_refusal, call_answer, call_entry};
    ghost use Rattle.fr_interface.specs.Handing.{offer_of};

    /// Returns the data before any call, with room for so many entries of the host and of the controller. The room that
    /// the plan gives doesn't count. Fails only with `Memory`.
    pub fn new(
        alloc: Global,
        params: &Params,
        plan: &NodePlan,
        host_limit: u32,
        slot_limit: u32,
    ) -> Result<InterfaceState, InterfaceError>
        requires { host_limit + slot_limit + 3 ≤ 2 ^ 32 }
        ensures plan { IfOk result (λ h. h.plan ≡ plan.now) }
        ensures history { IfOk result (λ h. IsHistory h (record {
          params = params.now;
          plan = with_limits plan.now host_limit slot_limit;
          entries = [];
        })) }
    {
        let transmit = transmit_buffers(alloc, plan.buffers())?;
        let receive = receive_buffers(alloc, plan.buffers())?;
        let queue = receive_queue(alloc, plan.queue())?;
        let indexed = IndexedPlan::new(alloc, plan)?;
        let params = Params { ..*params };
        Ok(InterfaceState {
            params,
            plan: indexed,
            host_limit,
            slot_limit,
            hosts: 0,
            slots: 0,
            cycles: 0,
            opening: Opening::NONE,
            transmit,
            receive,
            queue,
            counters: Counters::NONE,
        })
    }

    /// Returns the number of the next entry.
    pub fn entries(&self) -> u32
        ensures value { result ≡ entries_before self.now }
        ensures history { ForEachHistory self.now (λ s. result ≡ length s.entries) }
        ensures few { result + 2 ≤ 2 ^ 32 }
    {
        self.hosts + self.slots
    }

    /// Returns the moment of the next entry.
    fn moment(&self) -> Moment
        ensures value { result ≡ moment_before self.now }
        ensures entry { result.entry + 2 ≤ 2 ^ 32 }
    {
        Moment {
            entry: self.entries(),
            cycle: self.cycles.saturating_sub(1),
        }
    }

    /// Commits a payload as `Interface::commit` does, and returns the number of its entry.
    pub fn commit(&mut self, task: TaskId, buffer: u8, payload: &Payload) -> Result<u32, HostError>
        ensures refusal { result_err result ≡ commit_refused self.old task buffer payload.now }
        ensures entry { IfOk result (λ n. n ≡ entries_before self.old) }
        ensures after { OnOk result (self.new ≡ after_commit self.old buffer payload.now) }
        ensures history { ForEachHistory self.old (λ s. OnOk result
            (IsHistory self.new (with_entry s (entries.Commit task buffer payload.now)))) }
        ensures refused { OnErr result (self.new ≡ self.old) }
        ensures terms { KeepsTerms self.old self.new }
    {
        if task.number() >= self.plan.tasks() {
            return Err(HostError::UnknownTask);
        }
        let Some(line) = self.plan.buffer(buffer) else {
            return Err(HostError::UnknownBuffer);
        };
        if line.mode.is_receive() {
            return Err(HostError::NotTransmit);
        }
        if !has_words(&self.params, &line, payload) {
            return Err(HostError::WrongLength);
        }
        if self.hosts >= self.host_limit {
            return Err(HostError::HostFull);
        }
        let entry = self.entries();
        let payload = kept_payload(payload);
        commit_to(&mut self.transmit, buffer, entry, payload);
        self.hosts += 1;
        Ok(entry)
    }

    /// Reads a receive buffer as `Interface::read` does, and returns the frame with its origin.
    pub fn read(&mut self, task: TaskId, buffer: u8) -> Result<Option<Arrival>, HostError>
        ensures refusal { result_err result ≡ read_refused self.old task buffer }
        ensures answer { ForEachHistory self.old (λ s. IfOk result (λ a. a ≡ received_by s buffer)) }
        ensures after { OnOk result (self.new ≡ after_read self.old) }
        ensures history { ForEachHistory self.old (λ s. OnOk result
            (IsHistory self.new (with_entry s (read_entry s task buffer)))) }
        ensures refused { OnErr result (self.new ≡ self.old) }
        ensures terms { KeepsTerms self.old self.new }
    {
        if task.number() >= self.plan.tasks() {
            return Err(HostError::UnknownTask);
        }
        let Some(line) = self.plan.buffer(buffer) else {
            return Err(HostError::UnknownBuffer);
        };
        if !line.mode.is_receive() {
            return Err(HostError::NotReceive);
        }
        if self.hosts >= self.host_limit {
            return Err(HostError::HostFull);
        }
        let held = arrival_at(&self.receive, buffer);
        // For the prover: the clause of this call.
        let _from = origin_in(&held);
        self.hosts += 1;
        Ok(held)
    }

    /// Withdraws the last commit on a transmit buffer, as `Interface::withdraw` does.
    pub fn withdraw(&mut self, task: TaskId, buffer: u8) -> Result<Option<u32>, HostError>
        ensures refusal { result_err result ≡ withdraw_refused self.old task buffer }
        ensures answer { IfOk result (λ of. of ≡ pending_at self.old.transmit buffer) }
        ensures history { ForEachHistory self.old (λ s. OnOk result
            (IsHistory self.new (with_entry s (withdraw_entry s task buffer)))) }
        ensures refused { OnErr result (self.new ≡ self.old) }
        ensures terms { KeepsTerms self.old self.new }
    {
        if task.number() >= self.plan.tasks() {
            return Err(HostError::UnknownTask);
        }
        let Some(line) = self.plan.buffer(buffer) else {
            return Err(HostError::UnknownBuffer);
        };
        if line.mode.is_receive() {
            return Err(HostError::NotTransmit);
        }
        if self.hosts >= self.host_limit {
            return Err(HostError::HostFull);
        }
        let of = withdraw_from(&mut self.transmit, buffer);
        self.hosts += 1;
        Ok(of)
    }

    /// Pops the oldest frame of the receive FIFO as `Interface::pop` does, with its origin.
    pub fn pop(&mut self, task: TaskId) -> Result<Option<Arrival>, HostError>
        ensures refusal { result_err result ≡ pop_refused self.old task }
        ensures answer { IfOk result (λ a. a ≡ oldest_at self.old) }
        ensures history { ForEachHistory self.old (λ s. OnOk result
            (IsHistory self.new (with_entry s (pop_entry s task)))) }
        ensures refused { OnErr result (self.new ≡ self.old) }
        ensures terms { KeepsTerms self.old self.new }
    {
        if task.number() >= self.plan.tasks() {
            return Err(HostError::UnknownTask);
        }
        if self.plan.queue().is_none() {
            return Err(HostError::NoQueue);
        }
        if self.hosts >= self.host_limit {
            return Err(HostError::HostFull);
        }
        let oldest = pop_from(&mut self.queue);
        // For the prover: the clause of this call.
        let _from = origin_in(&oldest);
        self.hosts += 1;
        Ok(oldest)
    }

    /// Makes a call for a task as `Interface::call` does, and returns its answer with the origin of a frame.
    pub fn call(&mut self, task: TaskId, call: &Call) -> Result<Answer, HostError>
        ensures refusal { ForEachHistory self.old (λ s. result_err result ≡ call_refusal s task call.now) }
        ensures answer { ForEachHistory self.old (λ s. IfOk result (λ a. a ≡ call_answer s task call.now)) }
        ensures history { ForEachHistory self.old (λ s. OnOk result
            (IsHistory self.new (with_entry s (call_entry s task call.now)))) }
        ensures refused { OnErr result (self.new ≡ self.old) }
        ensures terms { KeepsTerms self.old self.new }
    {
        match call {
            Call::Commit { buffer, payload } => {
                let entry = self.commit(task, *buffer, payload)?;
                Ok(Answer::Committed(Receipt { task, entry }))
            }
            Call::Withdraw { buffer } => {
                let of = self.withdraw(task, *buffer)?;
                Ok(Answer::Withdrawn(of))
            }
            Call::Read { buffer } => {
                let arrival = self.read(task, *buffer)?;
                Ok(Answer::Frame(arrival))
            }
            Call::Pop => {
                let arrival = self.pop(task)?;
                Ok(Answer::Frame(arrival))
            }
        }
    }

    /// Fails if `fetch` refuses the window.
    pub fn check_fetch(&self, window: &Window) -> Result<(), SlotError>
        ensures { result_err result ≡ fetch_refused self.now window.now }
    {
        if self.opening.window.is_some() {
            return Err(SlotError::NotObserved);
        }
        if !self.params.has_window(window) {
            return Err(SlotError::BadWindow);
        }
        if is_not_above(window.number, self.opening.last) {
            return Err(SlotError::WindowOrder);
        }
        if self.slot_limit < self.slots + 2 {
            return Err(SlotError::SlotFull);
        }
        Ok(())
    }

    /// Returns whether the plan has no line for the slots of the window. Then nothing is offered.
    #[inline(always)]
    pub(crate) fn is_idle(&self, window: &Window) -> bool
        ensures on_a { result ≡ true → OffersNothing self.now.plan window.now Channel.A }
        ensures on_b { result ≡ true → OffersNothing self.now.plan window.now Channel.B }
    {
        is_idle(&self.plan, window, Channel::A) && is_idle(&self.plan, window, Channel::B)
    }

    /// Returns the node's offer on the channel of a window for which the plan has no line.
    #[inline(always)]
    pub(crate) fn no_offer(&self, window: &Window, channel: Channel) -> Outgoing
        requires { OffersNothing self.now.plan window.now channel }
        ensures value { result ≡ outgoing_on self.now.plan self.now.transmit window.now channel }
        ensures fits { IsOffered result.offered }
    {
        Outgoing {
            sender: None,
            own: None,
            offered: Offered::Nothing,
        }
    }

    /// Returns the node's offer on the channel, once the window is fetched.
    ///
    /// It is inlined, so that the compiler keeps the offer in registers.
    #[inline(always)]
    pub(crate) fn outgoing_on(&self, window: &Window, channel: Channel) -> Outgoing
        ensures value { result ≡ outgoing_on self.now.plan self.now.transmit window.now channel }
        ensures fits { IsOffered result.offered }
    {
        outgoing_on(&self.plan, self.transmit.as_slice(), window, channel)
    }

    /// Writes the bytes of the node's frame on the channel over the old ones.
    #[inline(always)]
    pub(crate) fn hand_out(
        &self,
        window: &Window,
        channel: Channel,
        outgoing: &Outgoing,
        bytes: &mut Option<Bytes>,
    )
        requires { outgoing.now ≡ outgoing_on self.now.plan self.now.transmit window.now channel }
        ensures spelled { IsHandedOut channel
            (frame_by self.now.params self.now.plan self.now.transmit window.now channel outgoing.now) bytes.new }
        ensures bytes { bytes.new ≡ bytes_of channel
            (frame_by self.now.params self.now.plan self.now.transmit window.now channel outgoing.now) }
    {
        match outgoing.offered {
            Offered::Nothing => {
                // Most windows hand nothing out, and then nothing is written over nothing.
                if bytes.is_some() {
                    *bytes = None;
                }
            }
            Offered::Null | Offered::Data(_) => self.spell(window, channel, outgoing, bytes),
        }
    }

    /// Writes the bytes of the node's frame on the channel over the old ones.
    ///
    /// It isn't inlined, so that a window without an offer doesn't pay for the room of a frame.
    #[inline(never)]
    fn spell(
        &self,
        window: &Window,
        channel: Channel,
        outgoing: &Outgoing,
        bytes: &mut Option<Bytes>,
    )
        ensures spelled { IsHandedOut channel
            (frame_by self.now.params self.now.plan self.now.transmit window.now channel outgoing.now) bytes.new }
        ensures bytes { bytes.new ≡ bytes_of channel
            (frame_by self.now.params self.now.plan self.now.transmit window.now channel outgoing.now) }
    {
        let (params, buffers) = (&self.params, self.transmit.as_slice());
        *bytes = spelled_by(params, &self.plan, buffers, window, channel, outgoing);
    }

    /// Returns the node's offer on the channel in a window, if the window is fetched now.
    pub fn offered(&self, window: &Window, channel: Channel) -> Offered
        ensures value { result ≡ (outgoing_on self.now.plan self.now.transmit window.now channel).offered }
        ensures history { ForEachHistory self.now (λ s. result ≡ offered s.plan s.entries window.now channel) }
    {
        self.outgoing_on(window, channel).offered
    }

    /// Opens a window as `Interface::fetch_offered` does, and returns the node's offers on both channels.
    pub fn fetch_offered(&mut self, window: &Window) -> Result<(Offered, Offered), SlotError>
        ensures refusal { result_err result ≡ fetch_refused self.old window.now }
        ensures offered_a { IfOk result (λ o. o.0
            ≡ (outgoing_on self.old.plan self.old.transmit window.now Channel.A).offered) }
        ensures offered_b { IfOk result (λ o. o.1
            ≡ (outgoing_on self.old.plan self.old.transmit window.now Channel.B).offered) }
        ensures history { ForEachHistory self.old (λ s. OnOk result
            (IsHistory self.new (with_entry s (fetch_entry s window.now)))) }
        ensures refused { OnErr result (self.new ≡ self.old) }
        ensures terms { KeepsTerms self.old self.new }
    {
        self.check_fetch(window)?;
        let a = self.outgoing_on(window, Channel::A);
        let b = self.outgoing_on(window, Channel::B);
        self.fetch(window, &a, &b);
        Ok((a.offered, b.offered))
    }

    /// Opens a window as `Interface::fetch_into` does, and writes the node's frames to `offer`. A refusal leaves the
    /// offer unchanged.
    pub fn fetch_into(&mut self, window: &Window, offer: &mut Offer) -> Result<(), SlotError>
        ensures refusal { result_err result ≡ fetch_refused self.old window.now }
        ensures offer { ForEachHistory self.old (λ s. OnOk result (offer.new ≡ offer_of s window.now)) }
        ensures history { ForEachHistory self.old (λ s. OnOk result
            (IsHistory self.new (with_entry s (fetch_entry s window.now)))) }
        ensures refused { OnErr result (self.new ≡ self.old) }
        ensures kept { OnErr result (offer.new ≡ offer.old) }
        ensures terms { KeepsTerms self.old self.new }
    {
        self.check_fetch(window)?;
        // Most nodes have no line for the slots of most windows.
        if self.is_idle(window) {
            let no_a = self.no_offer(window, Channel::A);
            let no_b = self.no_offer(window, Channel::B);
            self.fetch_offers(window, &no_a, &no_b, offer);
            return Ok(());
        }
        let on_a = self.outgoing_on(window, Channel::A);
        let on_b = self.outgoing_on(window, Channel::B);
        self.fetch_offers(window, &on_a, &on_b, offer);
        Ok(())
    }

    /// Fetches the window, with these offers, and writes the node's frames to `offer`.
    #[inline(always)]
    fn fetch_offers(&mut self, window: &Window, a: &Outgoing, b: &Outgoing, offer: &mut Offer)
        requires accepted { fetch_refused self.old window.now ≡ None }
        requires outgoing_a { a.now ≡ outgoing_on self.old.plan self.old.transmit window.now Channel.A }
        requires outgoing_b { b.now ≡ outgoing_on self.old.plan self.old.transmit window.now Channel.B }
        requires fits_a { IsOffered a.now.offered }
        requires fits_b { IsOffered b.now.offered }
        ensures offer { ForEachHistory self.old (λ s. offer.new ≡ offer_of s window.now) }
        ensures history { ForEachHistory self.old (λ s. IsHistory self.new (with_entry s (fetch_entry s window.now))) }
        ensures terms { KeepsTerms self.old self.new }
    {
        self.hand_out(window, Channel::A, a, &mut offer.a);
        self.hand_out(window, Channel::B, b, &mut offer.b);
        self.fetch(window, a, b);
    }

    /// Fetches the window, with these offers.
    #[inline(always)]
    pub(crate) fn fetch(&mut self, window: &Window, a: &Outgoing, b: &Outgoing)
        requires accepted { fetch_refused self.old window.now ≡ None }
        requires outgoing_a { a.now ≡ outgoing_on self.old.plan self.old.transmit window.now Channel.A }
        requires outgoing_b { b.now ≡ outgoing_on self.old.plan self.old.transmit window.now Channel.B }
        requires fits_a { IsOffered a.now.offered }
        requires fits_b { IsOffered b.now.offered }
        ensures after { self.new ≡ after_fetch self.old window.now a.now.sender b.now.sender }
        ensures history { ForEachHistory self.old (λ s. IsHistory self.new (with_entry s (fetch_entry s window.now))) }
        ensures terms { KeepsTerms self.old self.new }
    {
        send_from(&mut self.transmit, a.sender);
        send_from(&mut self.transmit, b.sender);
        let window = kept_window(window);
        self.opening = Opening {
            window: Some(window),
            last: Some(window.number),
        };
        self.cycles = begun_with(self.cycles, &window);
        self.slots += 1;
    }

    /// Closes the window of this number, as `Interface::observe` does.
    pub fn observe(&mut self, number: u32, a: &Seen, b: &Seen) -> Result<(), SlotError>
        ensures refusal { result_err result ≡ observe_refused self.old number }
        ensures history { ForEachHistory self.old (λ s. OnOk result
            (IsHistory self.new (with_entry s (entries.Observe number a.now b.now)))) }
        ensures refused { OnErr result (self.new ≡ self.old) }
        ensures terms { KeepsTerms self.old self.new }
    {
        self.observe_sights(number, &Sight::Seen(a), &Sight::Seen(b))
    }

    /// Fails if `observe` refuses the window.
    pub fn check_observe(&self, number: u32) -> Result<(), SlotError>
        ensures { result_err result ≡ observe_refused self.now number }
    {
        match &self.opening.window {
            None => Err(SlotError::NotFetched),
            Some(window) if window.number != number => Err(SlotError::WrongWindow),
            Some(_) => Ok(()),
        }
    }

    /// Closes the window of this number as `observe` does. What was judged for this window isn't judged again.
    pub fn observe_sights(
        &mut self,
        number: u32,
        a: &Sight<'_>,
        b: &Sight<'_>,
    ) -> Result<(), SlotError>
        ensures refusal { result_err result ≡ observe_refused self.old number }
        ensures history { ForEachHistory self.old (λ s. OnOk result
            (IsHistory self.new (with_entry s (entries.Observe number (seen_in a.now) (seen_in b.now))))) }
        ensures refused { OnErr result (self.new ≡ self.old) }
        ensures terms { KeepsTerms self.old self.new }
    {
        let Some(window) = self.opening.window else {
            return Err(SlotError::NotFetched);
        };
        if window.number != number {
            return Err(SlotError::WrongWindow);
        }
        // Most windows show nothing to most nodes.
        if a.is_quiet() && b.is_quiet() {
            self.close_quiet(&window, a, b);
        } else {
            self.close(&window, a, b);
        }
        Ok(())
    }

    /// Closes the open window, in which nothing was seen that sets a bit or has a frame.
    fn close_quiet(&mut self, window: &Window, a: &Sight<'_>, b: &Sight<'_>)
        requires opened { self.old.opening.window ≡ Some window.now }
        requires quiet_a { IsQuiet (seen_in a.now) }
        requires quiet_b { IsQuiet (seen_in b.now) }
        ensures history { ForEachHistory self.old (λ s. IsHistory self.new
            (with_entry s (entries.Observe window.now.number (seen_in a.now) (seen_in b.now)))) }
        ensures terms { KeepsTerms self.old self.new }
    {
        count_seen(
            &mut self.counters,
            Channel::A,
            quiet_status(window, Channel::A),
        );
        count_seen(
            &mut self.counters,
            Channel::B,
            quiet_status(window, Channel::B),
        );
        self.opening = Opening {
            window: None,
            last: self.opening.last,
        };
        self.slots += 1;
        // For the prover: the clauses of these calls.
        let _window = kept_window(window);
        a.known();
        b.known();
    }

    /// Closes the open window with what was seen in it.
    fn close(&mut self, window: &Window, a: &Sight<'_>, b: &Sight<'_>)
        requires opened { self.old.opening.window ≡ Some window.now }
        ensures history { ForEachHistory self.old (λ s. IsHistory self.new
            (with_entry s (entries.Observe window.now.number (seen_in a.now) (seen_in b.now)))) }
        ensures terms { KeepsTerms self.old self.new }
    {
        let moment = self.moment();
        let (check_a, check_b) = checks_in(a, b).unzip();
        let told_a = a.told(&self.params, window, Channel::A, check_a);
        let told_b = b.told(&self.params, window, Channel::B, check_b);
        count_seen(&mut self.counters, Channel::A, told_a.status);
        count_seen(&mut self.counters, Channel::B, told_b.status);
        let (frame_a, frame_b) = (&told_a.frame, &told_b.frame);
        let plan = &self.plan;
        store_all(&mut self.receive, plan, moment, window, frame_a, frame_b);
        arrive_all(&mut self.queue, plan, moment, window, frame_a, frame_b);
        self.opening = Opening {
            window: None,
            last: self.opening.last,
        };
        self.slots += 1;
        // For the prover: the clauses of these calls.
        let _window = kept_window(window);
        a.known();
        b.known();
    }

    /// Returns the source of the buffer's content.
    pub fn held(&self, buffer: u8) -> Option<Source>
        ensures { result ≡ source_at self.now buffer }
    {
        let line = self.plan.buffer(buffer)?;
        if line.mode.is_receive() {
            observed_at(&self.receive, buffer)
        } else {
            commit_at(&self.transmit, buffer)
        }
    }

    /// Returns the entry of a transmit buffer's pending commit, which was neither sent nor withdrawn. Returns none if
    /// no commit is pending, and for a buffer that isn't a transmit buffer of the plan.
    pub fn pending(&self, buffer: u8) -> Option<u32>
        ensures value { result ≡ pending_at self.now.transmit buffer }
        ensures history { ForEachHistory self.now (λ s. IsSome (buffer_at s.plan buffer)
            → result ≡ pending_commit buffer s.entries) }
    {
        pending_at(&self.transmit, buffer)
    }

    /// Returns the tally of the commits on a transmit buffer.
    pub fn tally(&self, buffer: u8) -> Option<Tally>
        ensures value { result ≡ tally_at self.now buffer }
        ensures fates { IfSome result (λ t. t.committed ≡ t.sent + t.overwritten + t.pending + t.withdrawn) }
        ensures one_pending { IfSome result (λ t. t.pending ≤ 1) }
    {
        let line = self.plan.buffer(buffer)?;
        if line.mode.is_receive() {
            return None;
        }
        tally_at(&self.transmit, buffer)
    }

    /// Returns the frame in a receive buffer, with its origin.
    pub fn received(&self, buffer: u8) -> Option<Arrival>
        ensures { result ≡ received_at self.now buffer }
    {
        let line = self.plan.buffer(buffer)?;
        if !line.mode.is_receive() {
            return None;
        }
        arrival_at(&self.receive, buffer)
    }

    /// Returns the oldest frame of the receive FIFO, which the next pop takes, with its origin.
    pub fn oldest(&self) -> Option<Arrival>
        ensures { result ≡ oldest_at self.now }
    {
        first_of(&self.queue)
    }

    /// Returns the number of frames in the receive FIFO.
    pub fn queue_len(&self) -> Option<u32>
        ensures { result ≡ option_map (λ w. length w.frames) self.now.queue }
    {
        match &self.queue {
            Some(queue) => Some(queue.len()),
            None => None,
        }
    }

    /// Returns the number of frames that the receive FIFO lost.
    pub fn queue_lost(&self) -> Option<u32>
        ensures { result ≡ option_map (λ w. w.lost) self.now.queue }
    {
        match &self.queue {
            Some(queue) => Some(queue.lost()),
            None => None,
        }
    }

    /// Returns the number of observed windows with each bit of the slot status, for each channel.
    pub fn counters(&self) -> Counters
        ensures { result ≡ self.now.counters }
    {
        self.counters
    }

    /// Returns the parameters.
    pub fn params(&self) -> &Params
        ensures { result.now ≡ self.now.params }
    {
        &self.params
    }

    /// Returns the plan, with its index.
    pub(crate) fn plan(&self) -> &IndexedPlan
        ensures { result.now ≡ self.now.plan }
    {
        &self.plan
    }
}
