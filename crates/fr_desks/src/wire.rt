//! The bus behind one lock, and the calls that wait for its phases.

ghost use Rattle.std.specs.Prelude.{◌≡◌, ◌<◌, ◌≤◌, ◌⊎◌, ℕ, nat_lt, length, IfOk, IfErr, OnErr};
ghost use Rattle.fr_bus.specs.declared.error.BusError.TheVariants as bus;
ghost use Rattle.fr_bus.specs.States.{IsRun, OneSenderEach};
ghost use Rattle.fr_desks.specs.declared.wire.WireError.TheVariants as refusal;

use crate::gate::{Actor, Gate, Side, pass};
use crate::hint::{Hint, Stage};
use crate::letter::{Delivery, Letter, MOST_NODES};
use arrayvec::ArrayVec;
use fr_bus::bus::Bus;
use fr_bus::error::{BusError, Phase};
use fr_bus::fault::Fault;
use fr_interface::interface::Offer;
use fr_slots::numbers::NodeId;
use fr_slots::window::Window;
use fr_status::seen::Seen;
use std::marker::Model;
use std::sync::atomic::{AtomicU32, Ordering};
use std::sync::{Condvar, Mutex, MutexGuard, Wait};
use std::thread;
use std::time::Clock;
use thiserror::Error;

/// The number of times that a call yields and polls again before it sleeps.
///
/// A window takes some ten microseconds, and so does the wake-up of a thread.
const LOOKS: u32 = 400;

// Nodes yield after each poll. With 100 polls in a row, runs took 5 to 7 % longer. With 20,000 for the bus, they took
// up to twice as long.
/// The number of polls in a row of the calls that move the bus on, before they yield to other threads.
///
/// They take a microsecond or two. All nodes wait for these calls.
const LOOKS_IN_A_ROW: u32 = 2_000;

// With 0.1 ms the run of the car took 1.5 times as long on one core.
/// The longest pause, in microseconds, that other threads of the run cause between two polls.
///
/// Another process that runs instead keeps the core for a slice of 1 to 4 ms. So a longer pause shows that the cores
/// are shared.
const LONG_PAUSE: u128 = 750;

/// The number of calls that aren't due and sleep at once after the first long pause.
///
/// The wake-up of a call costs less than a slice of another process.
const SLEEPS: u32 = 64;

// With 65,536, a pause of a virtual machine let a run of sixteen nodes sleep for thousands of windows.
/// The largest number of calls that sleep at once after a long pause, after any number of long pauses.
const MOST_SLEEPS: u32 = 4_096;

// With 2 and a relief of 8, calls polled too often: a run of two nodes beside one busy loop took 2.2 times its share.
/// The factor by which each call that meets a long pause raises `next_sleeps`.
const GROWTH: u32 = 4;

/// The divisor of the relief: each short pause lowers `next_sleeps` by `next_sleeps / RELIEF`.
///
/// It is at most `SLEEPS`, so that `next_sleeps` comes back to it.
const RELIEF: u32 = 64;

/// The number of takes of which one reads the clock while no pause was long.
///
/// If each wait reads the clock, a run of sixteen nodes takes 3 to 5 % longer.
const TIMED_TAKES: u32 = 8;

/// Reasons to refuse a call of a wire (project-defined).
#[derive(Clone, Copy, Debug, PartialEq, Eq, Error)]
pub enum WireError {
    /// The bus refuses the call.
    #[error("Bus {0}")]
    Bus(BusError),
    /// The wire was stopped.
    #[error("Stopped")]
    Stopped,
}

/// The state behind a wire's lock.
#[derive(Drop)]
struct Wired {
    bus: Bus,
    stopped: bool,
}

impl Wired {
    /// Returns the stage of the open window.
    fn stage(&self) -> Stage {
        if self.stopped {
            return Stage::Over;
        }
        match self.bus.phase() {
            Phase::Collect if self.bus.all_put() => Stage::AllPut,
            Phase::Collect => Stage::Collecting,
            Phase::Sealed if self.bus.all_taken() => Stage::AllTaken,
            Phase::Sealed => Stage::Sealed,
            Phase::Finished => Stage::Over,
        }
    }
}

/// A signal for which some calls wait.
#[derive(Drop)]
struct Signal {
    /// The number of polls in a row of these calls.
    looks: u32,
    sleepers: Condvar,
}

impl Signal {
    /// Returns a signal without waiting calls, for calls with this number of polls in a row.
    fn new(looks: u32) -> Signal {
        Signal {
            looks,
            sleepers: Condvar::new(),
        }
    }

    /// Wakes all calls that sleep.
    fn give(&self) {
        self.sleepers.notify_all();
    }

    /// Polls the hint some times in a row. Returns whether the call was due by it.
    fn looks_due<F: Fn(Stage) -> bool>(&self, hint: &Hint, is_due: &F) -> bool
        requires { F.IsAlwaysCallable is_due.now }
    {
        for _ in 0..self.looks {
            if is_due(hint.stage()) {
                return true;
            }
        }
        false
    }

    /// Yields to other threads until the call is due by the hint, for a while.
    ///
    /// A call returns earlier if other processes take the cores.
    fn look_out<R: Clock, F: Fn(Stage) -> bool>(
        &self,
        rt: &R,
        hint: &Hint,
        rest: &Rest,
        is_timed: bool,
        is_due: &F,
    )
        requires { F.IsAlwaysCallable is_due.now }
    {
        if is_due(hint.stage()) || rest.sleeps_at_once() || self.looks_due(hint, is_due) {
            return;
        }
        if is_timed || rest.had_long_pauses() {
            self.look_by_clock(rt, hint, rest, is_due);
        } else {
            self.look_on(hint, is_due);
        }
    }

    /// Yields to other threads until the call is due by the hint, for a while.
    fn look_on<F: Fn(Stage) -> bool>(&self, hint: &Hint, is_due: &F)
        requires { F.IsAlwaysCallable is_due.now }
    {
        for _ in 0..LOOKS {
            thread::yield_now();
            if self.looks_due(hint, is_due) {
                return;
            }
        }
    }

    /// Does the same, but returns after a long pause.
    fn look_by_clock<R: Clock, F: Fn(Stage) -> bool>(
        &self,
        rt: &R,
        hint: &Hint,
        rest: &Rest,
        is_due: &F,
    )
        requires { F.IsAlwaysCallable is_due.now }
    {
        let mut then = microseconds(rt);
        for _ in 0..LOOKS {
            thread::yield_now();
            let now = microseconds(rt);
            if now.saturating_sub(then) > LONG_PAUSE {
                rest.sleep_more();
                return;
            }
            if self.looks_due(hint, is_due) {
                rest.sleep_less();
                return;
            }
            then = now;
        }
    }
}

/// The state of calls that sleep at once because other processes take the cores.
#[derive(Drop)]
struct Rest {
    /// The number of further calls that sleep at once.
    sleeps: AtomicU32,
    /// The number of calls that sleep at once after the next long pause.
    next_sleeps: AtomicU32,
}

impl Rest {
    /// Returns the state before any long pause.
    fn new() -> Rest {
        Rest {
            sleeps: AtomicU32::new(0),
            next_sleeps: AtomicU32::new(SLEEPS),
        }
    }

    /// Returns whether a call that isn't due sleeps at once, and counts this call.
    fn sleeps_at_once(&self) -> bool {
        let left = self.sleeps.load(Ordering::Relaxed);
        if left > 0 {
            self.sleeps.store(left - 1, Ordering::Relaxed);
        }
        left > 0
    }

    /// Returns whether more pauses were long than the short ones after them made up for.
    fn had_long_pauses(&self) -> bool {
        self.next_sleeps.load(Ordering::Relaxed) > SLEEPS
    }

    // Several calls may meet the same pause. When only the first of them counted, the car took 2.1 times its share
    // beside a busy loop.
    /// Lets the next calls sleep at once, and more of them after the next long pause.
    fn sleep_more(&self) {
        let sleeps = self.next_sleeps.load(Ordering::Relaxed);
        self.sleeps.store(sleeps, Ordering::Relaxed);
        let more = sleeps.saturating_mul(GROWTH).min(MOST_SLEEPS);
        self.next_sleeps.store(more, Ordering::Relaxed);
    }

    /// Lets fewer calls sleep at once after the next long pause.
    fn sleep_less(&self) {
        let sleeps = self.next_sleeps.load(Ordering::Relaxed);
        if sleeps > SLEEPS {
            let fewer = sleeps - sleeps / RELIEF;
            self.next_sleeps.store(fewer, Ordering::Relaxed);
        }
    }
}

/// Returns the time since some start in microseconds, or 0 if the clock can't be read.
fn microseconds<R: Clock>(rt: &R) -> u128 {
    match rt.monotonic() {
        Ok(time) => time.as_micros(),
        Err(_) => 0,
    }
}

/// Returns a letter for each node, as it is before the first window.
fn first_letters(nodes: u8) -> ArrayVec<Mutex<Letter>, MOST_NODES> {
    let mut letters = ArrayVec::new();
    for _ in 0..nodes {
        if letters.try_push(Mutex::default()).is_err() {
            break;
        }
    }
    letters
}

/// Returns whether a take or receive of the node reads the clock while it waits.
fn is_timed(node: NodeId, number: u32) -> bool {
    number.wrapping_add(u32::from(node.number())) % TIMED_TAKES == 0
}

/// The bus behind a lock, for the controllers and the thread that moves it on (project-defined).
///
/// When the lock is free, the bus is one to which its own calls lead: no static slot of a guarded channel carries two
/// senders. Each call waits for its phase, but not once the run is over. After `stop`, each call returns `Stopped`. A
/// next, put or take of a node that the cluster doesn't have never waits. In contracts, a wire is the number of the
/// cluster's nodes.
#[derive(Drop)]
pub struct Wire {
    nodes: u8,
    lock: Mutex<Wired>,
    // With two condition variables, an event wakes no thread that waits for the other event.
    /// The signal that a window opened or was sealed, or the wire was stopped.
    for_nodes: Signal,
    /// The signal that all nodes have put or taken, or the wire was stopped.
    for_bus: Signal,
    // With a signal for each node, the bus made a call of the system for each that slept, and a run of 16 nodes beside
    // four busy loops took twice as long.
    /// The signal that a window was delivered, or the wire was stopped.
    for_letters: Signal,
    // With one lock for all, the nodes that are due together slept at it.
    /// The letter of each node, behind a lock of its own.
    letters: ArrayVec<Mutex<Letter>, MOST_NODES>,
    /// The stage of the open window, for calls that poll before they take the lock.
    hint: Hint,
    rest: Rest,
}

impl Model for Wire {
    ghost Value = { ℕ };

    ghost view = { λ w. w.nodes };
}

impl Wire {
    /// Returns the wire of a bus.
    pub fn new(bus: Bus) -> Wire
        ensures { result ≡ length bus.stations }
    {
        Wire {
            letters: first_letters(bus.nodes()),
            nodes: bus.nodes(),
            lock: Mutex::new(Wired {
                bus,
                stopped: false,
            }),
            for_nodes: Signal::new(1),
            for_bus: Signal::new(LOOKS_IN_A_ROW),
            for_letters: Signal::new(1),
            hint: Hint::new(),
            rest: Rest::new(),
        }
    }

    /// Returns whether the cluster has the node.
    fn has_node(&self, node: NodeId) -> bool
        ensures { result ≡ nat_lt node self.now }
    {
        node.number() < self.nodes
    }

    // It takes a function and is compiled for each call. An enum of calls went through a jump table and cost a tenth
    // more instructions.
    /// Returns the bus under its lock, once the call is due at the stage of the window.
    ///
    /// A timed call finds out whether other processes take the cores.
    fn ready<R: Wait + Clock, F: Fn(Stage) -> bool>(
        &self,
        rt: &R,
        signal: &Signal,
        is_timed: bool,
        is_due: F,
    ) -> Result<MutexGuard<'_, Wired>, WireError>
        requires { F.IsAlwaysCallable is_due }
        ensures { IfErr result (λ e. e ≡ refusal.Stopped) }
    {
        signal.look_out(rt, &self.hint, &self.rest, is_timed, &is_due);
        let mut wired = self.lock.lock(rt);
        if !is_due(wired.stage()) {
            wired = signal
                .sleepers
                .wait_while(rt, wired, |wired| !is_due(wired.stage()));
        }
        if wired.stopped {
            Err(WireError::Stopped)
        } else {
            Ok(wired)
        }
    }

    /// Returns the open window once it collects, or `None` once the run is over.
    ///
    /// Returns `Stopped`, or at once `Bus(UnknownNode)` for a node that the cluster doesn't have.
    pub fn next<R: Wait + Clock>(&self, rt: &R, node: NodeId) -> Result<Option<Window>, WireError>
        ensures known { IfOk result (λ window. node < self.now) }
        ensures refused { IfErr result (λ e. (e ≡ refusal.Stopped)
            ⊎ ((e ≡ refusal.Bus bus.UnknownNode) × (self.now ≤ node))) }
    {
        let known = self.has_node(node);
        let wired = self.ready(
            rt,
            &self.for_nodes,
            false,
            |stage| !known || stage.lets_offer(),
        )?;
        if known {
            Ok(wired.bus.collecting())
        } else {
            Err(WireError::Bus(BusError::UnknownNode))
        }
    }

    /// Makes the bus's put, once the open window collects. Returns `Stopped`, or the error of the bus.
    pub fn put<R: Wait + Clock>(
        &self,
        rt: &R,
        node: NodeId,
        number: u32,
        offer: &Offer,
    ) -> Result<(), WireError> {
        let known = self.has_node(node);
        let mut wired = self.ready(
            rt,
            &self.for_nodes,
            false,
            |stage| !known || stage.lets_offer(),
        )?;
        let answer = wired.bus.put(node, number, offer);
        let all = answer.is_ok() && wired.bus.all_put();
        if all {
            self.hint.tell(Stage::AllPut);
        }
        drop(wired);
        if all {
            self.for_bus.give();
        }
        answer.map_err(|error| WireError::Bus(error))
    }

    /// Makes the bus's inject, once the open window collects. Returns `Stopped`, or the error of the bus.
    pub fn inject<R: Wait + Clock>(&self, rt: &R, fault: Fault) -> Result<(), WireError> {
        // A fault of an unknown node waits for its phase, too.
        let mut wired = self.ready(rt, &self.for_nodes, false, |stage| stage.lets_offer())?;
        let answer = wired.bus.inject(fault);
        answer.map_err(|error| WireError::Bus(error))
    }

    /// Makes the bus's seal, once all nodes have put. Returns `Stopped`, or the error of the bus.
    ///
    /// It passes the gate before it waits, and before it returns.
    pub fn seal<R: Wait + Clock, G: Gate>(&self, rt: &R, gate: &G) -> Result<(), WireError> {
        pass(gate, Actor::Bus, Side::Before);
        let answer = self.seal_all(rt);
        pass(gate, Actor::Bus, Side::After);
        answer
    }

    /// Makes the bus's seal, once all nodes have put.
    fn seal_all<R: Wait + Clock>(&self, rt: &R) -> Result<(), WireError> {
        let mut wired = self.ready(rt, &self.for_bus, true, |stage| stage.lets_seal())?;
        let answer = wired.bus.seal();
        self.hint.tell(wired.stage());
        drop(wired);
        if answer.is_ok() {
            self.for_nodes.give();
        }
        answer.map_err(|error| WireError::Bus(error))
    }

    /// Makes the takes of all nodes and the bus's advance, once the open window is sealed.
    ///
    /// Each node's observations then lie in its letter, where `receive_into` finds them. Returns the next window, or
    /// `None` once the run is over. Returns `Stopped`, or the error of the bus.
    pub fn deliver<R: Wait + Clock>(
        &self,
        rt: &R,
        delivery: &mut Delivery,
    ) -> Result<Option<Window>, WireError> {
        self.take_all(rt, delivery)?;
        self.hand_out(rt, delivery);
        Ok(delivery.next())
    }

    /// Makes the takes of all nodes and the bus's advance, once the open window is sealed.
    fn take_all<R: Wait + Clock>(&self, rt: &R, delivery: &mut Delivery) -> Result<(), WireError> {
        let mut wired = self.ready(rt, &self.for_nodes, false, |stage| stage.lets_take())?;
        let answer = delivery.take_all(&mut wired.bus);
        self.hint.tell(wired.stage());
        drop(wired);
        answer.map_err(|error| WireError::Bus(error))
    }

    /// Fills the letter of each node, and wakes all calls that wait for a letter or the next window.
    fn hand_out<R: Wait>(&self, rt: &R, delivery: &Delivery) {
        let (number, next) = (delivery.number(), delivery.next());
        for (at, place) in self.letters.as_slice().iter().enumerate() {
            if let Some(seen) = delivery.of(at) {
                let mut letter = place.lock(rt);
                letter.fill(number, seen, next);
                drop(letter);
            }
        }
        self.hint.tell_delivered(number);
        self.for_letters.give();
        self.for_nodes.give();
        if next.is_none() {
            self.for_bus.give();
        }
    }

    /// Replaces `a` and `b` by the node's observations in the window of this number, once it is delivered.
    ///
    /// Returns the window that opened then, or `None` once the run is over. Returns `Stopped`, or at once
    /// `Bus(UnknownNode)` for a node that the cluster doesn't have, or `Bus(WrongWindow)` if a later window was
    /// delivered, or the last one is an earlier one.
    pub fn receive_into<R: Wait + Clock>(
        &self,
        rt: &R,
        node: NodeId,
        number: u32,
        a: &mut Seen,
        b: &mut Seen,
    ) -> Result<Option<Window>, WireError>
        ensures known { IfOk result (λ next. node < self.now) }
        ensures refused_a { OnErr result (a.new ≡ a.old) }
        ensures refused_b { OnErr result (b.new ≡ b.old) }
    {
        let place = self.letters.as_slice().get(usize::from(node.number()));
        let (true, Some(place)) = (self.has_node(node), place) else {
            return Err(self.refusal_of_unknown(rt));
        };
        self.for_letters.look_out(
            rt,
            &self.hint,
            &self.rest,
            is_timed(node, number),
            &|_stage| { self.hint.has_delivered(number) },
        );
        let mut letter = place.lock(rt);
        if letter.awaits(number) {
            letter = self
                .for_letters
                .sleepers
                .wait_while(rt, letter, |letter| letter.awaits(number));
        }
        if letter.is_stopped() {
            return Err(WireError::Stopped);
        }
        let answer = letter.read_into(number, a, b);
        answer.map_err(|error| WireError::Bus(error))
    }

    /// Returns the refusal of a call of a node that the cluster doesn't have.
    fn refusal_of_unknown<R: Wait>(&self, rt: &R) -> WireError {
        if self.lock.lock(rt).stopped {
            WireError::Stopped
        } else {
            WireError::Bus(BusError::UnknownNode)
        }
    }

    /// Makes the bus's take, once the open window is sealed. Returns `Stopped`, or the error of the bus.
    pub fn take<R: Wait + Clock>(
        &self,
        rt: &R,
        node: NodeId,
        number: u32,
    ) -> Result<(Seen, Seen), WireError> {
        let (mut a, mut b) = (Seen::Silence, Seen::Silence);
        self.take_into(rt, node, number, &mut a, &mut b)?;
        Ok((a, b))
    }

    /// Makes the same take, and replaces `a` and `b` by the observations on channels A and B.
    ///
    /// Bytes are written over the bytes that are there. It is refused as `take` is.
    pub fn take_into<R: Wait + Clock>(
        &self,
        rt: &R,
        node: NodeId,
        number: u32,
        a: &mut Seen,
        b: &mut Seen,
    ) -> Result<(), WireError> {
        let known = self.has_node(node);
        let mut wired = self.ready(
            rt,
            &self.for_nodes,
            is_timed(node, number),
            |stage| !known || stage.lets_take(),
        )?;
        let answer = wired.bus.take_into(node, number, a, b);
        let all = answer.is_ok() && wired.bus.all_taken();
        if all {
            self.hint.tell(Stage::AllTaken);
        }
        drop(wired);
        if all {
            self.for_bus.give();
        }
        answer.map_err(|error| WireError::Bus(error))
    }

    /// Makes the bus's advance, once all nodes have taken. Returns `Stopped`, or the error of the bus.
    pub fn advance<R: Wait + Clock>(&self, rt: &R) -> Result<(), WireError> {
        let mut wired = self.ready(rt, &self.for_bus, true, |stage| stage.lets_advance())?;
        let answer = wired.bus.advance();
        let over = wired.bus.phase() == Phase::Finished;
        self.hint.tell(wired.stage());
        drop(wired);
        if answer.is_ok() {
            self.for_nodes.give();
        }
        if over {
            self.for_bus.give();
        }
        answer.map_err(|error| WireError::Bus(error))
    }

    /// Stops the wire: from now on each call returns `Stopped`, waiting calls at once. The bus stays unchanged.
    pub fn stop<R: Wait>(&self, rt: &R) {
        let mut wired = self.lock.lock(rt);
        wired.stopped = true;
        self.hint.tell(Stage::Over);
        drop(wired);
        for place in self.letters.as_slice() {
            let mut letter = place.lock(rt);
            letter.stop();
            drop(letter);
        }
        self.hint.tell_delivered(u32::MAX);
        self.for_letters.give();
        self.for_nodes.give();
        self.for_bus.give();
    }

    /// Returns the bus. Its record is that of a run, and no static slot of a guarded channel carried two senders.
    pub fn close(self) -> Bus
        ensures run { IsRun result }
        ensures one_sender { OneSenderEach result.cluster result.sealed }
    {
        let Wire { lock, .. } = self;
        let Wired { bus, stopped: _ } = lock.into_inner();
        // For the prover: the clause of this call.
        bus.known();
        bus
    }
}
