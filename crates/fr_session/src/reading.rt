//! Lines, read as requests.
ghost use Rattle.std.specs.Prelude.{◌≡◌};
ghost use Rattle.fr_session.specs.Reading.{babble_in, mute_in, corrupt_in, node_in, alone, run_in, record_in};
ghost use Rattle.fr_session.specs.Reading.{report_in, status_in, trace_in, origin_in, query_request};
ghost use Rattle.fr_session.specs.Reading.{host_request, next_in, receive_in, step_of, step_request};
ghost use Rattle.fr_session.specs.Reading.{fault_of, fault_request, event_request, begins_event, is_fault_word};
ghost use Rattle.fr_session.specs.Reading.{is_step_word, is_host_word, other_request, request_in};
ghost use Rattle.fr_session.specs.Reading.{request_or_faults, asked_in, with_faults};
ghost use Rattle.fr_scenario.specs.FaultLines.{faults_in};
ghost use Rattle.fr_text.specs.Spaces.{words_of};

use crate::lines::LONGEST_LINE;
use crate::request::Request;
use fr_bus::fault::Fault;
use fr_core::event::Event;
use fr_frame::frame::FRAME_BYTES;
use fr_lines::parts::{buffer_of, channel_of, node_of, task_of};
use fr_scenario::calls::call_of;
use fr_scenario::fault_lines::{LineFaults, faults_of};
use fr_slots::numbers::NodeId;
use fr_text::hexes::bytes_of;
use fr_text::numbers::number_of;
use fr_text::words::Words;
use std::alloc::Global;

/// Returns the babble that the words spell.
#[tactic(auto, unfolding(crate::specs::Reading::babble_in))]
fn babble_of(words: &mut Words<'_>) -> Option<Fault>
    ensures { result ≡ babble_in words.old }
{
    let (node, channel, bytes) = words.three()?;
    let node = node_of(node)?;
    let channel = channel_of(channel)?;
    let bytes = bytes_of::<FRAME_BYTES>(bytes)?;
    Some(Fault::Babble {
        node,
        channel,
        bytes,
    })
}

/// Returns the mute that the words spell.
#[tactic(auto, unfolding(crate::specs::Reading::mute_in))]
fn mute_of(words: &mut Words<'_>) -> Option<Fault>
    ensures { result ≡ mute_in words.old }
{
    let (node, channel) = words.two()?;
    let node = node_of(node)?;
    let channel = channel_of(channel)?;
    Some(Fault::Mute { node, channel })
}

/// Returns the corruption that the words spell.
#[tactic(auto, unfolding(crate::specs::Reading::corrupt_in))]
fn corrupt_of(words: &mut Words<'_>) -> Option<Fault>
    ensures { result ≡ corrupt_in words.old }
{
    let (channel, bit) = words.two()?;
    let channel = channel_of(channel)?;
    let bit = number_of(bit, 65536)?;
    Some(Fault::Corrupt {
        channel,
        bit: bit as u16,
    })
}

/// Returns the one node that the words spell.
#[tactic(auto, unfolding(crate::specs::Reading::node_in))]
fn node_in(words: &mut Words<'_>) -> Option<NodeId>
    ensures { result ≡ node_in words.old }
{
    let node = words.next_word()?;
    words.end()?;
    node_of(node)
}

/// Returns the call of a task that this first word begins.
#[tactic(auto, unfolding(crate::specs::Reading::host_request))]
fn host_request(kind: &[u8], words: &mut Words<'_>) -> Option<Event>
    ensures { result ≡ host_request kind.now words.old }
{
    let node = words.next_word()?;
    let task = words.next_word()?;
    let node = node_of(node)?;
    let task = task_of(task)?;
    let call = call_of(kind, words)?;
    Some(Event::of_call(node, task, call))
}

/// Returns the step of the controller of a node that this word names.
#[tactic(auto, unfolding(crate::specs::Reading::step_of))]
fn step_of(kind: &[u8], node: NodeId) -> Option<Event>
    ensures { result ≡ step_of kind.now node }
{
    if kind == b"look".as_slice() {
        return Some(Event::Look(node));
    }
    if kind == b"fetch".as_slice() {
        return Some(Event::Fetch(node));
    }
    if kind == b"put".as_slice() {
        return Some(Event::Put(node));
    }
    if kind == b"take".as_slice() {
        return Some(Event::Take(node));
    }
    if kind == b"observe".as_slice() {
        return Some(Event::Observe(node));
    }
    None
}

/// Returns the step of a controller that this first word begins.
#[tactic(auto, unfolding(crate::specs::Reading::step_request))]
fn step_request(kind: &[u8], words: &mut Words<'_>) -> Option<Event>
    ensures { result ≡ step_request kind.now words.old }
{
    let node = node_in(words)?;
    step_of(kind, node)
}

/// Returns the fault that this first word begins.
#[tactic(auto, unfolding(crate::specs::Reading::fault_of))]
fn fault_of(kind: &[u8], words: &mut Words<'_>) -> Option<Fault>
    ensures { result ≡ fault_of kind.now words.old }
{
    if kind == b"babble".as_slice() {
        return babble_of(words);
    }
    if kind == b"mute".as_slice() {
        return mute_of(words);
    }
    if kind == b"corrupt".as_slice() {
        return corrupt_of(words);
    }
    None
}

/// Returns the fault that this first word begins, as an event.
#[tactic(auto, unfolding(crate::specs::Reading::fault_request))]
fn fault_request(kind: &[u8], words: &mut Words<'_>) -> Option<Event>
    ensures { result ≡ fault_request kind.now words.old }
{
    let fault = fault_of(kind, words)?;
    Some(Event::Inject(fault))
}

/// Returns whether the word begins a fault.
fn is_fault_word(kind: &[u8]) -> bool
    ensures { result ≡ is_fault_word kind.now }
{
    kind == b"babble".as_slice() || kind == b"mute".as_slice() || kind == b"corrupt".as_slice()
}

/// Returns whether the word begins the step of a controller.
fn is_step_word(kind: &[u8]) -> bool
    ensures { result ≡ is_step_word kind.now }
{
    kind == b"look".as_slice()
        || kind == b"fetch".as_slice()
        || kind == b"put".as_slice()
        || kind == b"take".as_slice()
        || kind == b"observe".as_slice()
}

/// Returns whether the word begins the call of a task.
fn is_host_word(kind: &[u8]) -> bool
    ensures { result ≡ is_host_word kind.now }
{
    kind == b"commit".as_slice()
        || kind == b"withdraw".as_slice()
        || kind == b"read".as_slice()
        || kind == b"pop".as_slice()
}

/// Returns the event that this first word begins.
#[tactic(auto, unfolding(crate::specs::Reading::event_request))]
fn event_request(kind: &[u8], words: &mut Words<'_>) -> Option<Event>
    ensures { result ≡ event_request kind.now words.old }
{
    if is_fault_word(kind) {
        return fault_request(kind, words);
    }
    if is_step_word(kind) {
        return step_request(kind, words);
    }
    host_request(kind, words)
}

/// Returns the receipt of a frame of a receive buffer that the words ask for.
#[tactic(auto, unfolding(crate::specs::Reading::receive_in))]
fn receive_of(words: &mut Words<'_>) -> Option<Request>
    ensures { result ≡ receive_in words.old }
{
    let (node, task, buffer) = words.three()?;
    let node = node_of(node)?;
    let task = task_of(task)?;
    let buffer = buffer_of(buffer)?;
    Some(Request::Receive { node, task, buffer })
}

/// Returns the receipt of the next frame of a receive FIFO that the words ask for.
#[tactic(auto, unfolding(crate::specs::Reading::next_in))]
fn next_of(words: &mut Words<'_>) -> Option<Request>
    ensures { result ≡ next_in words.old }
{
    let (node, task) = words.two()?;
    let node = node_of(node)?;
    let task = task_of(task)?;
    Some(Request::Next { node, task })
}

/// Returns the number of cycles that the words spell, up to 1024.
#[tactic(auto, unfolding(crate::specs::Reading::run_in))]
fn run_of(words: &mut Words<'_>) -> Option<Request>
    ensures { result ≡ run_in words.old }
{
    let cycles = words.next_word()?;
    words.end()?;
    let cycles = number_of(cycles, 1025)?;
    Some(Request::Run(cycles as u16))
}

/// Returns the number of a window that the words spell.
#[tactic(auto, unfolding(crate::specs::Reading::record_in))]
fn record_of(words: &mut Words<'_>) -> Option<Request>
    ensures { result ≡ record_in words.old }
{
    let window = words.next_word()?;
    words.end()?;
    let window = number_of(window, 1 << 32)?;
    Some(Request::Record(window as u32))
}

/// Returns the report that the words ask for.
#[tactic(auto, unfolding(crate::specs::Reading::report_in))]
fn report_of(words: &mut Words<'_>) -> Option<Request>
    ensures { result ≡ report_in words.old }
{
    let node = node_in(words)?;
    Some(Request::Report(node))
}

/// Returns the status counters that the words ask for.
#[tactic(auto, unfolding(crate::specs::Reading::status_in))]
fn status_of(words: &mut Words<'_>) -> Option<Request>
    ensures { result ≡ status_in words.old }
{
    let (node, channel) = words.two()?;
    let node = node_of(node)?;
    let channel = channel_of(channel)?;
    Some(Request::Status(node, channel))
}

/// Returns the trace that the words ask for.
#[tactic(auto, unfolding(crate::specs::Reading::trace_in))]
fn trace_of(words: &mut Words<'_>) -> Option<Request>
    ensures { result ≡ trace_in words.old }
{
    let node = node_in(words)?;
    Some(Request::Trace(node))
}

/// Returns the origin of a frame that the words ask for.
#[tactic(auto, unfolding(crate::specs::Reading::origin_in))]
fn origin_of(words: &mut Words<'_>) -> Option<Request>
    ensures { result ≡ origin_in words.old }
{
    let node = node_in(words)?;
    Some(Request::Origin(node))
}

/// Returns the request of a word that stands alone.
fn alone(words: &Words<'_>, request: Request) -> Option<Request>
    ensures { result ≡ alone words.now request }
{
    words.end()?;
    Some(request)
}

/// Returns the query that this first word begins.
#[tactic(auto, unfolding(crate::specs::Reading::query_request))]
fn query_request(kind: &[u8], words: &mut Words<'_>) -> Option<Request>
    ensures { result ≡ query_request kind.now words.old }
{
    if kind == b"now".as_slice() {
        return alone(words, Request::Now);
    }
    if kind == b"at".as_slice() {
        return alone(words, Request::At);
    }
    if kind == b"report".as_slice() {
        return report_of(words);
    }
    if kind == b"status".as_slice() {
        return status_of(words);
    }
    if kind == b"trace".as_slice() {
        return trace_of(words);
    }
    if kind == b"origin".as_slice() {
        return origin_of(words);
    }
    if kind == b"record".as_slice() {
        return record_of(words);
    }
    None
}

/// Returns the other request that this first word begins.
#[tactic(auto, unfolding(crate::specs::Reading::other_request))]
fn other_request(kind: &[u8], words: &mut Words<'_>) -> Option<Request>
    ensures { result ≡ other_request kind.now words.old }
{
    if kind == b"seal".as_slice() {
        return alone(words, Request::Event(Event::Seal));
    }
    if kind == b"advance".as_slice() {
        return alone(words, Request::Event(Event::Advance));
    }
    if kind == b"window".as_slice() {
        return alone(words, Request::Window);
    }
    if kind == b"cycle".as_slice() {
        return alone(words, Request::Run(1));
    }
    if kind == b"forget".as_slice() {
        return alone(words, Request::Forget);
    }
    if kind == b"run".as_slice() {
        return run_of(words);
    }
    if kind == b"receive".as_slice() {
        return receive_of(words);
    }
    if kind == b"next".as_slice() {
        return next_of(words);
    }
    query_request(kind, words)
}

/// Returns whether the word begins an event that has further words.
fn begins_event(kind: &[u8]) -> bool
    ensures { result ≡ begins_event kind.now }
{
    is_host_word(kind) || is_step_word(kind) || is_fault_word(kind)
}

/// Returns the request of the words.
#[tactic(auto, unfolding(crate::specs::Reading::request_in))]
fn request_in(words: &mut Words<'_>) -> Option<Request>
    ensures { result ≡ request_in words.old }
{
    let kind = words.next_word()?;
    if begins_event(kind) {
        let event = event_request(kind, words)?;
        return Some(Request::Event(event));
    }
    other_request(kind, words)
}

/// Returns the fault lines that the line spells, as a request.
fn faults_in(alloc: Global, line: &[u8]) -> Option<Request>
    ensures { result ≡ with_faults (faults_in line.now) }
{
    match faults_of(alloc, line)? {
        LineFaults::One(line) => Some(Request::Fault(line)),
        LineFaults::Both { a, b } => Some(Request::Faults { a, b }),
    }
}

/// Returns the request of the line, which is given without its line feed.
///
/// `None` if it has more than 1200 bytes, no form of a request, or a number out of its range.
pub fn request_of(alloc: Global, line: &[u8]) -> Option<Request>
    ensures { result ≡ asked_in line.now }
{
    if line.len() > LONGEST_LINE {
        return None;
    }
    let mut words = Words::new(line);
    match request_in(&mut words) {
        Some(request) => Some(request),
        None => faults_in(alloc, line),
    }
}
