//! A session: requests in, and a reply to each before the next is read.
ghost use Rattle.std.specs.Prelude.{◌≡◌, IfErr, OnOk};
ghost use Rattle.fr_core.specs.Headline.{Headline};
ghost use Rattle.fr_session.specs.Cuts.{EndsWorld, Hands};
ghost use Rattle.fr_session.specs.Queries.{Replies};
ghost use Rattle.fr_session.specs.Replies.{greeting};
ghost use Rattle.fr_session.specs.Sessions.{DoesRequest, DoesIf, IsOf, IsUntouched, ServedWorld, state_of};
ghost use Rattle.fr_session.specs.Reading.{asked_in};
ghost use Rattle.fr_session.specs.TermsFields.{terms_in};

use crate::error::SessionError;
use crate::keeping::{keep_both, keep_line};
use crate::lines::{Line, next_line};
use crate::noted::Noted;
use crate::prepared::{BlockWriter, Prepared};
use crate::queries::{
    write_at, write_moved, write_node_origin, write_node_report, write_node_status,
    write_node_trace, write_now, write_recorded,
};
use crate::reading::request_of;
use crate::receiving::{receive, take_next};
use crate::replies::{write_answer, write_bad_line, write_done, write_greeting};
use crate::request::Request;
use fr_core::event::Event;
use fr_core::world::World;
use fr_playing::moving::{finish_cycles, finish_window, window_events};
use fr_schedule::cluster::Cluster;
use std::alloc::Global;
use std::io;
use std::io::{BufRead, Write};

/// The terms of a session.
#[derive(Clone, Copy)]
pub struct Terms<'a> {
    /// The memory that reports, traces and windows of the record take.
    pub alloc: Global,
    /// All events that can be due in a window.
    pub events: &'a [Event],
    /// The cluster that fault lines have to suit.
    pub cluster: &'a Cluster,
    /// The number of cycles of the run.
    pub cycles: u16,
    /// The number of sealed windows for which a session without history keeps the lines of the record. A session with
    /// history keeps all.
    pub keep: usize,
}

/// The state that a session keeps from line to line: what it notes, and room for a line and for its reply.
#[derive(Drop)]
struct Session {
    noted: Noted,
    line: Line,
    reply: Prepared,
}

/// Executes the request, and writes the reply.
fn do_request<W: BlockWriter>(
    terms: &Terms<'_>,
    noted: &mut Noted,
    world: &mut World,
    request: Request,
    writer: &mut W,
) -> io::Result<()>
    ensures { Replies W.contents writer.old writer.new result (λ reply. DoesRequest (terms_in terms.now)
        (state_of world.old noted.old) request reply (state_of world.new noted.new)) }
{
    match request {
        Request::Event(event) => {
            let answer = world.step(&event);
            write_answer(writer, &answer)
        }
        Request::Receive { node, task, buffer } => {
            receive(world, noted, node, task, buffer, writer)
        }
        Request::Next { node, task } => take_next(world, noted, node, task, writer),
        Request::Fault(line) => {
            keep_line(terms.cluster, terms.cycles, &mut noted.faults, line, writer)
        }
        Request::Faults { a, b } => {
            keep_both(terms.cluster, terms.cycles, &mut noted.faults, a, b, writer)
        }
        Request::Forget => {
            noted.faults.clear();
            write_done(writer)
        }
        Request::Window => {
            let hindered = finish_window(world, noted.faults.as_slice(), terms.events);
            write_moved(writer, world.bus(), hindered)
        }
        Request::Run(cycles) => {
            let hindered = finish_cycles(world, noted.faults.as_slice(), terms.events, cycles);
            write_moved(writer, world.bus(), hindered)
        }
        Request::Now => write_now(writer, world.bus()),
        Request::At => write_at(writer, terms.cluster.params(), world.bus()),
        Request::Report(node) => write_node_report(terms.alloc, writer, world, node),
        Request::Status(node, channel) => write_node_status(writer, world, node, channel),
        Request::Trace(node) => write_node_trace(terms.alloc, writer, world, node),
        Request::Origin(node) => write_node_origin(writer, world, node),
        Request::Record(window) => write_recorded(terms.alloc, writer, world.bus(), window),
    }
}

/// Executes the request of the line of this number, and writes the reply.
fn answer_line<W: BlockWriter>(
    terms: &Terms<'_>,
    noted: &mut Noted,
    world: &mut World,
    line: &[u8],
    number: u64,
    writer: &mut W,
) -> io::Result<()>
    ensures { Replies W.contents writer.old writer.new result (λ reply. DoesIf (terms_in terms.now)
        (state_of world.old noted.old) number (asked_in line.now) reply
        (state_of world.new noted.new)) }
{
    match request_of(terms.alloc, line) {
        Some(request) => do_request(terms, noted, world, request, writer),
        None => write_bad_line(writer, number),
    }
}

/// Writes the first line, and flushes. If that fails, the writer has got a front of it.
pub fn greet<W: Write>(alloc: Global, reply: &mut Prepared, writer: &mut W) -> io::Result<()>
    ensures { Hands W.contents writer.old writer.new result greeting }
{
    reply.clear(alloc);
    write_greeting(reply)?;
    reply.send(alloc, writer)
}

impl Session {
    ghost use Rattle.std.specs.Prelude.{◌≡◌, IfOk, IfErr, OnOk};
    ghost use Rattle.fr_core.specs.Headline.{Headline};
    ghost use Rattle.fr_session.specs.Cuts.{EndsEarly, FailsNext, Sends};
    ghost use Rattle.fr_session.specs.Reading.{asked_in};
    ghost use Rattle.fr_session.specs.Sessions.{AnswersNext, Does, DoesIf, IsOfStream, Served, Serves, state_of};
    ghost use Rattle.fr_session.specs.TermsFields.{terms_in};

    /// Answers the line that was read, which has this number, and flushes the reply.
    fn answer<W: Write>(
        &mut self,
        terms: &Terms<'_>,
        world: &mut World,
        number: u64,
        writer: &mut W,
    ) -> io::Result<()>
        ensures { Sends W.contents writer.old writer.new result (λ reply. DoesIf (terms_in terms.now)
            (state_of world.old self.old.noted) number (asked_in self.old.line.items) reply
            (state_of world.new self.new.noted)) }
    {
        self.reply.clear(terms.alloc);
        let line = self.line.as_slice();
        answer_line(terms, &mut self.noted, world, line, number, &mut self.reply)?;
        self.reply.send(terms.alloc, writer)
    }

    /// Answers the next line, if there is a whole one. Returns whether there was.
    fn answer_next<R: BufRead, W: Write>(
        &mut self,
        terms: &Terms<'_>,
        world: &mut World,
        number: u64,
        reader: &mut R,
        writer: &mut W,
    ) -> Result<bool, SessionError>
        ensures answers { IfOk result (λ more. AnswersNext (terms_in terms.now) more (R.remaining reader.old)
            (R.remaining reader.new) (W.contents writer.old) (W.contents writer.new) number
            (state_of world.old self.old.noted) (state_of world.new self.new.noted)) }
        ensures early { IfErr result (λ error. FailsNext (Does (terms_in terms.now)) (Serves (terms_in terms.now))
            error (R.remaining reader.old) (R.remaining reader.new) (W.contents writer.old) (W.contents writer.new)
            number (state_of world.old self.old.noted) (state_of world.new self.new.noted)) }
    {
        match next_line(reader, &mut self.line) {
            Ok(true) => {}
            Ok(false) => return Ok(false),
            Err(_) => return Err(SessionError::Read),
        }
        match self.answer(terms, world, number, writer) {
            Ok(()) => Ok(true),
            Err(_) => Err(SessionError::Write),
        }
    }

    /// Writes the first line, and answers each line of the reader.
    fn answer_all<R: BufRead, W: Write>(
        &mut self,
        terms: &Terms<'_>,
        world: &mut World,
        reader: &mut R,
        writer: &mut W,
    ) -> Result<(), SessionError>
        ensures served { OnOk result (Served (terms_in terms.now) (R.remaining reader.old) (W.contents writer.old)
            (W.contents writer.new) (state_of world.old self.old.noted)
            (state_of world.new self.new.noted)) }
        ensures headline { Headline world.new }
        ensures early { IfErr result (λ error. EndsEarly (Does (terms_in terms.now)) (Serves (terms_in terms.now))
            error (R.remaining reader.old) (R.remaining reader.new) (W.contents writer.old) (W.contents writer.new)
            (state_of world.old self.old.noted) (state_of world.new self.new.noted)) }
        ensures stream { IfErr result IsOfStream }
    {
        // For the prover: the clause of this call.
        world.known();
        if greet(terms.alloc, &mut self.reply, writer).is_err() {
            return Err(SessionError::Write);
        }
        for number in 1..u64::MAX {
            let answered = self.answer_next(terms, world, number, reader, writer);
            // For the prover: the clause of this call.
            world.known();
            match answered {
                Ok(true) => {}
                Ok(false) => return Ok(()),
                Err(error) => return Err(error),
            }
        }
        // For the prover: the clause of this call.
        world.known();
        Err(SessionError::Read)
    }
}

/// Writes the session's first line, `frworld 1`, and answers each line of the reader (project-defined).
///
/// Each line is answered before the next is read, and the writer is flushed after each reply. A line that is no
/// request, or has more than 1200 bytes before its line feed, is answered with `refused BadLine N`, N its number from
/// 1, and changes nothing. Text after the last line feed is no request, and is neither executed nor answered.
///
/// A fault line, as a scenario of version 3 spells it without names, is kept. Its fault takes effect in each window
/// that the line names and that `window`, `cycle` or `run` executes from then on, if the window isn't sealed yet. The
/// request `forget` ends all lines. A line that a run of the cluster couldn't have beside those that are kept is
/// answered with `refused BadFault N`, N the number of those. A line for both channels is that of A and then that of B,
/// of which both are kept or neither is. The cluster must be the world's, and the number of cycles that of the opening
/// of the world.
///
/// `receive` makes the step of `read`, and `next` that of `pop`. Their replies also have the channel on which the frame
/// came, the cycle of the run, and `new` or `old`. A frame of a buffer is old if the last `receive` of this buffer of
/// the node returned it, whatever the task. A frame of the receive FIFO is always new.
///
/// Ends early with `Memory` if an allocation for the session itself fails, before anything is read or written. Ends
/// early with `Read` if the reader fails, and with `Write` if the writer does, which may have taken a part of a reply.
///
/// A later failed allocation is answered: `refused Bus Memory` for a seal, `refused Memory` for a fault line, a report,
/// a trace or a window of the record.
pub fn serve<R: BufRead, W: Write>(
    alloc: Global,
    cluster: &Cluster,
    cycles: u16,
    world: &mut World,
    reader: &mut R,
    writer: &mut W,
) -> Result<(), SessionError>
    requires { IsOf cluster.now cycles world.old }
    // It writes the first line and then the reply to each line, in order, by the definition of events.
    ensures served { OnOk result (ServedWorld (R.remaining reader.old) (W.contents writer.old)
        (W.contents writer.new) world.old world.new) }
    // A failed allocation ends the session only before its first line.
    ensures memory { IsUntouched result (R.remaining reader.old) (R.remaining reader.new) (W.contents writer.old)
        (W.contents writer.new) world.old world.new }
    // If a stream fails, the replies to the lines that were taken are written, the last one perhaps in part.
    ensures early { IfErr result (λ error. EndsWorld error (R.remaining reader.old) (R.remaining reader.new)
        (W.contents writer.old) (W.contents writer.new) world.old world.new) }
    ensures headline { Headline world.new }
{
    let Ok(events) = window_events(alloc, cluster.nodes()) else {
        // For the prover: the clause of this call.
        world.known();
        return Err(SessionError::Memory);
    };
    // A world has its cluster and cycles, but doesn't return them, so they are given, and required to be its own.
    let terms = Terms {
        alloc,
        events: events.as_slice(),
        cluster,
        cycles,
        keep: 0,
    };
    let Ok(reply) = Prepared::new(alloc) else {
        // For the prover: the clause of this call.
        world.known();
        return Err(SessionError::Memory);
    };
    let Ok(noted) = Noted::new(alloc) else {
        // For the prover: the clause of this call.
        world.known();
        return Err(SessionError::Memory);
    };
    let mut session = Session {
        noted,
        line: Line::new(),
        reply,
    };
    session.answer_all(&terms, world, reader, writer)
}
