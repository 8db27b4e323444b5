//! An endless session: requests in, and a reply to each before the next is read.
ghost use Rattle.std.specs.Prelude.{◌≡◌, IfErr, OnOk, length};
ghost use Rattle.fr_core.specs.Headline.{Headline};
ghost use Rattle.fr_endless.specs.Alike.{Alike};
ghost use Rattle.fr_endless.specs.Serving.{DoesAlike, DoesAlikeIf, EndsEndless, FailedBy, IsOf, IsUntouched};
ghost use Rattle.fr_endless.specs.Serving.{ServedEndless, TellsUnless, endless_terms};
ghost use Rattle.fr_endless.specs.Taps.{TellsWhole, with_taps};
ghost use Rattle.fr_live.specs.LiveWorlds.{ForEachWorld};
ghost use Rattle.fr_session.specs.Queries.{Replies};
ghost use Rattle.fr_session.specs.Reading.{asked_in};
ghost use Rattle.fr_session.specs.TermsFields.{terms_in};

use crate::error::EndlessError;
use crate::keeping::write_record;
use crate::moving::{finish_cycles, finish_window};
use crate::queries::{
    write_at, write_moved, write_no_history, write_node_report, write_node_status, write_now,
};
use crate::receiving::{receive, take_next};
use crate::taps::Taps;
use crate::telling::step_told;
use crate::world::EndlessWorld;
use fr_playing::moving::window_events;
use fr_schedule::cluster::Cluster;
use fr_session::error::SessionError;
use fr_session::keeping::{keep_both, keep_line};
use fr_session::lines::{Line, next_line};
use fr_session::noted::Noted;
use fr_session::prepared::{BlockWriter, Prepared};
use fr_session::reading::request_of;
use fr_session::replies::{write_answer, write_bad_line, write_done};
use fr_session::request::Request;
use fr_session::session::{Terms, greet};
use std::alloc::Global;
use std::io;
use std::io::{BufRead, Write};

/// The cycles that a fault line can name are 0 to 1023.
const NAMED_CYCLES: u32 = 1_024;

/// The state that a session keeps from line to line: what it notes, and room for a line and for its reply.
#[derive(Drop)]
struct EndlessSession {
    noted: Noted,
    line: Line,
    reply: Prepared,
}

/// Executes the request, and writes the reply.
fn do_request<F: Write + Drop, W: BlockWriter>(
    terms: &Terms<'_>,
    noted: &mut Noted,
    world: &mut EndlessWorld,
    taps: &mut Taps<F>,
    request: Request,
    writer: &mut W,
) -> io::Result<()>
    ensures { Replies W.contents writer.old writer.new result (λ reply. DoesAlike (terms_in terms.now)
        (with_taps world.old taps.old) noted.old request reply (with_taps world.new taps.new) noted.new) }
{
    match request {
        Request::Event(event) => {
            let answer = step_told(world, taps, &event);
            write_answer(writer, &answer)
        }
        Request::Receive { node, task, buffer } => {
            receive(world, taps, noted, node, task, buffer, writer)
        }
        Request::Next { node, task } => take_next(world, taps, noted, node, task, writer),
        Request::Fault(line) => {
            keep_line(terms.cluster, terms.cycles, &mut noted.faults, line, writer)
        }
        Request::Faults { a, b } => {
            keep_both(terms.cluster, terms.cycles, &mut noted.faults, a, b, writer)
        }
        Request::Forget => {
            noted.faults.clear();
            write_done(writer)
        }
        Request::Window => {
            let hindered = finish_window(world, taps, noted.faults.as_slice(), terms.events);
            write_moved(writer, world.bus(), hindered)
        }
        Request::Run(cycles) => {
            let hindered = finish_cycles(
                world,
                taps,
                noted.faults.as_slice(),
                terms.events,
                cycles,
            );
            write_moved(writer, world.bus(), hindered)
        }
        Request::Now => write_now(writer, world.bus()),
        Request::At => write_at(writer, terms.cluster.params(), world.bus()),
        Request::Report(node) => write_node_report(terms.alloc, writer, world, node),
        Request::Status(node, channel) => write_node_status(writer, world, node, channel),
        Request::Trace(_) => write_no_history(writer),
        Request::Origin(_) => write_no_history(writer),
        Request::Record(window) => {
            write_record(terms.alloc, writer, world.bus(), taps.kept(), window)
        }
    }
}

/// Executes the request of the line of this number, and writes the reply.
fn answer_line<F: Write + Drop, W: BlockWriter>(
    terms: &Terms<'_>,
    noted: &mut Noted,
    world: &mut EndlessWorld,
    taps: &mut Taps<F>,
    line: &[u8],
    number: u64,
    writer: &mut W,
) -> io::Result<()>
    ensures { Replies W.contents writer.old writer.new result (λ reply. DoesAlikeIf (terms_in terms.now)
        (with_taps world.old taps.old) noted.old number (asked_in line.now) reply (with_taps world.new taps.new)
        noted.new) }
{
    match request_of(terms.alloc, line) {
        Some(request) => do_request(terms, noted, world, taps, request, writer),
        None => write_bad_line(writer, number),
    }
}

impl EndlessSession {
    ghost use Rattle.std.specs.Prelude.{◌≡◌, None, IfOk, IfErr, OnOk};
    ghost use Rattle.fr_core.specs.Headline.{Headline};
    ghost use Rattle.fr_endless.specs.Serving.{AnswersNextAlike, DoesAlikeIf, EndsBefore, FailedBy, FailsNextAlike};
    ghost use Rattle.fr_endless.specs.Serving.{IsAfterMemory, IsOfLine, KeepsUnlessSent, Served};
    ghost use Rattle.fr_endless.specs.Taps.{ToldBy, with_taps};
    ghost use Rattle.fr_live.specs.LiveWorlds.{ForEachWorld};
    ghost use Rattle.fr_session.specs.Cuts.{Sends};
    ghost use Rattle.fr_session.specs.Reading.{asked_in};
    ghost use Rattle.fr_session.specs.Sessions.{state_of};
    ghost use Rattle.fr_session.specs.TermsFields.{terms_in};

    /// Answers the line that was read, which has this number, and flushes the files and then the reply.
    fn answer<F: Write + Drop, W: Write>(
        &mut self,
        terms: &Terms<'_>,
        world: &mut EndlessWorld,
        taps: &mut Taps<F>,
        number: u64,
        writer: &mut W,
    ) -> Result<(), EndlessError>
        ensures sends { Sends W.contents writer.old writer.new result (λ reply. DoesAlikeIf (terms_in terms.now)
            (with_taps world.old taps.old) self.old.noted number (asked_in self.old.line.items) reply
            (with_taps world.new taps.new) self.new.noted) }
        ensures unsent { KeepsUnlessSent result (W.contents writer.old) (W.contents writer.new) }
        ensures failed { FailedBy result taps.old.failed taps.new.failed }
        ensures line { IfErr result IsOfLine }
    {
        self.reply.clear(terms.alloc);
        let line = self.line.as_slice();
        let answered = answer_line(
            terms,
            &mut self.noted,
            world,
            taps,
            line,
            number,
            &mut self.reply,
        );
        taps.flush();
        if let Some(tap) = taps.failed() {
            return Err(EndlessError::Tap(tap));
        }
        match answered {
            Ok(()) => {}
            Err(_) => return Err(EndlessError::Session(SessionError::Write)),
        }
        match self.reply.send(terms.alloc, writer) {
            Ok(()) => Ok(()),
            Err(_) => Err(EndlessError::Session(SessionError::Write)),
        }
    }

    /// Answers the next line, if there is a whole one. Returns whether there was.
    fn answer_next<F: Write + Drop, R: BufRead, W: Write>(
        &mut self,
        terms: &Terms<'_>,
        world: &mut EndlessWorld,
        taps: &mut Taps<F>,
        number: u64,
        reader: &mut R,
        writer: &mut W,
    ) -> Result<bool, EndlessError>
        requires { taps.old.failed ≡ None }
        ensures answers { IfOk result (λ more. AnswersNextAlike (terms_in terms.now) more (R.remaining reader.old)
            (R.remaining reader.new) (W.contents writer.old) (W.contents writer.new) number
            (with_taps world.old taps.old) self.old.noted (with_taps world.new taps.new) self.new.noted) }
        ensures early { IfErr result (λ error. FailsNextAlike (terms_in terms.now) error (R.remaining reader.old)
            (R.remaining reader.new) (W.contents writer.old) (W.contents writer.new) number
            (with_taps world.old taps.old) self.old.noted (with_taps world.new taps.new) self.new.noted) }
        ensures failed { FailedBy result taps.old.failed taps.new.failed }
    {
        match next_line(reader, &mut self.line) {
            Ok(true) => {}
            Ok(false) => return Ok(false),
            Err(_) => return Err(EndlessError::Session(SessionError::Read)),
        }
        match self.answer(terms, world, taps, number, writer) {
            Ok(()) => Ok(true),
            Err(error) => Err(error),
        }
    }

    /// Writes the first line, and answers each line of the reader.
    fn answer_all<F: Write + Drop, R: BufRead, W: Write>(
        &mut self,
        terms: &Terms<'_>,
        world: &mut EndlessWorld,
        taps: &mut Taps<F>,
        reader: &mut R,
        writer: &mut W,
    ) -> Result<(), EndlessError>
        requires { taps.old.failed ≡ None }
        ensures served { OnOk result (ToldBy terms.now.keep (with_taps world.old taps.old) (λ w v. Served
            (terms_in terms.now) (R.remaining reader.old) (W.contents writer.old) (W.contents writer.new)
            (state_of w self.old.noted) (state_of v self.new.noted)) (with_taps world.new taps.new)) }
        ensures headline { ForEachWorld world.new Headline }
        ensures early { IfErr result (λ error. ToldBy terms.now.keep (with_taps world.old taps.old) (λ w v. EndsBefore
            (terms_in terms.now) error (R.remaining reader.old) (R.remaining reader.new) (W.contents writer.old)
            (W.contents writer.new) (state_of w self.old.noted) (state_of v self.new.noted))
            (with_taps world.new taps.new)) }
        ensures failed { FailedBy result taps.old.failed taps.new.failed }
        ensures stream { IfErr result IsAfterMemory }
    {
        // For the prover: the clause of this call.
        world.known();
        if greet(terms.alloc, &mut self.reply, writer).is_err() {
            return Err(EndlessError::Session(SessionError::Write));
        }
        for number in 1..u64::MAX {
            let answered = self.answer_next(terms, world, taps, number, reader, writer);
            // For the prover: the clause of this call.
            world.known();
            match answered {
                Ok(true) => {}
                Ok(false) => return Ok(()),
                Err(error) => return Err(error),
            }
        }
        // For the prover: the clause of this call.
        world.known();
        Err(EndlessError::Session(SessionError::Read))
    }
}

/// Writes the session's first line, `frworld 1`, and answers each line of the reader, as `fr_session::session::serve`
/// does with a world that keeps its history (project-defined). The cluster must be the world's, and the number of
/// cycles that of the opening of the world.
///
/// Every reply is that of the session with history, with these exceptions. `trace` and `origin` are answered with
/// `refused NoHistory`. `record` answers for the window that was sealed last, and for as many of the last windows as
/// the files have places. A sealed window before these is answered with `refused NotKept`.
///
/// A fault line names cycles 0 to 1023 of the run, or each cycle. It must suit a run of so many cycles, at most 1,024.
/// A line that names each cycle takes effect in all of the run.
///
/// The files get each window that the session seals: the record its lines, and the capture its records, after the
/// header of the capture. The trace of a node gets the line of each entry that the node's journal would have, and `end`
/// at the end of the input. By the time of a reply, the files have been flushed.
///
/// Ends early as that session does. It also ends early with `Tap` if a file fails: before the first line if the header
/// can't be written or a file has failed before, after the last reply if a trace can't be ended, and otherwise in place
/// of the reply to the request that sealed the window or added the entry.
pub fn serve_endless<F: Write + Drop, R: BufRead, W: Write>(
    alloc: Global,
    cluster: &Cluster,
    cycles: u32,
    world: &mut EndlessWorld,
    taps: &mut Taps<F>,
    reader: &mut R,
    writer: &mut W,
) -> Result<(), EndlessError>
    requires { IsOf cluster.now cycles world.old }
    // Each world with its history that leads to the data is served so, and then leads to the data after the session.
    // The files get the windows that it seals, the traces the entries of its journals and their last line.
    ensures served { OnOk result (Alike world.old (λ w v. ServedEndless (endless_terms cluster.now cycles
        (length taps.old.kept)) (R.remaining reader.old) (W.contents writer.old) (W.contents writer.new) w v
        × TellsWhole taps.old taps.new w v) world.new) }
    // A failed allocation ends the session only before its first line.
    ensures memory { IsUntouched result (R.remaining reader.old) (R.remaining reader.new) (W.contents writer.old)
        (W.contents writer.new) (with_taps world.old taps.old) (with_taps world.new taps.new) }
    // If a stream or a file fails, the replies to the lines that were taken are written, but the last one perhaps not,
    // or in part.
    ensures early { IfErr result (λ error. Alike world.old (λ w v. EndsEndless (endless_terms cluster.now
        cycles (length taps.old.kept)) error (R.remaining reader.old) (R.remaining reader.new) (W.contents writer.old)
        (W.contents writer.new) w v × TellsUnless error taps.old taps.new w v) world.new) }
    // Unless a file failed, the files have all of the windows.
    ensures failed { FailedBy result taps.old.failed taps.new.failed }
    ensures headline { ForEachWorld world.new Headline }
{
    let Ok(events) = window_events(alloc, cluster.nodes()) else {
        // For the prover: the clause of this call.
        world.known();
        return Err(EndlessError::Session(SessionError::Memory));
    };
    let terms = Terms {
        alloc,
        events: events.as_slice(),
        cluster,
        cycles: cycles.min(NAMED_CYCLES) as u16,
        keep: taps.kept().len(),
    };
    let Ok(reply) = Prepared::new(alloc) else {
        // For the prover: the clause of this call.
        world.known();
        return Err(EndlessError::Session(SessionError::Memory));
    };
    let Ok(noted) = Noted::new(alloc) else {
        // For the prover: the clause of this call.
        world.known();
        return Err(EndlessError::Session(SessionError::Memory));
    };
    taps.forget();
    taps.begin();
    if let Some(tap) = taps.failed() {
        // For the prover: the clause of this call.
        world.known();
        return Err(EndlessError::Tap(tap));
    }
    let mut session = EndlessSession {
        noted,
        line: Line::new(),
        reply,
    };
    match session.answer_all(&terms, world, taps, reader, writer) {
        Ok(()) => {}
        Err(error) => return Err(error),
    }
    taps.end();
    match taps.failed() {
        Some(tap) => Err(EndlessError::Tap(tap)),
        None => Ok(()),
    }
}
