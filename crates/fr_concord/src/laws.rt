//! The laws of this crate. Each is the clause of a function without code.
ghost use Rattle.fr_core.specs.Headline.{Headline};
ghost use Rattle.fr_core.specs.Worlds.{WorldState};
ghost use Rattle.fr_concord.specs.Cycles.{AreCallCycles, AreLineCycles, AreSentCycles, AreWindowCycles};
ghost use Rattle.fr_concord.specs.Determined.{AreRunsDetermined, AreSessionsDetermined};
ghost use Rattle.fr_concord.specs.DynamicRows.{AreDynamicTables};
ghost use Rattle.fr_concord.specs.Ends.{AreEndsHeard};
ghost use Rattle.fr_concord.specs.FaultLines.{AreFaultsNumbered, AreOffersUnnumbered};
ghost use Rattle.fr_concord.specs.FaultRuns.{AreSessionsPlayed};
ghost use Rattle.fr_concord.specs.GuardRows.{ArePlansGuards};
ghost use Rattle.fr_concord.specs.Linked.{AreFramesLinked, AreSendersLinked, AreTakersLinked};
ghost use Rattle.fr_concord.specs.Listening.{IsCapturedAlike, IsHeardAlike, IsOwnOrConflict};
ghost use Rattle.fr_concord.specs.Misfits.{AreWrongWords};
ghost use Rattle.fr_concord.specs.PlanRows.{ArePlansTables};
ghost use Rattle.fr_concord.specs.Receivers.{AreBuffersStored, AreQueuesFilled, AreReceiversSame};
ghost use Rattle.fr_concord.specs.Recordings.{HasNoAlarm, HasNoAlarmInTime, IsReadAgain, IsSameCapture};
ghost use Rattle.fr_concord.specs.Replied.{AreWhole};
ghost use Rattle.fr_concord.specs.Rising.{AreCapturesRising};
ghost use Rattle.fr_concord.specs.Spelled.{AreReadAgain};
ghost use Rattle.fr_concord.specs.Starts.{AreCapturedMinislots, AreCapturedSlots, AreMinislotsOfRun, ArePicturedSlots};
ghost use Rattle.fr_concord.specs.Starts.{AreStartsOfRun};

// For the prover: the clause is the law.
/// Two sessions from one state with the same lines have the same replies, and lead to the same state (project-defined).
pub fn sessions_determined()
    ensures { AreSessionsDetermined }
{}

// For the prover: the clause is the law.
/// Two runs of a cluster with the same scenario and number of cycles have the same calls, answers and world
/// (project-defined).
pub fn runs_determined()
    ensures { AreRunsDetermined }
{}

// For the prover: the clause is the law.
/// A session with some fault lines and `run N` leads to the world of the run with these faults (project-defined).
pub fn sessions_played()
    ensures { AreSessionsPlayed }
{}

// For the prover: the clause is the law.
/// Each request of a session in range has a spelling, which is read as this request (project-defined).
pub fn read_again()
    ensures { AreReadAgain }
{}

// For the prover: the clause is the law.
/// Each reply is one line, or `lines K` and exactly K lines after it (project-defined).
pub fn are_whole()
    ensures { AreWhole }
{}

// For the prover: the clause is the law.
/// The lines of `plan` for static slots name exactly the senders of the sender table (project-defined).
pub fn plans_tables()
    ensures { ArePlansTables }
{}

// For the prover: the clause is the law.
/// So do those for dynamic slots (project-defined).
pub fn dynamic_tables()
    ensures { AreDynamicTables }
{}

// For the prover: the clause is the law.
/// The lines of `plan` for guardians have exactly the macroticks that are open to each node (project-defined).
pub fn plans_guards()
    ensures { ArePlansGuards }
{}

// For the prover: the clause is the law.
/// If `why` names a word of a line, each line with the same words up to this one is refused in its place
/// (project-defined).
pub fn wrong_words()
    ensures { AreWrongWords }
{}

// For the prover: the clause is the law.
/// All definitions count one cycle of the run for a window (project-defined).
pub fn window_cycles()
    ensures { AreWindowCycles }
{}

// For the prover: the clause is the law.
/// `commits` names the cycle of the recorded window for a frame that a fetch hands to the bus (project-defined).
pub fn sent_cycles()
    ensures { AreSentCycles }
{}

// For the prover: the clause is the law.
/// `commits` names the cycle of the line for the entry of a call in step with its line (project-defined).
pub fn call_cycles()
    ensures { AreCallCycles }
{}

// For the prover: the clause is the law.
/// In a settled run the call of each line is such a call (project-defined).
pub fn line_cycles()
    ensures { AreLineCycles }
{}

// For the prover: the clause is the law.
/// Static slots have the interval of the layout in the picture of a schedule (project-defined).
pub fn pictured_slots()
    ensures { ArePicturedSlots }
{}

// For the prover: the clause is the law.
/// Static slots begin where the layout has them, in the times of a capture (project-defined).
pub fn captured_slots()
    ensures { AreCapturedSlots }
{}

// For the prover: the clause is the law.
/// So do minislots (project-defined).
pub fn captured_minislots()
    ensures { AreCapturedMinislots }
{}

// For the prover: the clause is the law.
/// Latencies count the same starts of static slots (project-defined).
pub fn starts_of_run()
    ensures { AreStartsOfRun }
{}

// For the prover: the clause is the law.
/// Latencies count the same starts of minislots (project-defined).
pub fn minislots_of_run()
    ensures { AreMinislotsOfRun }
{}

// For the prover: the clause is the law.
/// The observations of a legal interface have rising times, and so have the packets of its capture (project-defined).
pub fn captures_rising()
    ensures { AreCapturesRising }
{}

// For the prover: the clause is the law.
/// A table names exactly the receive buffers that stored the frame of the channel (project-defined).
pub fn buffers_stored()
    ensures { AreBuffersStored }
{}

// For the prover: the clause is the law.
/// A table names the receive FIFO exactly if the observation brings it a frame (project-defined).
pub fn queues_filled()
    ensures { AreQueuesFilled }
{}

// For the prover: the clause is the law.
/// `commits` names the receivers that the table of each node has (project-defined).
pub fn receivers_same()
    ensures { AreReceiversSame }
{}

// For the prover: the clause is the law.
/// A cluster has a link for each slot, channel and cycle in which a transmit buffer sends (project-defined).
pub fn senders_linked()
    ensures { AreSendersLinked }
{}

// For the prover: the clause is the law.
/// What stores an observation of another node on a link's channel is among the receivers of the link (project-defined).
pub fn takers_linked()
    ensures { AreTakersLinked }
{}

// For the prover: the clause is the law.
/// What stores the frame of a transmit buffer is among the receivers of a link of this buffer (project-defined).
pub fn frames_linked()
    ensures { AreFramesLinked }
{}

// For the prover: the clause is the law.
/// A node of which nothing passed observes what the listener does (project-defined).
pub fn is_heard_alike()
    ensures { IsHeardAlike }
{}

// For the prover: the clause is the law.
/// A capture of the bus has the record that the capture of such a node has for the window (project-defined).
pub fn is_captured_alike()
    ensures { IsCapturedAlike }
{}

// For the prover: the clause is the law.
/// A node of which something passed observes its own transmission or a collision (project-defined).
pub fn is_own_or_conflict()
    ensures { IsOwnOrConflict }
{}

// For the prover: the clause is the law.
/// The capture of `fr_view bus` is one in the form of `fr_hearing`, at the times of the windows (project-defined).
pub fn is_same_capture()
    ensures { IsSameCapture }
{}

// For the prover: the clause is the law.
/// It is read to its end, and has the records of all that a listener receives, each with its time (project-defined).
pub fn is_read_again()
    ensures { IsReadAgain }
{}

// For the prover: the clause is the law.
/// In a run without faults it has no finding on either channel by itself, without times (project-defined).
pub fn has_no_alarm()
    ensures { (w : WorldState) → Headline w → HasNoAlarm w }
{}

// For the prover: the clause is the law.
/// Nor has it any with times, on either channel by itself or on both together (project-defined).
pub fn has_no_alarm_in_time()
    ensures { (w : WorldState) → Headline w → HasNoAlarmInTime w }
{}

// For the prover: the clause is the law.
/// Each transmission of a recorded window is heard with the end that `record` and `commits` print (project-defined).
pub fn are_ends_heard()
    ensures { AreEndsHeard }
{}

// For the prover: the clause is the law.
/// In a run that had its faults, each babble and each muted offer has the number of a fault line that brings it
/// (project-defined).
pub fn faults_numbered()
    ensures { AreFaultsNumbered }
{}

// For the prover: the clause is the law.
/// No other transmission has a number (project-defined).
pub fn offers_unnumbered()
    ensures { AreOffersUnnumbered }
{}
