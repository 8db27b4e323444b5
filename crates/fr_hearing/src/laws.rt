//! The laws of this crate. Each is the clause of a function without code.
ghost use Rattle.fr_core.specs.Headline.{Headline};
ghost use Rattle.fr_core.specs.Worlds.{WorldState};
ghost use Rattle.fr_hearing.specs.Accepted.{AcceptedIsHeard};
ghost use Rattle.fr_hearing.specs.Alarms.{NoAlarmInSilence, NoFalseAlarm, NoFalseAlarmOfBoth};
ghost use Rattle.fr_hearing.specs.Captured.{ReadsBack};
ghost use Rattle.fr_hearing.specs.Files.{NoAlarmInFile, NoAlarmInFileOfBoth};
ghost use Rattle.fr_hearing.specs.Listening.{HeardIsDue, OwnersAreHeard};
ghost use Rattle.fr_hearing.specs.Offering.{OwnersSend, SendersSend};
ghost use Rattle.fr_hearing.specs.Pairs.{NoAlarmInFileTogether, NoAlarmTogether};
ghost use Rattle.fr_hearing.specs.ReadBack.{IsReadBack, TimeIsKept};
ghost use Rattle.fr_hearing.specs.Replays.{AreReplayed, NothingMissed};
ghost use Rattle.fr_hearing.specs.Runs.{ClockIsTold, CyclesAreHeard, FinishedIsComplete, NoAlarmInRun, NoAlarmOfBoth};
ghost use Rattle.fr_hearing.specs.Schedule.{EvenIsTimeline};
ghost use Rattle.fr_hearing.specs.TimedRuns.{NearIsWithin, NearKeepsTime, NoAlarmInExactFile, NoAlarmInTime};
ghost use Rattle.fr_hearing.specs.TimedRuns.{NoAlarmInTimelyFile, RoundedKeepsTime, TimesAddNothing};
ghost use Rattle.fr_hearing.specs.TimedRuns.{TimesAddNothingInFile, WindowsKeepTime};
ghost use Rattle.fr_hearing.specs.Together.{NoAlarmInExactFileTogether, NoAlarmInTimelyFileTogether};
ghost use Rattle.fr_hearing.specs.Together.{NoAlarmTogetherInTime};
ghost use Rattle.fr_hearing.specs.Untimed.{EachIsUntimed, InTimeIsUntimed};

// For the prover: the clause is the law.
/// A recording of a run without faults on a channel has no finding there, judged by itself and without times
/// (project-defined).
pub fn no_alarm_in_run()
    ensures { (w : WorldState) → Headline w → NoAlarmInRun w }
{}

// For the prover: the clause is the law.
/// Neither have both channels together, if the other one has neither a sender nor a record (project-defined).
pub fn no_alarm_of_both()
    ensures { (w : WorldState) → Headline w → NoAlarmOfBoth w }
{}

// For the prover: the clause is the law.
/// A run that is over is complete (project-defined).
pub fn finished_is_complete()
    ensures { (w : WorldState) → Headline w → FinishedIsComplete w }
{}

// For the prover: the clause is the law.
/// In a cluster that isn't refused as `NoClock`, a static slot has an owner in each cycle on a channel with a sender
/// (project-defined).
pub fn clock_is_told()
    ensures { ClockIsTold }
{}

// For the prover: the clause is the law.
/// The capture of a run without faults is read to its end, and has no finding on either channel by itself
/// (project-defined).
pub fn no_alarm_in_file()
    ensures { (w : WorldState) → Headline w → NoAlarmInFile w }
{}

// For the prover: the clause is the law.
/// Neither has it on both channels together, if one alone has a sender (project-defined).
pub fn no_alarm_in_file_of_both()
    ensures { (w : WorldState) → Headline w → NoAlarmInFileOfBoth w }
{}

// For the prover: the clause is the law.
/// The frames that a listener receives in a run without faults are those of whole cycles (project-defined).
pub fn cycles_are_heard()
    ensures { (w : WorldState) → Headline w → CyclesAreHeard w }
{}

// For the prover: the clause is the law.
/// Whole cycles of frames that the cluster allows have no finding on their channel, judged by itself (project-defined).
pub fn no_false_alarm()
    ensures { NoFalseAlarm }
{}

// For the prover: the clause is the law.
/// Neither have both channels, if the other one has neither a sender nor a record (project-defined).
pub fn no_false_alarm_of_both()
    ensures { NoFalseAlarmOfBoth }
{}

// For the prover: the clause is the law.
/// A channel without a sender and without records has no finding (project-defined).
pub fn no_alarm_in_silence()
    ensures { NoAlarmInSilence }
{}

// For the prover: the clause is the law.
/// A whole recording without findings on a channel has whole cycles of frames that the cluster allows there
/// (project-defined).
pub fn accepted_is_heard()
    ensures { AcceptedIsHeard }
{}

// For the prover: the clause is the law.
/// The capture of a bus is read to its end, and has the records of all that a listener receives (project-defined).
pub fn is_read_back()
    ensures { IsReadBack }
{}

// For the prover: the clause is the law.
/// The time of a record is exact for 2^32 seconds (project-defined).
pub fn time_is_kept()
    ensures { TimeIsKept }
{}

// For the prover: the clause is the law.
/// In each static window that a node owns, it hands over the frame that is due (project-defined).
pub fn owners_send()
    ensures { OwnersSend }
{}

// For the prover: the clause is the law.
/// Each frame that a node hands over in a dynamic window is one that is due there (project-defined).
pub fn senders_send()
    ensures { SendersSend }
{}

// For the prover: the clause is the law.
/// Without faults on a channel, each frame that a listener receives there is due in its window (project-defined).
pub fn heard_is_due()
    ensures { (w : WorldState) → Headline w → HeardIsDue w }
{}

// For the prover: the clause is the law.
/// In each static window with an owner on such a channel, a listener receives a frame (project-defined).
pub fn owners_are_heard()
    ensures { (w : WorldState) → Headline w → OwnersAreHeard w }
{}

// For the prover: the clause is the law.
/// The record of a frame that was sent spells this frame (project-defined).
pub fn reads_back()
    ensures { ReadsBack }
{}

// For the prover: the clause is the law.
/// In a run without faults both channels together have no finding, without times (project-defined).
pub fn no_alarm_together()
    ensures { (w : WorldState) → Headline w → NoAlarmTogether w }
{}

// For the prover: the clause is the law.
/// Neither have they in the capture of such a run's bus, with any times (project-defined).
pub fn no_alarm_in_file_together()
    ensures { (w : WorldState) → Headline w → NoAlarmInFileTogether w }
{}

// For the prover: the clause is the law.
/// Of frames in time, the judgement has the same state with times and without, after each record (project-defined).
pub fn each_is_untimed()
    ensures { EachIsUntimed }
{}

// For the prover: the clause is the law.
/// So it has at the end (project-defined).
pub fn in_time_is_untimed()
    ensures { InTimeIsUntimed }
{}

// For the prover: the clause is the law.
/// Without drift, a slack of a quarter of a static slot is little enough (project-defined).
pub fn even_is_timeline()
    ensures { EvenIsTimeline }
{}

// For the prover: the clause is the law.
/// Of a run without faults, the judgement has a finding with times exactly if it has one without (project-defined).
pub fn times_add_nothing()
    ensures { (w : WorldState) → Headline w → TimesAddNothing w }
{}

// For the prover: the clause is the law.
/// A recording of such a run has no finding on a channel by itself, with times (project-defined).
pub fn no_alarm_in_time()
    ensures { (w : WorldState) → Headline w → NoAlarmInTime w }
{}

// For the prover: the clause is the law.
/// A time near the start of a window is within the bounds of the window (project-defined).
pub fn near_is_within()
    ensures { NearIsWithin }
{}

// For the prover: the clause is the law.
/// A clock that is near the start of each window keeps the schedule (project-defined).
pub fn near_keeps_time()
    ensures { NearKeepsTime }
{}

// For the prover: the clause is the law.
/// The capture of a run without faults has no finding on a channel by itself, with near times (project-defined).
pub fn no_alarm_in_timely_file()
    ensures { (w : WorldState) → Headline w → NoAlarmInTimelyFile w }
{}

// For the prover: the clause is the law.
/// That capture has a finding with times exactly if it has one without (project-defined).
pub fn times_add_nothing_in_file()
    ensures { (w : WorldState) → Headline w → TimesAddNothingInFile w }
{}

// For the prover: the clause is the law.
/// The exact times of the windows keep the schedule of each run (project-defined).
pub fn windows_keep_time()
    ensures { (w : WorldState) → Headline w → WindowsKeepTime w }
{}

// For the prover: the clause is the law.
/// A capture with these times has no finding on a channel by itself, with a macrotick of 1000 nanoseconds
/// (project-defined).
pub fn no_alarm_in_exact_file()
    ensures { (w : WorldState) → Headline w → NoAlarmInExactFile w }
{}

// For the prover: the clause is the law.
/// A clock that rounds down to a microsecond keeps a schedule whose slack is 999 nanoseconds or more (project-defined).
pub fn rounded_keeps_time()
    ensures { RoundedKeepsTime }
{}

// For the prover: the clause is the law.
/// In a run without faults both channels together have no finding, with times (project-defined).
pub fn no_alarm_together_in_time()
    ensures { (w : WorldState) → Headline w → NoAlarmTogetherInTime w }
{}

// For the prover: the clause is the law.
/// Neither have they in the capture of such a run's bus, with near times (project-defined).
pub fn no_alarm_in_timely_file_together()
    ensures { (w : WorldState) → Headline w → NoAlarmInTimelyFileTogether w }
{}

// For the prover: the clause is the law.
/// Neither have they in that with the exact times of the windows (project-defined).
pub fn no_alarm_in_exact_file_together()
    ensures { (w : WorldState) → Headline w → NoAlarmInExactFileTogether w }
{}

// For the prover: the clause is the law.
/// Frames that the cluster allows in whole cycles of a channel are those of some run without faults (project-defined).
pub fn are_replayed()
    ensures { AreReplayed }
{}

// For the prover: the clause is the law.
/// A whole recording without findings on a channel with a sender has the frames of some run without faults
/// (project-defined).
pub fn nothing_missed()
    ensures { NothingMissed }
{}
