//! Recordings of a bus, as laws on every run: `fr_judging` finds nothing in those of runs without faults, and accepts
//! nothing else. The crate has no code: each law is a clause of a function in `laws`, whose body is empty.
//!
//! *(project-defined)* marks a rule of this project, and makes no claim about the standard.
//!
//! # Definitions
//!
//! - `Heard`: the frames of some whole cycles of a channel, by the rules of the cluster alone.
//! - `Alarms`: recordings of such frames, and the law that they have no finding.
//! - `Accepted`: the frames of a recording without findings, and the law that the cluster allows them in whole cycles.
//! - `Offering`: the frames that nodes hand to the bus, and those that are due there.
//! - `Listening`: the frames that a listener receives in the windows of a run without faults of senders.
//! - `Captured`: the record of a frame in a capture.
//! - `Runs`: runs without faults on a channel, their recordings, and the law that these have no finding.
//! - `Files`: the bytes of a capture of such a run.
//! - `ReadBack`: the records of a capture of any bus, as they are read back.
//! - `Pairs`: the packets of both channels window by window, the records of these packets, and the laws.
//! - `Schedule`: the times of slots and cycles, frames that come in time, and the records of such frames.
//! - `Untimed`: the judgement without times beside that with times, and the law that frames in time make no difference.
//! - `TimedRuns`, `Together`: the times of windows and their bounds, recordings and captures within these, and the laws
//!   of one channel and of both.
//! - `Replays`: the cycles and the room that some frames need, the runs without faults in which a listener receives
//!   them, and the two laws.
//!
//! # Laws of one channel, without times
//!
//! - `RunLaws`: in each run without faults on a channel, the frames that a listener receives there are those of whole
//!   cycles. A recording of them has no finding on this channel, without times.
//! - `FileLaws`: a capture of the bus of a run without faults is read as such a recording.
//! - `ReadBackLaws`: a capture is read to its end, and its records are those of all that a listener receives.
//! - `AcceptedLaws`: a whole recording of a channel without findings holds frames that the cluster allows there, cycle
//!   by cycle.
//! - `AlarmLaws`: each channel by itself, without times, has no false alarm.
//! - `SilenceLaws`: a channel without a sender has none, either.
//! - `OfferLaws`: in each static window its owner hands over the frame that is due. So does each node that sends in a
//!   dynamic one.
//! - `ListenLaws`: each frame that a listener receives without faults is due in its window.
//! - `OwnersLaws`: without faults a listener receives a frame in each static window with an owner.
//! - `CaptureLaws`: the record of a frame spells it.
//!
//! # `pairing`: both channels, judged together
//!
//! - `PairLaws`: both laws, `no_alarm_together` for records and `no_alarm_in_file_together` for the capture of the bus.
//! - `QuietLemmas`: channels without a sender, where a law of one channel holds, or nothing is recorded.
//! - `WalkLemmas`, `WindowLemmas`: the judgement, window by window, beside the course of the run; and its end.
//! - `JointLemmas`, `FinishLemmas`: both lanes stay at most a cycle apart, so that neither is silent.
//! - `TwinLemmas`, `BothLemmas`, `OnceLemmas`: the same frame on both channels, where a buffer sends on both.
//! - `SideLemmas`: what a lane has of the other one, which are the frames that it shows and the cycles opened alone.
//! - `ViewLemmas`, `OpeningLemmas`, `GoodLemmas`: one frame that the cluster allows, before any other lane.
//!
//! # `punctual`: judged times
//!
//! - `PunctualLaws`: of frames in time, the judgement has the same findings and counts with times and without.
//! - `RunLaws`: so it has, of records of a run without faults within the bounds of its schedule. Each channel by itself
//!   has no finding.
//! - `FileLaws`: the same of a capture of the bus. Times near the starts of windows keep the schedule: the exact ones
//!   in microseconds, and those rounded down to a microsecond.
//! - `TogetherLaws`: both channels together have no finding with times.
//! - `CalmLemmas`, `StepLemmas`: each step of the judgement does the same without times where the times are right.
//! - `WalkLemmas`, `CourseLemmas`: the references of a channel are on the schedule, frame by frame, record by record.
//! - `WindowLemmas`: the frames of a run are on its schedule, window by window.
//! - `TimeLemmas`, `WorkedLemmas`: the numbers, and some worked out by hand.
//!
//! # `replaying`: runs that leave the frames of a recording
//!
//! - `ReplayLaws`: `are_replayed` holds of all frames that the cluster allows in whole cycles of a channel. By
//!   `nothing_missed` the frames of each whole recording without findings are those of a run without faults.
//! - `WalkLemmas`, `StepLemmas`: the run, window by window, beside the frames that are to follow.
//! - `GoneLemmas`, `SentLemmas`: a window in which nothing passes on the channel, or its owner's null frame; and one in
//!   which a host's frame is sent. The host commits right before this window. After it a commit and a withdraw empty
//!   the buffer, so that a state buffer is silent again.
//! - `SenderLemmas`, `OfferLemmas`: the node and the buffer of what is due in a slot, and the bytes that nodes offer.
#![tactic(auto)]

pub mod laws;
