//! The frame of a slot.

ghost use Rattle.std.specs.Prelude.{◌≡◌, ◌<◌, ◌≤◌, ◌+◌, ◌%◌, None, Some, true};
ghost use Rattle.fr_judging.specs.Judging.{back_line, add_back, back_of, back, shown_in, is_beside, beside, differ};
ghost use Rattle.fr_judging.specs.Judging.{channels_finding, both_finding, show_frame, show, quiet};
ghost use Rattle.fr_judging.specs.Judging.{with_frame, is_fine, plain_came, keep_plain, count_frame, keep_frame, fix};
ghost use Rattle.fr_judging.specs.Judging.{static_with, static_found, static_came};
ghost use Rattle.fr_judging.specs.Judging.{is_placed, placed_finding, dynamic_came, came_with, came, are_equal};
ghost use Rattle.fr_judging.specs.Judging.{with_away};
ghost use Rattle.fr_judging.specs.Counting.{follows};
ghost use Rattle.fr_judging.specs.Rules.{is_sent, due_at};
ghost use Rattle.fr_judging.specs.declared.line.Line.TheVariants.{Back};
ghost use Rattle.fr_logged.specs.Logged.{place_of as frame_place};
ghost use Rattle.std.specs.Option.{option_or, is_none};
ghost use Rattle.fr_judging.specs.Lanes.{same_open, opens_at, after_dynamic};

use crate::distance::{fixed_after, is_timely, time_finding};
use crate::judge::{Judge, Shown, other_channel, place_of as place_of_slot, static_place};
use crate::lane::Lane;
use crate::line::{At, Line};
use crate::tally::{Came, SlotTally, time_frame};
use fr_frame::lent::LentFrame;
use fr_logged::due::Due;
use fr_logged::finding::{Finding, Name};
use fr_logged::record::place_of;
use fr_logged::rules::{dynamic_finding, is_well, minislot_finding, static_finding};
use fr_slots::channel::Channel;
use fr_slots::numbers::Cycle;
use fr_slots::params::Params;

/// The number of cycles that the other channel opens before one is silent.
pub(crate) const SILENCE: u64 = 3;

/// Returns whether the channels have the same cycle open.
#[inline(always)]
pub(crate) fn same_open(one: Option<Cycle>, other: Option<Cycle>) -> bool
    ensures { result ≡ same_open one other }
{
    match (one, other) {
        (Some(one), Some(other)) => one == other,
        _ => false,
    }
}

/// Returns the first of two findings, if there is one.
fn first_of(one: Option<Finding>, other: Option<Finding>) -> Option<Finding>
    ensures { result ≡ option_or one other }
{
    match one {
        Some(finding) => Some(finding),
        None => other,
    }
}

/// Returns whether the bytes are the same.
#[inline(always)]
fn are_equal(one: &[u8], other: &[u8]) -> bool
    ensures { result ≡ are_equal one.now other.now }
{
    one == other
}

/// Returns the finding of a frame beside one on the other channel.
#[inline(always)]
fn differ(frame: &LentFrame<'_>, shown: &Shown) -> Option<Finding>
    ensures { result ≡ differ frame.now (Some shown.now.frame) }
{
    if frame.has_data == shown.frame.has_data() && are_equal(frame.payload, shown.frame.payload()) {
        return None;
    }
    Some(Finding::bare(Name::Channels))
}

/// Returns the minislot at which the slot of a frame opens.
fn opens_at(lane: &Lane, frame: &LentFrame<'_>) -> u64
    ensures { result ≡ opens_at lane.now frame.now }
{
    let slots = u32::from(frame.id).saturating_sub(lane.slot);
    lane.minislot.saturating_add(u64::from(slots))
}

/// Goes on in the dynamic segment, after a frame of so many words.
fn pass_dynamic(params: &Params, lane: &mut Lane, frame: &LentFrame<'_>, words: usize)
    requires { words < 200 }
    ensures { lane.new ≡ after_dynamic params.now lane.old frame.now words }
{
    let opens = opens_at(lane, frame);
    let filled = (words as u16 + 4).div_ceil(params.words_per_minislot);
    lane.slot = u32::from(frame.id) + 1;
    lane.minislot = opens
        .saturating_add(u64::from(filled))
        .saturating_add(u64::from(params.idle));
}

/// Counts a frame with data, or a null frame.
#[inline(always)]
fn count_kind(frame: &LentFrame<'_>, tally: &mut SlotTally)
    ensures { tally.new ≡ with_frame frame.now tally.old }
{
    if frame.has_data {
        tally.data_frames = tally.data_frames.saturating_add(1);
    } else {
        tally.null_frames = tally.null_frames.saturating_add(1);
    }
}

/// Returns whether the frame is like the one on the other channel.
#[inline(always)]
fn is_alike(frame: &LentFrame<'_>, shown: &Shown) -> bool
    ensures { result ≡ is_none (differ frame.now (Some shown.now.frame)) }
{
    differ(frame, shown).is_none()
}

impl Judge {
    /// Counts a slot that came back, and adds its line.
    #[tactic(auto, unfolding(crate::specs::Judging::add_back))]
    fn add_back(&mut self, line: &Line)
        ensures { self.new ≡ add_back self.old line.now }
    {
        self.backs = self.backs.saturating_add(1);
        if self.backs <= self.rules.most {
            self.add_line(line);
        }
    }

    /// Tells a slot that came back for its owner.
    #[tactic(auto, unfolding(crate::specs::Judging::back))]
    #[inline(always)]
    fn back(&mut self, frame: &LentFrame<'_>, at: &At, due: Option<Due>)
        ensures state { self.new ≡ back self.old frame.now at.now due }
        ensures rules { self.new.rules ≡ self.old.rules }
        ensures channel { self.new.channel ≡ self.old.channel }
    {
        if let Some(due) = due {
            let times = self.away_at(u32::from(frame.id), due.node);
            if times != 0 {
                self.come_back(frame, at, due.node, times);
            }
        }
    }

    /// Tells a slot that was missing so often for its owner, and came back.
    #[inline(never)]
    fn come_back(&mut self, frame: &LentFrame<'_>, at: &At, node: u8, times: u64)
        ensures { self.new ≡ add_back (with_away self.old frame.now.id node 0)
            (Back at.now (frame_place self.old.channel frame.now) node times) }
    {
        self.with_away(u32::from(frame.id), node, 0);
        let place = place_of(self.channel, frame);
        self.add_back(&Line::Back(*at, place, node, times));
    }

    /// Returns whether the other channel has the cycle of the frame open.
    #[inline(always)]
    fn is_beside(&self, frame: &LentFrame<'_>) -> bool
        ensures { result ≡ is_beside self.now frame.now }
    {
        same_open(self.other.current, Some(frame.cycle))
            && !(self.other.left || SILENCE <= self.other.alone)
    }

    /// Returns the finding of a frame that isn't like the other channel's.
    #[tactic(auto, unfolding(crate::specs::Judging::channels_finding))]
    fn channels_finding(&self, frame: &LentFrame<'_>, due: Option<Due>) -> Option<Finding>
        ensures { result ≡ channels_finding self.now frame.now due }
    {
        let due = due?;
        if !due.both || !self.is_beside(frame) {
            return None;
        }
        let channel = other_channel(self.channel);
        let shown = &self.shown[static_place(u32::from(frame.id), channel)];
        if shown.opened != self.other.cycles {
            return None;
        }
        differ(frame, shown)
    }

    /// Keeps the frame of a buffer for both channels.
    #[tactic(auto, unfolding(crate::specs::Judging::show))]
    #[inline(always)]
    fn show(&mut self, frame: &LentFrame<'_>, due: Option<Due>)
        ensures state { self.new ≡ show self.old frame.now due }
        ensures rules { self.new.rules ≡ self.old.rules }
        ensures channel { self.new.channel ≡ self.old.channel }
    {
        match due {
            Some(due) if due.both => {
                let place = static_place(u32::from(frame.id), self.channel);
                let opened = self.mine.cycles;
                let shown = &mut self.shown[place];
                shown.opened = opened;
                shown.frame.keep(frame);
            }
            _ => {}
        }
    }

    /// Returns whether none of so many cycles after one has a sender in the slot.
    #[tactic(auto, unfolding(crate::specs::Judging::quiet))]
    #[inline(never)]
    fn quiet(&self, slot: u16, from: Cycle, count: u8) -> bool
        requires { count ≤ 64 }
        ensures { result ≡ quiet self.now slot from count }
    {
        let mut quiet = true;
        for k in 0..count {
            let cycle = Cycle::from_bits((from.number() + k + 1) % 64);
            quiet = quiet && !self.rules.is_sent(slot, self.channel, cycle);
        }
        quiet
    }

    /// Returns whether the frame that came last in the slot was of the due cycle before.
    #[tactic(auto, using(crate::proofs::LoopLemmas::quiet_none))]
    #[inline(always)]
    fn follows(&self, frame: &LentFrame<'_>, latest: &Option<Came>) -> bool
        ensures { result ≡ follows self.now frame.now latest.now }
    {
        let Some(came) = latest else {
            return false;
        };
        let cycles = self.mine.number.saturating_sub(came.number).min(65);
        // The frame before is most often of the cycle before.
        if cycles <= 1 {
            return true;
        }
        self.quiet(frame.id, came.cycle, (cycles as u8).saturating_sub(1))
    }

    /// Counts the frame of a slot that has a sender.
    #[tactic(auto, unfolding(crate::specs::Judging::count_frame), using(crate::proofs::PlainLemmas::timed_is))]
    #[inline(always)]
    fn count_timed(&mut self, frame: &LentFrame<'_>, at: &At)
        requires { is_sent self.old.rules frame.now.id self.old.channel frame.now.cycle ≡ true }
        ensures { self.new ≡ count_frame self.old frame.now at.now }
    {
        let place = place_of_slot(u32::from(frame.id), self.channel);
        let follows = self.follows(frame, &self.slots[place].latest);
        let came = Came {
            number: self.mine.number,
            cycle: frame.cycle,
            time: at.time,
        };
        // The counts stay in their place, since they are longer than all else that is moved for a frame.
        let tally = &mut self.slots[place];
        count_kind(frame, tally);
        time_frame(tally, follows, &came);
    }

    /// Counts the frame of a slot.
    #[tactic(auto, unfolding(crate::specs::Judging::count_frame), using(crate::proofs::PlainLemmas::untimed_is))]
    fn count_frame(&mut self, frame: &LentFrame<'_>, at: &At)
        ensures { self.new ≡ count_frame self.old frame.now at.now }
    {
        if self.rules.is_sent(frame.id, self.channel, frame.cycle) {
            self.count_timed(frame, at);
        } else {
            let place = place_of_slot(u32::from(frame.id), self.channel);
            count_kind(frame, &mut self.slots[place]);
        }
    }

    /// Keeps the frame of a slot.
    fn keep_plain(&mut self, frame: &LentFrame<'_>, at: &At)
        ensures { self.new ≡ keep_plain self.old frame.now at.now }
    {
        self.mine.last = frame.id;
        self.mine.ill = 0;
        self.count_frame(frame, at);
    }

    /// Keeps the frame of a slot that has a sender.
    #[inline(always)]
    fn keep_timed(&mut self, frame: &LentFrame<'_>, at: &At)
        requires { is_sent self.old.rules frame.now.id self.old.channel frame.now.cycle ≡ true }
        ensures { self.new ≡ keep_plain self.old frame.now at.now }
    {
        self.mine.last = frame.id;
        self.mine.ill = 0;
        self.count_timed(frame, at);
    }

    /// Makes the frame of a static slot without a finding the reference for the next one.
    #[inline(always)]
    fn fix_plain(&mut self, frame: &LentFrame<'_>, at: &At)
        ensures { self.new ≡ fix self.old frame.now at.now None }
    {
        // Without times nothing is stored, since the copy of a reference takes as long as the rest.
        if self.rules.macrotick != 0 {
            self.fix_timed(frame, at);
        }
    }

    /// Makes the frame of a static slot without a finding the reference for the next one, where times are judged.
    #[inline(never)]
    fn fix_timed(&mut self, frame: &LentFrame<'_>, at: &At)
        ensures { self.new ≡ fix self.old frame.now at.now None }
    {
        let fixed = fixed_after(&self.rules, &self.mine, frame.id, at.time, None);
        self.mine.fixed = fixed;
    }

    /// Keeps the frame of a slot, and tells its finding.
    #[tactic(auto, unfolding(crate::specs::Judging::keep_frame))]
    fn keep_frame(&mut self, frame: &LentFrame<'_>, at: &At, finding: Option<Finding>)
        ensures { self.new ≡ keep_frame self.old frame.now at.now finding }
    {
        let place = place_of(self.channel, frame);
        self.keep_plain(frame, at);
        self.find_some(&Some(*at), &place, finding);
    }

    /// Returns whether the frame of a static slot isn't unlike the other channel's.
    #[inline(always)]
    fn are_channels_well(&self, frame: &LentFrame<'_>, due: &Due) -> bool
        ensures { result ≡ is_none (both_finding self.now frame.now due.now) }
    {
        if !due.both || !self.is_beside(frame) {
            return true;
        }
        let channel = other_channel(self.channel);
        let shown = &self.shown[static_place(u32::from(frame.id), channel)];
        if shown.opened != self.other.cycles {
            return true;
        }
        is_alike(frame, shown)
    }

    /// Returns whether the frame of a static slot has no finding. It makes none, which would take longer than the rest.
    #[inline(always)]
    fn is_fine(&self, frame: &LentFrame<'_>, at: &At, due: &Option<Due>) -> bool
        ensures { result ≡ is_fine self.now frame.now at.now due.now }
    {
        match due {
            Some(due) => {
                is_well(due, frame)
                    && (self.are_channels_well(frame, due)
                        && is_timely(&self.rules, &self.mine, frame.id, at.time))
            }
            None => false,
        }
    }

    /// Takes the frame of a static slot that has an owner and no finding.
    #[tactic(auto, unfolding(crate::specs::Judging::plain_came))]
    #[inline(always)]
    fn plain_came(&mut self, frame: &LentFrame<'_>, at: &At, due: Option<Due>)
        requires { is_sent self.old.rules frame.now.id self.old.channel frame.now.cycle ≡ true }
        ensures { self.new ≡ plain_came self.old frame.now at.now due }
    {
        self.back(frame, at, due);
        self.show(frame, due);
        self.fix_plain(frame, at);
        self.keep_timed(frame, at);
    }

    /// Takes the frame of a static slot.
    #[tactic(auto, unfolding(crate::specs::Judging::static_came))]
    #[inline(never)]
    fn told_came(&mut self, frame: &LentFrame<'_>, at: &At, due: Option<Due>)
        ensures { self.new ≡ static_came self.old frame.now at.now due }
    {
        let finding = first_of(
            static_finding(&due, frame),
            self.channels_finding(frame, due),
        );
        let wrong = time_finding(&self.rules, &self.mine, frame.id, at.time, finding);
        self.back(frame, at, due);
        self.show(frame, due);
        let fixed = fixed_after(&self.rules, &self.mine, frame.id, at.time, wrong);
        self.mine.fixed = fixed;
        self.keep_frame(frame, at, first_of(finding, wrong));
    }

    /// Takes the frame of a static slot.
    #[tactic(auto, using(crate::proofs::PlainLemmas::plain_is, crate::proofs::SenderLemmas::fine_sent))]
    #[inline(always)]
    fn static_came(&mut self, frame: &LentFrame<'_>, at: &At, due: Option<Due>)
        requires { due ≡ due_at self.old.rules.cluster frame.now.id self.old.channel frame.now.cycle }
        ensures { self.new ≡ static_came self.old frame.now at.now due }
    {
        if self.is_fine(frame, at, &due) {
            self.plain_came(frame, at, due);
        } else {
            self.told_came(frame, at, due);
        }
    }

    /// Returns the finding of the minislot at which the slot of a frame opens.
    #[tactic(auto, unfolding(crate::specs::Judging::placed_finding))]
    fn placed_finding(&self, frame: &LentFrame<'_>, due: Option<Due>) -> Option<Finding>
        ensures { result ≡ placed_finding self.now frame.now due }
    {
        let due = due?;
        if !(self.rules.whole || 1 < self.mine.cycles) {
            return None;
        }
        let minislots = self.rules.cluster.params().minislots;
        minislot_finding(minislots, due.latest, opens_at(&self.mine, frame))
    }

    /// Takes the frame of a dynamic slot.
    #[tactic(auto, unfolding(crate::specs::Judging::dynamic_came))]
    #[inline(never)]
    fn dynamic_came(&mut self, frame: &LentFrame<'_>, at: &At, due: Option<Due>)
        ensures { self.new ≡ dynamic_came self.old frame.now at.now due }
    {
        let finding = first_of(
            dynamic_finding(&due, frame),
            self.placed_finding(frame, due),
        );
        let words = frame.payload.len() / 2;
        pass_dynamic(self.rules.cluster.params(), &mut self.mine, frame, words);
        self.keep_frame(frame, at, finding);
    }

    /// Takes the frame of a slot of the open cycle.
    #[tactic(auto, unfolding(crate::specs::Judging::came))]
    #[inline(always)]
    pub(crate) fn came(&mut self, frame: &LentFrame<'_>, at: &At)
        ensures { self.new ≡ came self.old frame.now at.now }
    {
        if frame.id <= self.rules.cluster.params().static_slots {
            let due = self.static_due(u32::from(frame.id), frame.cycle);
            self.static_came(frame, at, due);
        } else {
            let due = self
                .rules
                .due(u32::from(frame.id), self.channel, frame.cycle);
            self.dynamic_came(frame, at, due);
        }
    }

    /// Takes the first frame of a cycle. It isn't inlined, since the frames after it are far more.
    #[inline(never)]
    pub(crate) fn first_came(&mut self, frame: &LentFrame<'_>, at: &At)
        ensures { self.new ≡ came self.old frame.now at.now }
    {
        self.came(frame, at);
    }
}
