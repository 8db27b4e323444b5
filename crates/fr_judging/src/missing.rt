//! Static slots without a frame.

ghost use Rattle.std.specs.Prelude.{◌≡◌, ◌+◌, ◌≤◌, min, Some};
ghost use Rattle.fr_judging.specs.Judging.{slot_place, count_missing, away_at, with_away, tell_missing, miss_of};
ghost use Rattle.fr_judging.specs.Judging.{miss_due, miss, skip_to, static_end, skip_before, end_in, end_cycle};

use crate::judge::{Judge, away_place};
use crate::line::At;
use fr_frame::lent::LentFrame;
use fr_logged::due::Due;
use fr_logged::finding::{Finding, Name, Place};
use fr_slots::numbers::Cycle;

impl Judge {
    /// Returns the place of a slot in a cycle on the channel.
    fn slot_place(&self, cycle: Cycle, slot: u32) -> Place
        ensures { result ≡ slot_place self.now cycle slot }
    {
        Place {
            cycle: Some(cycle),
            channel: self.channel,
            slot: Some(slot),
        }
    }

    /// Counts a slot without a frame.
    fn count_missing(&mut self, slot: u32)
        ensures { self.new ≡ count_missing self.old slot }
    {
        let mut tally = self.tally_at(slot, self.channel);
        tally.missing = tally.missing.saturating_add(1);
        self.with_tally(slot, self.channel, tally);
    }

    /// Returns how often a slot was missing since the node's last frame.
    #[inline(always)]
    pub(crate) fn away_at(&self, slot: u32, node: u8) -> u64
        ensures { result ≡ away_at self.now slot node }
    {
        self.away[away_place(slot, self.channel, node)]
    }

    /// Replaces that number.
    pub(crate) fn with_away(&mut self, slot: u32, node: u8, times: u64)
        ensures { self.new ≡ with_away self.old slot node times }
    {
        self.away[away_place(slot, self.channel, node)] = times;
    }

    /// Tells a slot that is missing for the first time.
    #[tactic(auto, unfolding(crate::specs::Judging::tell_missing))]
    fn tell_missing(&mut self, at: &Option<At>, cycle: Cycle, slot: u32, node: u8)
        ensures { self.new ≡ tell_missing self.old at.now cycle slot node }
    {
        if self.away_at(slot, node) == 1 {
            let finding = Finding::with_numbers(Name::Missing, u64::from(node), self.mine.ill);
            let place = self.slot_place(cycle, slot);
            self.find(at, &place, finding);
        }
    }

    /// Counts and tells a slot that is missing for a node.
    #[tactic(auto, unfolding(crate::specs::Judging::miss_of))]
    fn miss_of(&mut self, at: &Option<At>, cycle: Cycle, slot: u32, node: u8)
        ensures { self.new ≡ miss_of self.old at.now cycle slot node }
    {
        let times = self.away_at(slot, node).saturating_add(1);
        self.with_away(slot, node, times);
        self.tell_missing(at, cycle, slot, node);
    }

    /// Counts and tells a slot without a frame, if a frame was due.
    #[tactic(auto, unfolding(crate::specs::Judging::miss_due))]
    fn miss_due(&mut self, at: &Option<At>, cycle: Cycle, slot: u32, due: Option<Due>)
        ensures { self.new ≡ miss_due self.old at.now cycle slot due }
    {
        if let Some(due) = due {
            self.count_missing(slot);
            self.miss_of(at, cycle, slot, due.node);
        }
    }

    /// Counts and tells a static slot without a frame.
    #[tactic(auto, unfolding(crate::specs::Judging::miss))]
    fn miss(&mut self, at: &Option<At>, cycle: Cycle, slot: u32)
        ensures { self.new ≡ miss self.old at.now cycle slot }
    {
        let due = self.due(slot, cycle);
        self.miss_due(at, cycle, slot, due);
    }

    /// Counts and tells the static slots without a frame from one on, and before another.
    #[tactic(auto, unfolding(crate::specs::Judging::skip_to))]
    #[inline(never)]
    fn skip_to(&mut self, at: &Option<At>, cycle: Cycle, from: u32, end: u32)
        ensures { self.new ≡ skip_to self.old at.now cycle from end }
    {
        for slot in from..end.max(from) {
            self.miss(at, cycle, slot);
        }
    }

    /// Returns the slot after the last static one.
    fn static_end(&self) -> u32
        ensures { result ≡ static_end self.now }
    {
        self.rules.static_slots() + 1
    }

    /// Counts and tells the static slots without a frame before this one.
    #[tactic(auto, unfolding(crate::specs::Judging::skip_before), using(crate::proofs::LoopLemmas::skip_nothing))]
    #[inline(always)]
    pub(crate) fn skip_before(&mut self, frame: &LentFrame<'_>, at: &At)
        ensures { self.new ≡ skip_before self.old frame.now at.now }
    {
        let from = u32::from(self.mine.last) + 1;
        if from != u32::from(frame.id) {
            self.skip_some(frame, at, from);
        }
    }

    /// Counts and tells the static slots without a frame before this one, from one on.
    #[inline(never)]
    fn skip_some(&mut self, frame: &LentFrame<'_>, at: &At, from: u32)
        ensures { self.new ≡ skip_to self.old (Some at.now) frame.now.cycle from
            (min frame.now.id (static_end self.old)) }
    {
        let end = u32::from(frame.id).min(self.static_end());
        self.skip_to(&Some(*at), frame.cycle, from, end);
    }

    /// Counts and tells the static slots without a frame up to the end of the open cycle.
    #[tactic(auto, unfolding(crate::specs::Judging::end_cycle))]
    pub(crate) fn end_cycle(&mut self, at: &Option<At>)
        ensures { self.new ≡ end_cycle self.old at.now }
    {
        if let Some(cycle) = self.mine.current {
            let from = u32::from(self.mine.last) + 1;
            self.skip_to(at, cycle, from, self.static_end());
        }
    }
}
