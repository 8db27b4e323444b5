//! Frames that open a cycle.

ghost use Rattle.std.specs.Prelude.{◌≡◌, ◌≤◌, ◌<◌, ◌^◌};
ghost use Rattle.fr_judging.specs.Judging.{leave, silent_place, count_word, tell_silent, with_alone, listen};
ghost use Rattle.fr_judging.specs.Judging.{open_first};
ghost use Rattle.fr_judging.specs.Judging.{tell_gap, enter, open_after, open_next, open_cycle};
ghost use Rattle.fr_judging.specs.Lanes.{begun, passed};
ghost use Rattle.fr_judging.specs.Rules.{are_both};

use crate::came::{SILENCE, same_open};
use crate::distance::{Distance, distance_to};
use crate::judge::{Judge, other_channel};
use crate::lane::Lane;
use crate::line::At;
use crate::tally::span_between;
use fr_frame::lent::LentFrame;
use fr_logged::finding::{Finding, Name, Place, Word};
use fr_logged::record::place_of;
use fr_slots::channel::Channel;
use fr_slots::numbers::Cycle;
use fr_slots::params::Params;

/// Opens a cycle on a channel, which has no frame yet.
fn begin(params: &Params, lane: &mut Lane, frame: &LentFrame<'_>, at: &At)
    ensures { lane.new ≡ begun params.now lane.old frame.now at.now }
{
    lane.cycles = lane.cycles.saturating_add(1);
    lane.current = Some(frame.cycle);
    lane.began = at.time;
    lane.first = frame.id;
    lane.last = 0;
    lane.fixed = None;
    lane.slot = u32::from(params.static_slots) + 1;
    lane.minislot = 1;
}

/// Goes so many cycles on.
fn pass(lane: &mut Lane, at: &At, past: u128)
    ensures { lane.new ≡ passed lane.old at.now past }
{
    if past == 1 {
        lane.span = span_between(lane.span, lane.began, at.time);
    } else {
        lane.gaps = lane.gaps.saturating_add(1);
        lane.lost = lane.lost.saturating_add(past.saturating_sub(1));
    }
    lane.number = lane.number.saturating_add(past);
}

/// Returns the word of a cycle count, if there is one.
pub(crate) fn count_word(cycle: Option<Cycle>) -> Word
    ensures { result ≡ count_word cycle }
{
    match cycle {
        Some(cycle) => Word::number(u64::from(cycle.number())),
        None => Word::Absent,
    }
}

impl Judge {
    /// Leaves the open cycle. If the other channel has it open too, that one is behind.
    #[tactic(auto, unfolding(crate::specs::Judging::leave))]
    fn leave(&mut self)
        ensures { self.new ≡ leave self.old }
    {
        let same = same_open(self.mine.current, self.other.current) && !self.mine.left;
        self.other.left = self.other.left || same;
        self.mine.left = false;
    }

    /// Tells that the other channel fell silent, after three cycles.
    #[tactic(auto, unfolding(crate::specs::Judging::tell_silent))]
    fn tell_silent(&mut self, frame: &LentFrame<'_>, at: &At)
        ensures { self.new ≡ tell_silent self.old frame.now at.now }
    {
        if self.other.alone != SILENCE {
            return;
        }
        let place = Place {
            cycle: None,
            channel: other_channel(self.channel),
            slot: None,
        };
        let finding = Finding {
            name: Name::Silent,
            expected: Word::number(u64::from(frame.cycle.number())),
            found: count_word(self.other.current),
        };
        self.find(&Some(*at), &place, finding);
    }

    /// Counts a cycle that was opened without a word of the other channel.
    #[tactic(auto, unfolding(crate::specs::Judging::listen))]
    fn listen(&mut self, frame: &LentFrame<'_>, at: &At)
        ensures { self.new ≡ listen self.old frame.now at.now }
    {
        if self.rules.are_both() && self.other.spoke < at.number {
            self.other.alone = self.other.alone.saturating_add(1);
            self.tell_silent(frame, at);
        }
    }

    /// Opens the first cycle of the channel.
    #[tactic(auto, unfolding(crate::specs::Judging::open_first))]
    fn open_first(&mut self, frame: &LentFrame<'_>, at: &At)
        ensures { self.new ≡ open_first self.old frame.now at.now }
    {
        begin(self.rules.cluster.params(), &mut self.mine, frame, at);
        if self.rules.whole {
            self.skip_before(frame, at);
        }
        self.listen(frame, at);
        self.first_came(frame, at);
    }

    /// Tells the cycles between, if there are some.
    #[tactic(auto, unfolding(crate::specs::Judging::tell_gap))]
    fn tell_gap(&mut self, frame: &LentFrame<'_>, at: &At, past: u128)
        requires { past < 2 ^ 127 }
        ensures { self.new ≡ tell_gap self.old frame.now at.now past }
    {
        if past == 1 {
            return;
        }
        let finding = Finding {
            name: Name::Gap,
            expected: Word::Absent,
            found: Word::Number(past.saturating_sub(1) as i128),
        };
        self.find(&Some(*at), &place_of(self.channel, frame), finding);
    }

    /// Opens a cycle so far after the one before.
    #[tactic(auto, unfolding(crate::specs::Judging::open_after))]
    fn open_after(&mut self, frame: &LentFrame<'_>, at: &At, distance: Distance)
        requires { distance.past < 2 ^ 127 }
        ensures { self.new ≡ open_after self.old frame.now at.now distance }
    {
        let place = place_of(self.channel, frame);
        self.leave();
        pass(&mut self.mine, at, distance.past);
        begin(self.rules.cluster.params(), &mut self.mine, frame, at);
        self.skip_before(frame, at);
        self.tell_gap(frame, at, distance.past);
        self.find_some(&Some(*at), &place, distance.clock);
        self.listen(frame, at);
        self.first_came(frame, at);
    }

    /// Opens a cycle, which closes the one before.
    #[tactic(auto, unfolding(crate::specs::Judging::open_cycle))]
    #[inline(never)]
    pub(crate) fn open_cycle(&mut self, frame: &LentFrame<'_>, at: &At)
        ensures { self.new ≡ open_cycle self.old frame.now at.now }
    {
        if self.mine.current.is_none() {
            self.open_first(frame, at);
        } else {
            self.end_cycle(&Some(*at));
            let distance = distance_to(&self.rules, &self.mine, frame, at.time);
            self.open_after(frame, at, distance);
        }
    }
}
