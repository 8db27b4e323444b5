//! Findings, as they are counted and told.

ghost use Rattle.std.specs.Prelude.{◌≡◌, ◌≤◌, vec_capacity};
ghost use Rattle.fr_judging.specs.Judging.{with_line, most_lines};
ghost use Rattle.fr_judging.specs.Judging.{add_line, count_name, tally_at, with_tally, count_other, count_place};
ghost use Rattle.fr_judging.specs.Judging.{tell_line, find, find_some, turn};

use crate::judge::{Judge, MOST_LINES, other_channel, place_of};
use crate::line::{At, Line};
use crate::names::{index_of, is_missing};
use crate::tally::SlotTally;
use fr_logged::finding::{Finding, Name, Place};
use fr_slots::channel::Channel;
use std::mem;

/// Appends a line, if there is room for it.
fn keep_line(lines: &mut Vec<Line>, line: &Line)
    requires { most_lines ≤ vec_capacity lines.old }
    ensures value { lines.new.items ≡ with_line lines.old.items line.now }
    ensures room { most_lines ≤ vec_capacity lines.new }
{
    let kept = if lines.len() < MOST_LINES {
        Some(*line)
    } else {
        None
    };
    if let Some(line) = kept {
        lines.push_reserved(line);
    }
}

impl Judge {
    /// Moves a channel to the front.
    #[inline(always)]
    pub(crate) fn turn(&mut self, channel: Channel)
        ensures { self.new ≡ turn self.old channel }
    {
        if self.channel != channel {
            mem::swap(&mut self.mine, &mut self.other);
            self.channel = other_channel(self.channel);
        }
    }

    /// Adds a line of the record.
    #[tactic(auto, unfolding(crate::specs::Judging::add_line))]
    pub(crate) fn add_line(&mut self, line: &Line)
        ensures { self.new ≡ add_line self.old line.now }
    {
        keep_line(&mut self.lines, line);
    }

    /// Counts a finding of this name.
    fn count_name(&mut self, name: Name)
        ensures { self.new ≡ count_name self.old name }
    {
        let place = index_of(name);
        self.found[place] = self.found[place].saturating_add(1);
    }

    /// Returns the counts of a slot on a channel.
    pub(crate) fn tally_at(&self, slot: u32, channel: Channel) -> SlotTally
        ensures { result ≡ tally_at self.now slot channel }
    {
        self.slots[place_of(slot, channel)]
    }

    /// Replaces the counts of a slot on a channel.
    pub(crate) fn with_tally(&mut self, slot: u32, channel: Channel, tally: SlotTally)
        ensures { self.new ≡ with_tally self.old slot channel tally }
    {
        self.slots[place_of(slot, channel)] = tally;
    }

    /// Counts a finding at a slot.
    fn count_other(&mut self, channel: Channel, slot: u32)
        ensures { self.new ≡ count_other self.old channel slot }
    {
        let mut tally = self.tally_at(slot, channel);
        tally.other = tally.other.saturating_add(1);
        self.with_tally(slot, channel, tally);
    }

    /// Counts a finding at its slot, if it has one.
    #[tactic(auto, unfolding(crate::specs::Judging::count_place))]
    fn count_place(&mut self, name: Name, place: &Place)
        ensures { self.new ≡ count_place self.old name place.now place.now.slot }
    {
        if let Some(slot) = place.slot {
            if !is_missing(name) {
                self.count_other(place.channel, slot);
            }
        }
    }

    /// Adds the line of a finding, if not too many of its name were told.
    #[tactic(auto, unfolding(crate::specs::Judging::tell_line))]
    fn tell_line(&mut self, name: Name, line: &Line)
        ensures { self.new ≡ tell_line self.old name line.now }
    {
        if self.found[index_of(name)] <= self.rules.most {
            self.add_line(line);
        }
    }

    /// Counts a finding, and tells it.
    #[tactic(auto, unfolding(crate::specs::Judging::find))]
    pub(crate) fn find(&mut self, at: &Option<At>, place: &Place, finding: Finding)
        ensures { self.new ≡ find self.old at.now place.now finding }
    {
        self.count_name(finding.name);
        self.count_place(finding.name, place);
        self.tell_line(finding.name, &Line::Finding(*at, *place, finding));
    }

    /// Counts and tells a finding, if there is one.
    #[tactic(auto, unfolding(crate::specs::Judging::find_some))]
    pub(crate) fn find_some(&mut self, at: &Option<At>, place: &Place, finding: Option<Finding>)
        ensures { self.new ≡ find_some self.old at.now place.now finding }
    {
        if let Some(finding) = finding {
            self.find(at, place, finding);
        }
    }
}
