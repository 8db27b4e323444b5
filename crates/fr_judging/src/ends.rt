//! The start and the end of a recording.

ghost use Rattle.std.specs.Prelude.{◌≡◌, IfOk, length};
ghost use Rattle.fr_judging.specs.Judging.{fresh, none_shown, no_counts, none_away, none_found, lane_on};
ghost use Rattle.fr_judging.specs.Judging.{tally_at, found_of, has_finding};
ghost use Rattle.fr_judging.specs.Judging.{says_nothing, tell_nothing, tell_end, finish_channel, finish_on, finish};

use crate::came::SILENCE;
use crate::dues::all_dues;
use crate::judge::{AWAY_PLACES, Judge, MOST_LINES, STATIC_PLACES, Shown};
use crate::kept::KeptFrame;
use crate::lane::Lane;
use crate::line::Line;
use crate::names::{NAMES, index_of};
use crate::rules::Rules;
use crate::tally::{SlotTally, no_counts};
use fr_logged::finding::{Finding, Name};
use fr_slots::channel::Channel;
use std::alloc::{AllocError, Global};

/// Returns the places for the frames of static slots, without a frame.
fn none_shown(alloc: Global) -> Result<Vec<Shown>, AllocError>
    ensures value { IfOk result (λ shown. shown.items ≡ none_shown) }
    ensures whole { IfOk result (λ shown. length shown.items ≡ 2048) }
{
    let mut shown = Vec::with_capacity(alloc, STATIC_PLACES)?;
    for place in 0..STATIC_PLACES {
        shown.push(Shown {
            opened: 0,
            frame: KeptFrame::none(),
        })?;
    }
    Ok(shown)
}

/// Returns the numbers of missing slots, before the first record.
fn none_away(alloc: Global) -> Result<Vec<u64>, AllocError>
    ensures value { IfOk result (λ away. away.items ≡ none_away) }
    ensures whole { IfOk result (λ away. length away.items ≡ 32768) }
{
    Ok(vec![in alloc; 0; AWAY_PLACES]?)
}

/// Returns the numbers of findings, before the first record.
fn none_found(alloc: Global) -> Result<Vec<u64>, AllocError>
    ensures value { IfOk result (λ found. found.items ≡ none_found) }
    ensures whole { IfOk result (λ found. length found.items ≡ 28) }
{
    Ok(vec![in alloc; 0; NAMES]?)
}

impl Judge {
    /// Returns a judge before the first record. All its memory is taken here.
    #[tactic(auto, unfolding(crate::specs::Judging::fresh))]
    pub fn new(alloc: Global, rules: Rules) -> Result<Judge, AllocError>
        ensures { IfOk result (λ judge. judge ≡ fresh rules) }
    {
        let dues = all_dues(alloc, &rules)?;
        Ok(Judge {
            rules,
            dues,
            mine: Box::new(alloc, Lane::new())?,
            other: Box::new(alloc, Lane::new())?,
            channel: Channel::A,
            slots: no_counts(alloc)?,
            away: none_away(alloc)?,
            shown: none_shown(alloc)?,
            lines: Vec::with_capacity(alloc, MOST_LINES)?,
            found: none_found(alloc)?,
            backs: 0,
            records: 0,
            foreign: 0,
            symbols: 0,
        })
    }

    /// Returns the rules of the judgement.
    pub fn rules(&self) -> &Rules
        ensures { result.now ≡ self.now.rules }
    {
        &self.rules
    }

    /// Returns a channel.
    pub fn lane(&self, channel: Channel) -> &Lane
        ensures { result.now ≡ lane_on self.now channel }
    {
        if self.channel == channel {
            &self.mine
        } else {
            &self.other
        }
    }

    /// Returns the counts of a slot on a channel.
    pub fn tally(&self, slot: u32, channel: Channel) -> SlotTally
        ensures { result ≡ tally_at self.now slot channel }
    {
        self.tally_at(slot, channel)
    }

    /// Returns the number of findings of a name.
    pub fn found(&self, name: Name) -> u64
        ensures { result ≡ found_of self.now name }
    {
        self.found[index_of(name)]
    }

    /// Returns whether there is a finding.
    pub fn has_finding(&self) -> bool
        ensures { result ≡ has_finding self.now }
    {
        self.found.iter().any(|count| *count != 0)
    }

    /// Returns the number of records.
    pub fn records(&self) -> u64
        ensures { result ≡ self.now.records }
    {
        self.records
    }

    /// Returns the number of records of other link types or kinds.
    pub fn foreign(&self) -> u64
        ensures { result ≡ self.now.foreign }
    {
        self.foreign
    }

    /// Returns the number of symbols on the channels that are judged.
    pub fn symbols(&self) -> u64
        ensures { result ≡ self.now.symbols }
    {
        self.symbols
    }

    /// Returns whether the channel had no good frame, though it should have had one.
    fn says_nothing(&self) -> bool
        ensures { result ≡ says_nothing self.now }
    {
        let opened = self.other.cycles >= SILENCE
            || (self.other.held.is_some() && self.other.cycles + 1 >= SILENCE);
        !self.mine.heard && (opened || !self.other.heard)
    }

    /// Tells that the channel had no good frame.
    #[tactic(auto, unfolding(crate::specs::Judging::tell_nothing))]
    fn tell_nothing(&mut self)
        ensures { self.new ≡ tell_nothing self.old }
    {
        if self.rules.has_sender(self.channel) && self.says_nothing() {
            let place = self.symbol_place();
            self.find(&None, &place, Finding::bare(Name::Nothing));
        }
    }

    /// Tells what the end of the input shows on the channel.
    #[tactic(auto, unfolding(crate::specs::Judging::tell_end))]
    fn tell_end(&mut self)
        ensures { self.new ≡ tell_end self.old }
    {
        if self.rules.whole {
            self.end_cycle(&None);
        }
        self.tell_nothing();
    }

    /// Ends a channel.
    #[tactic(auto, unfolding(crate::specs::Judging::finish_on))]
    fn finish_on(&mut self, channel: Channel, over: bool)
        ensures { self.new ≡ finish_on self.old channel over }
    {
        if !self.rules.judges(channel) {
            return;
        }
        self.turn(channel);
        self.settle(None);
        if over {
            self.tell_end();
        }
    }

    /// Ends the recording. After a refusal, when the input isn't over, nothing is told of its end.
    ///
    /// Afterwards `lines` has what the end shows.
    #[tactic(auto, unfolding(crate::specs::Judging::finish))]
    pub fn finish(&mut self, over: bool)
        ensures { self.new ≡ finish self.old over }
    {
        self.lines.clear();
        self.finish_on(Channel::A, over);
        self.finish_on(Channel::B, over);
    }

    /// Returns the lines that the last record or the end shows.
    pub fn lines(&self) -> &[Line]
        ensures { result.now ≡ self.now.lines }
    {
        self.lines.as_slice()
    }
}
