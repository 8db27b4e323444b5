//! A record of a recording.

ghost use Rattle.std.specs.Prelude.{◌≡◌, None, Some, ℤ, Option, length};
ghost use Rattle.fr_logged.specs.Logged.{spelled};
ghost use Rattle.fr_judging.specs.Judging.{disturb, mark_odd, member, add_ill, wrong_count, next_of, decide, settle};
ghost use Rattle.fr_judging.specs.Judging.{settle_with, hold, place_frame, speak, good, ill, is_lawless, spelled_frame};
ghost use Rattle.fr_judging.specs.Judging.{take_frame, frame_on, symbol_place, symbol_on, take_kind, next_record};
ghost use Rattle.fr_judging.specs.Judging.{judge, find};
ghost use Rattle.fr_logged.specs.Findings.{with_numbers, number_word};
ghost use Rattle.fr_logged.specs.Logged.{place_of as frame_place};
ghost use Rattle.fr_logged.specs.declared.finding.Name.TheVariants.{Order, Slot};
ghost use Rattle.fr_logged.specs.declared.finding.Word.TheVariants.{Absent};

use crate::came::same_open;
use crate::distance::is_anew;
use crate::judge::Judge;
use crate::lane::{Held, Next, opens};
use crate::line::At;
use crate::opening::count_word;
use fr_frame::frame::Frame;
use fr_frame::lent::LentFrame;
use fr_logged::finding::{Finding, Name, Place, Word};
use fr_logged::record::{Kind, cut, kind_of, place_in, place_of, plain, spelled};
use fr_recording::numbers::Moment;
use fr_slots::channel::Channel;

/// Returns the count and the slot of a frame.
#[inline(always)]
fn next_of(frame: &LentFrame<'_>) -> Next
    ensures { result ≡ next_of frame.now }
{
    Next {
        cycle: frame.cycle,
        slot: frame.id,
    }
}

/// Lends a frame.
fn lent(frame: &Frame) -> LentFrame<'_>
    ensures { result ≡ frame.now }
{
    LentFrame {
        preamble: frame.preamble,
        has_data: frame.has_data,
        sync: frame.sync,
        startup: frame.startup,
        id: frame.id,
        payload: frame.payload.as_slice(),
        cycle: frame.cycle,
    }
}

impl Judge {
    /// Marks a slot whose good frame doesn't count.
    fn mark_odd(&mut self, slot: u16)
        ensures { self.new ≡ mark_odd self.old slot }
    {
        let mut tally = self.tally_at(u32::from(slot), self.channel);
        tally.odd = true;
        self.with_tally(u32::from(slot), self.channel, tally);
    }

    /// Takes a frame of the open cycle.
    #[tactic(auto, unfolding(crate::specs::Judging::member))]
    #[inline(always)]
    fn member(&mut self, frame: &LentFrame<'_>, at: &At)
        ensures { self.new ≡ member self.old frame.now at.now }
    {
        let last = self.mine.last;
        if frame.id > last {
            self.skip_before(frame, at);
            self.came(frame, at);
            return;
        }
        self.disorder(frame, at, last);
    }

    /// Tells a frame whose slot isn't above that of the frame before.
    #[inline(never)]
    fn disorder(&mut self, frame: &LentFrame<'_>, at: &At, last: u16)
        ensures { self.new ≡ find (mark_odd (disturb self.old) frame.now.id) (Some at.now)
            (frame_place self.old.channel frame.now) (with_numbers Order last frame.now.id) }
    {
        self.mine.disturb();
        self.mark_odd(frame.id);
        let finding = Finding::with_numbers(Name::Order, u64::from(last), u64::from(frame.id));
        self.find(&Some(*at), &place_of(self.channel, frame), finding);
    }

    /// Tells a frame with a wrong cycle count.
    #[tactic(auto, unfolding(crate::specs::Judging::wrong_count))]
    #[inline(never)]
    fn wrong_count(&mut self, frame: &LentFrame<'_>, at: &At)
        ensures { self.new ≡ wrong_count self.old frame.now at.now }
    {
        let expected = count_word(self.mine.current);
        self.mine.disturb();
        self.mark_odd(frame.id);
        let finding = Finding {
            name: Name::Cycle,
            expected,
            found: Word::number(u64::from(frame.cycle.number())),
        };
        self.find(&Some(*at), &place_of(self.channel, frame), finding);
    }

    /// Decides a frame that waited.
    #[tactic(auto, unfolding(crate::specs::Judging::decide))]
    fn decide(&mut self, frame: &LentFrame<'_>, at: &At, next: Option<Next>)
        ensures { self.new ≡ decide self.old frame.now at.now next }
    {
        if opens(self.mine.current, next_of(frame), next) {
            self.open_cycle(frame, at);
        } else {
            self.wrong_count(frame, at);
        }
    }

    /// Decides the frame that waits, by the next good one.
    #[tactic(auto, unfolding(crate::specs::Judging::settle))]
    #[inline(always)]
    pub(crate) fn settle(&mut self, next: Option<Next>)
        ensures { self.new ≡ settle self.old next }
    {
        // A frame waits at the start of a cycle alone, and to take one moves its bytes.
        if self.mine.held.is_some() {
            self.settle_held(next);
        }
    }

    /// Decides the frame that waits, by the next good one.
    #[tactic(auto, unfolding(crate::specs::Judging::settle))]
    #[inline(never)]
    fn settle_held(&mut self, next: Option<Next>)
        ensures { self.new ≡ settle self.old next }
    {
        if let Some(held) = self.mine.held.take() {
            let since = self.mine.ill_held;
            self.mine.ill_held = 0;
            self.decide(&lent(&held.frame), &held.at, next);
            self.mine.ill = self.mine.ill.saturating_add(since);
        }
    }

    /// Lets a good frame wait.
    #[tactic(auto, unfolding(crate::specs::Judging::hold))]
    #[inline(never)]
    fn hold(&mut self, frame: &LentFrame<'_>, at: &At)
        ensures { self.new ≡ hold self.old frame.now at.now }
    {
        self.mine.held = Some(Held {
            at: *at,
            frame: Frame::from_lent(frame),
        });
    }

    /// Takes a good frame, when none waits.
    #[tactic(auto, unfolding(crate::specs::Judging::place_frame))]
    #[inline(always)]
    fn place_frame(&mut self, frame: &LentFrame<'_>, at: &At)
        ensures { self.new ≡ place_frame self.old frame.now at.now }
    {
        if !same_open(self.mine.current, Some(frame.cycle)) {
            self.hold(frame, at);
        } else if is_anew(&self.rules, &self.mine, at.time) {
            self.open_cycle(frame, at);
        } else {
            self.member(frame, at);
        }
    }

    /// Takes a good frame.
    #[tactic(auto, unfolding(crate::specs::Judging::good))]
    #[inline(always)]
    fn good(&mut self, frame: &LentFrame<'_>, at: &At)
        ensures { self.new ≡ good self.old frame.now at.now }
    {
        let lane = &mut self.mine;
        lane.heard = true;
        lane.spoke = at.number;
        lane.alone = 0;
        self.settle(Some(next_of(frame)));
        self.place_frame(frame, at);
    }

    /// Tells a record that changes nothing.
    #[tactic(auto, unfolding(crate::specs::Judging::ill))]
    #[inline(never)]
    fn ill(&mut self, at: &At, place: &Place, finding: Finding)
        ensures { self.new ≡ ill self.old at.now place.now finding }
    {
        self.mine.disturb();
        self.find(&Some(*at), place, finding);
    }

    /// Returns whether no slot of the cluster has this frame ID.
    #[inline(always)]
    fn is_lawless(&self, id: u16) -> bool
        ensures { result ≡ is_lawless self.now id }
    {
        let params = self.rules.cluster.params();
        id == 0 || (id > params.static_slots && params.minislots == 0)
    }

    /// Takes a frame that is spelled as its header says.
    #[tactic(auto, unfolding(crate::specs::Judging::spelled_frame))]
    #[inline(always)]
    fn spelled_frame(&mut self, at: &At, frame: &LentFrame<'_>)
        ensures { self.new ≡ spelled_frame self.old at.now frame.now }
    {
        if self.is_lawless(frame.id) {
            self.lawless(at, frame);
        } else {
            self.good(frame, at);
        }
    }

    /// Tells a frame with an ID that no slot of the cluster has.
    #[inline(never)]
    fn lawless(&mut self, at: &At, frame: &LentFrame<'_>)
        ensures { self.new ≡ ill self.old at.now (frame_place self.old.channel frame.now) (record {
          name = Slot;
          expected = Absent;
          found = number_word frame.now.id;
        }) }
    {
        let finding = Finding {
            name: Name::Slot,
            expected: Word::Absent,
            found: Word::number(u64::from(frame.id)),
        };
        self.ill(at, &place_of(self.channel, frame), finding);
    }

    /// Takes a record of a frame on the channel.
    #[tactic(auto, unfolding(crate::specs::Judging::frame_on))]
    #[inline(always)]
    fn frame_on(&mut self, at: &At, original: u32, bytes: &[u8])
        ensures { self.new ≡ frame_on self.old at.now original bytes.now }
    {
        self.mine.frames = self.mine.frames.saturating_add(1);
        match plain(self.channel, original, bytes) {
            Some(frame) => self.spelled_frame(at, &frame),
            None => self.unspelled(at, original, bytes),
        }
    }

    /// Tells a record of a frame on the channel that isn't spelled as its header says.
    #[inline(never)]
    fn unspelled(&mut self, at: &At, original: u32, bytes: &[u8])
        ensures { self.new ≡ take_frame self.old at.now bytes.now (spelled self.old.channel original bytes.now) }
    {
        match spelled(self.channel, original, bytes) {
            Ok(frame) => self.spelled_frame(at, &frame),
            Err(finding) => self.ill(at, &place_in(self.channel, bytes), finding),
        }
    }

    /// Returns the place of a symbol.
    pub(crate) fn symbol_place(&self) -> Place
        ensures { result ≡ symbol_place self.now }
    {
        Place {
            cycle: None,
            channel: self.channel,
            slot: None,
        }
    }

    /// Takes a record of a symbol on the channel.
    #[tactic(auto, unfolding(crate::specs::Judging::symbol_on))]
    fn symbol_on(&mut self, at: &At, original: u32, bytes: &[u8])
        ensures { self.new ≡ symbol_on self.old at.now original bytes.now }
    {
        let place = self.symbol_place();
        if bytes.len() < original as usize {
            self.ill(at, &place, cut(original, bytes.len()));
        } else if self.rules.cluster.params().symbol_mt == 0 {
            self.find(&Some(*at), &place, Finding::bare(Name::Symbol));
        }
    }

    /// Takes a record of this kind.
    #[tactic(auto, unfolding(crate::specs::Judging::take_kind))]
    #[inline(always)]
    fn take_kind(&mut self, at: &At, original: u32, bytes: &[u8], kind: Kind)
        ensures { self.new ≡ take_kind self.old at.now original bytes.now kind }
    {
        match kind {
            Kind::Foreign => self.foreign = self.foreign.saturating_add(1),
            Kind::Symbol(channel) if self.rules.judges(channel) => {
                self.turn(channel);
                self.symbols = self.symbols.saturating_add(1);
                self.symbol_on(at, original, bytes);
            }
            Kind::Frame(channel) if self.rules.judges(channel) => {
                self.turn(channel);
                self.frame_on(at, original, bytes);
            }
            Kind::Symbol(_) | Kind::Frame(_) => {}
        }
    }

    /// Judges a record with this time, link type and captured bytes, of so many bytes that there were.
    ///
    /// Afterwards `lines` has what the record shows.
    #[tactic(auto, unfolding(crate::specs::Judging::judge))]
    #[inline(always)]
    pub fn judge(&mut self, time: Option<Moment>, link: u16, original: u32, bytes: &[u8])
        ensures { self.new ≡ judge self.old (record {
          time = time;
          link = link;
          original = original;
          bytes = bytes.now;
        }) }
    {
        self.records = self.records.saturating_add(1);
        self.lines.clear();
        let at = At {
            number: self.records,
            time,
        };
        self.take_kind(&at, original, bytes, kind_of(link, bytes));
    }
}
