//! Observations that are judged once, for all nodes that make them.

ghost use Rattle.std.specs.Prelude.{◌≡◌, ◌++◌, ◌∷◌, [], IfSome};
ghost use Rattle.fr_interface.specs.Sights.{seen_in};
ghost use Rattle.fr_journal.specs.declared.entry.Entry.TheVariants as entries;
ghost use Rattle.fr_journal.specs.Histories.{HasSlotRoom};
ghost use Rattle.fr_slots.specs.declared.channel.Channel.TheVariants as Channel;
ghost use Rattle.fr_status.specs.Checks.{IsCheckSeen};

use crate::interface::seen_within;
use crate::observed::{Told, is_quiet};
use fr_frame::frame::Frame;
use fr_frame::lent::LentFrame;
use fr_journal::history::History;
use fr_slots::channel::Channel;
use fr_slots::params::Params;
use fr_slots::window::Window;
use fr_status::seen::Seen;
use fr_status::status::{SlotStatus, checks_seen};
use std::marker::Model;

/// The status of the slot and the valid data frame that follow from an observation on a channel of a window.
#[derive(Drop)]
pub(crate) struct Judged {
    pub params: Params,
    pub window: Window,
    pub channel: Channel,
    pub status: Option<SlotStatus>,
    pub frame: Option<Frame>,
}

/// Returns the frame, whose payload stays where it is.
fn lent(frame: &Frame) -> LentFrame<'_>
    ensures { result ≡ frame.now }
{
    LentFrame {
        preamble: frame.preamble,
        has_data: frame.has_data,
        sync: frame.sync,
        startup: frame.startup,
        id: frame.id,
        payload: frame.payload.as_slice(),
        cycle: frame.cycle,
    }
}

impl Judged {
    ghost use Rattle.std.specs.Prelude.{◌≡◌, ◌↔◌, IsTrue};
    ghost use Rattle.fr_interface.specs.Sights.{IsFor};

    /// Returns whether these follow from the observation on this channel of this window.
    fn is_for(&self, params: &Params, window: &Window, channel: Channel) -> bool
        ensures { IsTrue result ↔ IsFor self.now params.now window.now channel }
    {
        self.window == *window && self.channel == channel && self.params == *params
    }

    /// Returns status and frame, whose payload stays where it is.
    fn told(&self) -> Told<'_>
        ensures status { result.status ≡ self.now.status }
        ensures frame { result.frame ≡ self.now.frame }
    {
        let frame = match &self.frame {
            Some(frame) => Some(lent(frame)),
            None => None,
        };
        Told {
            status: self.status,
            frame,
        }
    }
}

// Without it each receiver of a window checked the same bytes again.
/// What is heard on a channel in a window, with the status of its slot and the valid data frame (project-defined). All
/// nodes that observe the same share them, so they are found once.
#[derive(Drop)]
pub struct Heard {
    seen: Seen,
    judged: Option<Judged>,
}

impl Model for Heard {
    ghost use Rattle.fr_status.specs.Forms.{Seen};
    ghost use Rattle.fr_interface.specs.HeardFields.{IsJudged};

    ghost Value = { Seen };

    ghost view = { λ h. h.seen };

    ghost invariant = { IsJudged };
}

impl Heard {
    ghost use Rattle.std.specs.Prelude.{◌≡◌};
    ghost use Rattle.fr_interface.specs.Seeing.{status_seen};
    ghost use Rattle.fr_journal.specs.Held.{data_frame_seen};
    ghost use Rattle.fr_status.specs.declared.seen.Seen.TheVariants as Sees;

    /// Returns silence.
    pub fn silence() -> Heard
        ensures { result ≡ Sees.Silence }
    {
        Heard {
            seen: Seen::Silence,
            judged: None,
        }
    }

    /// Writes silence, unless it is there already.
    pub fn fall_silent(&mut self)
        ensures { self.new ≡ Sees.Silence }
    {
        match self.seen {
            Seen::Silence => {}
            _ => self.clear(),
        }
    }

    /// Writes silence. It isn't inlined, so that silence that is there already doesn't pay for the room of a frame.
    #[inline(never)]
    fn clear(&mut self)
        ensures { self.new ≡ Sees.Silence }
    {
        *self = Heard::silence();
    }

    /// Returns the observation on the channel of a window, with what follows from it.
    pub fn of(params: &Params, window: &Window, channel: Channel, seen: Seen) -> Heard
        ensures { result ≡ seen }
    {
        let told = Told::of(params, window, channel, &seen);
        let frame = match &told.frame {
            Some(frame) => Some(Frame::from_lent(frame)),
            None => None,
        };
        let judged = Judged {
            params: Params { ..*params },
            window: Window { ..*window },
            channel,
            status: told.status,
            frame,
        };
        Heard {
            seen,
            judged: Some(judged),
        }
    }

    /// Returns the observation.
    pub fn seen(&self) -> &Seen
        ensures { result.now ≡ self.now }
    {
        &self.seen
    }

    /// Returns the status and the frame of the observation on the channel of a window. They are found anew if they were
    /// found for another one.
    fn told(&self, params: &Params, window: &Window, channel: Channel) -> Told<'_>
        ensures status { result.status ≡ status_seen params.now window.now channel self.now }
        ensures frame { result.frame ≡ data_frame_seen params.now window.now channel self.now }
    {
        match &self.judged {
            Some(judged) if judged.is_for(params, window, channel) => judged.told(),
            _ => Told::of(params, window, channel, &self.seen),
        }
    }
}

/// A node's observation on a channel (project-defined). It borrows what others observe, too.
#[derive(Clone, Copy)]
pub enum Sight<'a> {
    /// Only the node's own transmission.
    Own,
    /// Several transmissions, with the node's own among them.
    Conflict,
    /// An observation whose status and frame are still to be found.
    Seen(&'a Seen),
    /// An observation whose status and frame were found for its channel and window.
    Heard(&'a Heard),
}

impl<'a> Sight<'a> {
    ghost use Rattle.std.specs.Prelude.{◌≡◌, true, IfSome};
    ghost use Rattle.fr_status.specs.Checks.{IsCheckSeen};
    ghost use Rattle.fr_interface.specs.Seeing.{IsQuiet, status_seen};
    ghost use Rattle.fr_interface.specs.Sights.{seen_in};
    ghost use Rattle.fr_journal.specs.Entries.{IsSeen};
    ghost use Rattle.fr_journal.specs.Held.{data_frame_seen};

    /// Returns whether it sets no bit and has no frame.
    pub(crate) fn is_quiet(&self) -> bool
        ensures { result ≡ true → IsQuiet (seen_in self.now) }
    {
        match self {
            Sight::Own => is_quiet(&Seen::Own),
            Sight::Conflict => false,
            Sight::Seen(seen) => is_quiet(seen),
            Sight::Heard(heard) => is_quiet(heard.seen()),
        }
    }

    /// States that each of its bytes is below 256, and has no effect.
    pub(crate) fn known(&self)
        ensures { IsSeen (seen_in self.now) }
    {
        match self {
            Sight::Own | Sight::Conflict => {}
            Sight::Seen(seen) => {
                let _seen = seen_within(seen);
            }
            Sight::Heard(heard) => {
                let _seen = seen_within(heard.seen());
            }
        }
    }

    /// Returns the status and the frame of the observation on the channel of a window.
    ///
    /// `check` is the calculated frame CRC of the observed bytes, if it is known. The function is inlined, so that an
    /// observation of known kind needs no match.
    #[inline(always)]
    pub(crate) fn told(
        &self,
        params: &Params,
        window: &Window,
        channel: Channel,
        check: Option<u32>,
    ) -> Told<'a>
        requires { IfSome check (λ n. IsCheckSeen channel (seen_in self.now) n) }
        ensures status { result.status ≡ status_seen params.now window.now channel (seen_in self.now) }
        ensures frame { result.frame ≡ data_frame_seen params.now window.now channel (seen_in self.now) }
    {
        match self {
            Sight::Own => Told::of_own(window, channel),
            Sight::Conflict => Told::of_conflict(window, channel),
            Sight::Seen(seen) => Told::by(params, window, channel, seen, check),
            Sight::Heard(heard) => heard.told(params, window, channel),
        }
    }
}

/// Returns the calculated frame CRCs of two observations that are twins and not judged yet.
///
/// Twins are those of `checks_seen`. `None` for all other observations.
#[inline(always)]
pub(crate) fn checks_in(a: &Sight<'_>, b: &Sight<'_>) -> Option<(u32, u32)>
    ensures on_a { IfSome result (λ checks. IsCheckSeen Channel.A (seen_in a.now) checks.0) }
    ensures on_b { IfSome result (λ checks. IsCheckSeen Channel.B (seen_in b.now) checks.1) }
{
    match (a, b) {
        (Sight::Seen(a), Sight::Seen(b)) => checks_seen(a, b),
        _ => None,
    }
}

/// Appends an observe with these observations to the history, which has room for it.
fn push_seen<H: History>(history: &mut H, number: u32, a: &Seen, b: &Sight<'_>)
    requires room { HasSlotRoom (H.limits history.old) (H.told history.old) }
    ensures entries { H.told history.new
        ≡ H.told history.old ++ entries.Observe number a.now (seen_in b.now) ∷ [] }
    ensures limits { H.limits history.new ≡ H.limits history.old }
{
    match b {
        Sight::Own => history.push_observe(number, a, &Seen::Own),
        Sight::Conflict => history.push_observe(number, a, &Seen::Conflict),
        Sight::Seen(seen) => history.push_observe(number, a, seen),
        Sight::Heard(heard) => history.push_observe(number, a, heard.seen()),
    }
}

/// Appends an observe with these observations to the history, which has room for it.
pub(crate) fn push_sights<H: History>(history: &mut H, number: u32, a: &Sight<'_>, b: &Sight<'_>)
    requires room { HasSlotRoom (H.limits history.old) (H.told history.old) }
    ensures entries { H.told history.new
        ≡ H.told history.old ++ entries.Observe number (seen_in a.now) (seen_in b.now) ∷ [] }
    ensures limits { H.limits history.new ≡ H.limits history.old }
{
    match a {
        Sight::Own => push_seen(history, number, &Seen::Own, b),
        Sight::Conflict => push_seen(history, number, &Seen::Conflict, b),
        Sight::Seen(seen) => push_seen(history, number, seen, b),
        Sight::Heard(heard) => push_seen(history, number, heard.seen(), b),
    }
}
