//! The two channels of a cluster.

ghost use Rattle.std.specs.Prelude.{◌≡◌};
ghost use Rattle.fr_slots.specs.Admission.{includes};

use std::fmt;

/// One of the two channels of a cluster (chapter 5).
#[derive(Clone, Copy, Debug, PartialEq, Eq)]
pub enum Channel {
    A,
    B,
}

impl fmt::Display for Channel {
    ghost use Rattle.std.specs.Prelude.{Some};
    ghost use Rattle.fr_slots.specs.Admission.{letter_of};

    ghost output = { λ channel. Some (letter_of channel) };

    fn fmt<W: fmt::Write>(&self, f: &mut fmt::Formatter<W>) -> fmt::Result {
        match self {
            Channel::A => write!(f, "A"),
            Channel::B => write!(f, "B"),
        }
    }
}

/// The channels that a line of a plan is for: one of them, or both.
#[derive(Clone, Copy, Default, PartialEq, Eq)]
pub enum Channels {
    A,
    B,
    #[default]
    Both,
}

impl Channels {
    /// Returns whether the channel is among these.
    pub fn includes(self, channel: Channel) -> bool
        ensures { result ≡ includes self channel }
    {
        match (self, channel) {
            (Channels::Both, _) | (Channels::A, Channel::A) | (Channels::B, Channel::B) => true,
            (Channels::A, Channel::B) | (Channels::B, Channel::A) => false,
        }
    }
}
