//! The place of a controller in its window, and the data that it carries from one of its steps to the next.

ghost use Rattle.std.specs.Prelude.{◌≡◌};
ghost use Rattle.fr_core.specs.Carried.{Idle};
ghost use Rattle.fr_core.specs.Worlds.{is_between};

use fr_interface::interface::Offer;
use fr_slots::window::Window;
use fr_status::seen::Seen;
use std::marker::Model;

/// The step of a controller that is due, and its window. In each window it looks, fetches, puts, takes and observes, in
/// this order (project-defined).
#[derive(Clone, Copy, PartialEq, Eq)]
pub enum Due {
    Look,
    Fetch(Window),
    Put(Window),
    Take(Window),
    Observe(Window),
}

// Moving the offer and the observations took three fifths of a single-threaded run, so they stay in place. `Carried` is
// a definition that contracts cite, since it specifies events.
/// A controller: its due step, and room for the data that it carries to that step (project-defined).
#[derive(Drop)]
pub struct Controller {
    /// The step that is due.
    pub due: Due,
    /// The offer, if a put is due.
    pub offer: Offer,
    /// The observation on channel A, if an observe is due.
    pub a: Seen,
    /// The observation on channel B, if an observe is due.
    pub b: Seen,
}

impl Model for Controller {
    ghost use Rattle.fr_core.specs.Carried.{Carried, carried_of};

    ghost Value = { Carried };

    ghost view = { λ c. carried_of c.due c.offer c.a c.b };
}

impl Controller {
    /// Returns an idle controller.
    pub fn idle() -> Controller
        ensures { result ≡ Idle }
    {
        Controller {
            due: Due::Look,
            offer: Offer { a: None, b: None },
            a: Seen::Silence,
            b: Seen::Silence,
        }
    }

    /// Returns whether the controller has observed every window that it fetched.
    pub fn is_between(&self) -> bool
        ensures { result ≡ is_between self.now }
    {
        matches!(self.due, Due::Look | Due::Fetch(_))
    }
}
