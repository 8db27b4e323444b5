//! The state that a session keeps from line to line, beside its world.

use crate::kept::KeptLines;
use crate::latest::Latest;
use std::alloc::{AllocError, Global};

/// What a session notes from line to line (project-defined).
#[derive(Drop)]
pub struct Noted {
    /// The fault lines that are kept, in their order.
    pub faults: KeptLines,
    /// The last frame that `receive` returned of each buffer.
    pub latest: Latest,
}

impl Noted {
    ghost use Rattle.std.specs.Prelude.{◌≡◌, IfOk};
    ghost use Rattle.fr_session.specs.Sessions.{nothing_noted};

    /// Returns the state before the first line. Fails if an allocation does.
    pub fn new(alloc: Global) -> Result<Noted, AllocError>
        ensures { IfOk result (λ n. n ≡ nothing_noted) }
    {
        let latest = Latest::new(alloc)?;
        let faults = KeptLines::new(alloc);
        Ok(Noted { faults, latest })
    }
}
