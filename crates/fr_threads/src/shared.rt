//! The state that all threads of a run share.

use crate::failure::RunFailure;
use crate::pace::Pace;
use crate::workload::Workload;
use fr_desks::wire::Wire;
use fr_schedule::cluster::Cluster;
use std::alloc::Global;
use std::sync::Wait;

/// The state that all threads of a run share: the bus, and in a lockstep run its cycle barrier.
#[derive(Drop)]
pub(crate) struct Shared {
    pub wire: Wire,
    pub pace: Option<Pace>,
}

/// The inputs of each thread of a run.
#[derive(Drop)]
pub(crate) struct Common<'a, R, G> {
    pub rt: &'a R,
    pub alloc: Global,
    pub shared: &'a Shared,
    pub cluster: &'a Cluster,
    pub workload: &'a Workload<'a>,
    pub gate: &'a G,
}

impl Shared {
    /// Waits, as a task that has lines in the cycle, until these are due.
    pub(crate) fn wait_due<R: Wait>(&self, rt: &R, cycle: u16) -> Result<(), RunFailure> {
        match &self.pace {
            Some(pace) => if pace.wait_due(rt, cycle) {
                Ok(())
            } else {
                Err(RunFailure::Stopped)
            },
            None => Ok(()),
        }
    }

    /// Reports that a task has executed all its lines of the cycle that came due last.
    pub(crate) fn tell_done<R: Wait>(&self, rt: &R) {
        if let Some(pace) = &self.pace {
            pace.tell_done(rt);
        }
    }

    /// Waits, as a controller that is to begin the cycle, until all lines of the cycle are executed.
    pub(crate) fn wait_done<R: Wait>(&self, rt: &R, cycle: u32) -> Result<(), RunFailure> {
        match &self.pace {
            Some(pace) => if pace.wait_done(rt, cycle) {
                Ok(())
            } else {
                Err(RunFailure::Stopped)
            },
            None => Ok(()),
        }
    }

    /// Lets each thread end at its next call that may wait.
    pub(crate) fn stop<R: Wait>(&self, rt: &R) {
        self.wire.stop(rt);
        if let Some(pace) = &self.pace {
            pace.stop(rt);
        }
    }
}
