//! The thread that moves the bus on.

ghost use Rattle.std.specs.Prelude.{◌≡◌, ◌<◌};

use crate::failure::RunFailure;
use crate::shared::Common;
use fr_desks::gate::Gate;
use fr_desks::letter::Delivery;
use fr_desks::wire::{Wire, WireError};
use fr_runs::fault_line::{FaultLine, keep_lines_of};
use fr_slots::numbers::NodeId;
use fr_slots::window::{Window, cycles_with, opens_cycle, run_cycle};
use std::sync::Wait;
use std::time::Clock;

/// Injects the faults of this window, which lies in the run's cycle of this number.
fn inject_all<R: Wait + Clock>(
    rt: &R,
    wire: &Wire,
    faults: &[FaultLine],
    cycle: usize,
    window: &Window,
) -> Result<(), WireError> {
    for line in faults {
        if line.strikes(cycle, window) {
            wire.inject(rt, line.fault.duplicate())?;
        }
    }
    Ok(())
}

/// Moves the bus on from window to window, up to the end of the run.
fn move_on<R: Wait + Clock, G: Gate>(common: &Common<'_, R, G>) -> Result<(), RunFailure> {
    let (rt, wire) = (common.rt, &common.shared.wire);
    let mut begun = 0;
    let mut kept = Vec::new(common.alloc);
    let mut delivery = Delivery::new();
    // `next` changes nothing, and each node gets the same window.
    let mut opened = wire.next(rt, NodeId::from_number(0))?;
    for _ in rt.forever() {
        let Some(window) = opened else {
            return Ok(());
        };
        let cycle = run_cycle(begun, &window) as usize;
        if opens_cycle(&window) {
            keep_lines_of(common.workload.faults, cycle, &mut kept)?;
        }
        begun = cycles_with(begun, &window);
        inject_all(rt, wire, kept.as_slice(), cycle, &window)?;
        wire.seal(rt, common.gate)?;
        opened = wire.deliver(rt, &mut delivery)?;
    }
    unreachable!()
}

/// Runs the thread of the bus. If it fails, the run is stopped.
pub(crate) fn run_bus<R: Wait + Clock, G: Gate>(
    common: &Common<'_, R, G>,
) -> Result<(), RunFailure> {
    let ended = move_on(common);
    if ended.is_err() {
        common.shared.stop(common.rt);
    }
    ended
}
