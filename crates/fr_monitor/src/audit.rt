//! The audit that the words of a command ask for, and the exit status of its end.
ghost use Rattle.std.specs.Prelude.{◌≡◌};
ghost use Rattle.fr_monitor.specs.Ends.{end_status, rules_asked};
ghost use Rattle.fr_monitoring.specs.Monitoring.{Monitors};

use crate::failure::MonitorFailure;
use fr_cli::monitor::MonitorCommand;
use fr_judging::rules::Rules;
use fr_monitoring::error::MonitorError;
use fr_monitoring::monitor::monitor;
use fr_schedule::cluster::Cluster;
use std::alloc::Global;
use std::io::{Read, Write};

/// The exit status if there is a finding.
const FINDING: u8 = 3;

/// Audits the reader's recording by the cluster, as the command asks for. Returns whether there is a finding, as
/// `monitor` does, and fails as it does.
pub(crate) fn audit<R: Read, W: Write>(
    alloc: Global,
    cluster: Cluster,
    command: &MonitorCommand<'_>,
    reader: &mut R,
    writer: &mut W,
) -> Result<bool, MonitorError>
    ensures { Monitors command.now.frames (rules_asked cluster command.now) (R.remaining reader.old)
        (R.remaining reader.new) (W.contents writer.old) (W.contents writer.new) result }
{
    let rules = Rules::new(
        cluster,
        u64::from(command.findings),
        command.whole,
        command.channel,
        command.macrotick,
    );
    monitor(alloc, rules, command.frames, reader, writer)
}

/// Returns the exit status of the program: 0 without a finding, 3 with one, and that of a failure.
pub(crate) fn end_status(ended: &Result<bool, MonitorFailure>) -> u8
    ensures { result ≡ end_status ended.now }
{
    match ended {
        Ok(false) => 0,
        Ok(true) => FINDING,
        Err(failure) => failure.status(),
    }
}
