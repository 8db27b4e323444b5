//! The interface after the lines before the one at fault.
ghost use Rattle.std.specs.Prelude.{◌≡◌, IfOk, IfErr};
ghost use Rattle.fr_trace.specs.Stream.{fresh, take_bytes};
ghost use Rattle.fr_why.specs.Faults.{state_at};
ghost use Rattle.fr_why.specs.Heads.{Tells};

use crate::head::Head;
use fr_interface::interface::Interface;
use fr_trace::error::TraceError;
use fr_trace::pieces::audit_pieces;
use std::alloc::Global;

/// Returns the interface after these lines, once its plan is complete, with or without the line `end`.
///
/// Returns `Memory` if an allocation fails.
pub(crate) fn interface_after(
    alloc: Global,
    head: &Head,
    lines: &[u8],
) -> Result<Option<Interface>, TraceError>
    requires { Tells lines.now head.now }
    ensures left { IfOk result (λ o. o ≡ state_at (take_bytes fresh lines.now)) }
    ensures refused { IfErr result (λ e. e ≡ TraceError.Memory) }
{
    let text = match head {
        Head::Body(_) => audit_pieces(alloc, &[lines, b"end\n"]),
        Head::Finished => audit_pieces(alloc, &[lines]),
        _ => return Ok(None),
    };
    match text {
        Ok(interface) => Ok(Some(interface)),
        Err(error) => Err(error),
    }
}
