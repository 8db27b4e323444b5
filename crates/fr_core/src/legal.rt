//! The invariants of interfaces, for all of them together.

ghost use Rattle.std.specs.List.{All};
ghost use Rattle.fr_interface.specs.Commits.{AreAccounted};
ghost use Rattle.fr_interface.specs.State.{IsLegalInterface};

use fr_interface::interface::Interface;

// For the prover: the loop gives the invariant of each interface.
/// States that each interface is legal, and has no effect.
fn each_legal(interfaces: &[Interface])
    ensures { All IsLegalInterface interfaces.now }
{
    for interface in interfaces {
        // For the prover: the clause of this call.
        let _journal = interface.journal();
    }
}

/// States that each interface is legal and accounts for its commits, and has no effect. Each commit is sent,
/// overwritten, withdrawn or pending.
pub(crate) fn known(interfaces: &[Interface])
    ensures legal { All IsLegalInterface interfaces.now }
    ensures accounted { All AreAccounted interfaces.now }
{
    each_legal(interfaces);
}
