//! The segments of a cycle.

ghost use Rattle.std.specs.Prelude.{◌≡◌};
ghost use Rattle.fr_slots.specs.Parameters.{IsParameters};
ghost use Rattle.fr_timing.specs.Segments.{dynamic_start, symbol_start, idle_start, cycle_end};

use fr_slots::params::Params;

/// The starts of a cycle's segments, in macroticks from its start (chapter 5). The static segment starts at 0.
#[derive(Clone, Copy, PartialEq, Eq)]
pub struct Segments {
    /// The start of the dynamic segment, and the end of the static one.
    pub dynamic: u32,
    /// The start of the symbol window, and the end of the dynamic segment.
    pub symbol: u32,
    /// The start of the network idle time, and the end of the symbol window.
    pub idle: u32,
    /// The end of the network idle time and of the cycle: the cycle's length.
    pub end: u32,
}

/// Returns the starts of the segments of a cycle with these parameters.
pub fn segments_of(params: &Params) -> Segments
    ensures dynamic { result.dynamic ≡ dynamic_start params.now }
    ensures symbol { result.symbol ≡ symbol_start params.now }
    ensures idle { result.idle ≡ idle_start params.now }
    ensures end { result.end ≡ cycle_end params.now }
    ensures lawful { IsParameters params.now }
{
    let dynamic = u32::from(params.static_slots) * u32::from(params.static_mt);
    let symbol = dynamic + u32::from(params.minislots) * u32::from(params.minislot_mt);
    let idle = symbol + u32::from(params.symbol_mt);
    Segments {
        dynamic,
        symbol,
        idle,
        end: idle + u32::from(params.nit_mt),
    }
}
